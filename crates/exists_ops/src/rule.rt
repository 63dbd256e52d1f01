// The rule of `exists_in`.
ghost use Rattle.std.specs.Prelude.{◌≡◌, IfOk};
ghost use Rattle.data_set_trees.specs.declared.tree.DataSetOperator.TheVariants.{ExistsIn};
ghost use Rattle.exists_ops.specs.Rules.{IsExists};

use crate::notes::{note_changes, note_parts};
use crate::numbers::{numbers_in, viral_numbers};
use crate::parts::shifts_of;
use crate::told::Told;
use data_model::steps::Steps;
use data_set_trees::{DataSetNode, DataSetOperator};
use held_index::{DeltaRule, Draft, Held, Stop, Want};
use point_sets::Delta;
use sqlite_items::Items;
use std::alloc::{AllocError, Global};
use std::marker::Model;
use std::sync::Arc;
use std::sync::ledger::Ledger;
use std::thread::Threads;
use vtl_syntax::words::ExistsRows;
use vtl_values::Structure;

/// The rule of `exists_in`. It keeps what is told of points, and the wants, the first operand's before the second's.
#[derive(Drop)]
pub struct ExistsRule {
    left: Structure,
    right: Structure,
    structure: Structure,
    told: Told,
    wants: Items<Want>,
}

impl Model for ExistsRule {
    ghost use Rattle.data_set_trees.specs.checked.Operators.{operator_coded, Operator};
    ghost use Rattle.operator_meaning.specs.exists.Exists.{exists_on};
    ghost use Rattle.exists_ops.specs.Rules.{operator_of, IsRule};

    ghost Value = { Operator };

    ghost coded = { operator_coded };

    ghost view = { λ r. operator_of (exists_on r.told.rows r.left r.right r.structure) };

    ghost invariant = { λ r. IsRule (exists_on r.told.rows r.left r.right r.structure) r.told r.wants };
}

/// The rows that an operator keeps.
fn rows_of(operator: &DataSetOperator) -> ExistsRows
    requires { IsExists operator.now }
    ensures { operator.now ≡ ExistsIn result }
{
    match operator {
        DataSetOperator::ExistsIn { rows } => *rows,
        _ => unreachable!(),
    }
}

impl ExistsRule {
    ghost use Rattle.data_set_trees.specs.checked.Operators.{an_operator, IsTyped};

    /// The rule of a node's operator, which is `exists_in`.
    pub fn of(alloc: Global, node: &DataSetNode) -> Result<ExistsRule, AllocError>
        requires typed { IsTyped (an_operator node.now.operator node.now.operands node.now.structure) }
        requires exists { IsExists node.now.operator }
        ensures { IfOk result (λ rule. rule ≡ an_operator node.now.operator node.now.operands node.now.structure) }
    {
        let operands = node.operands.as_slice();
        let (left, right) = (&operands[0], &operands[1]);
        let (ours, theirs) = (left.components(), right.components());
        let mut wants = Vec::new(alloc);
        wants.push(Want::in_parts(alloc, 0, numbers_in(alloc, ours, ours, theirs)?))?;
        wants.push(Want::in_parts(alloc, 1, numbers_in(alloc, theirs, ours, theirs)?))?;
        Ok(ExistsRule {
            told: Told {
                rows: rows_of(node.operator.get()),
                virals: viral_numbers(alloc, ours)?,
            },
            left: left.copy()?,
            right: right.copy()?,
            structure: node.structure.copy()?,
            wants: Items::from_vec(wants),
        })
    }
}

impl DeltaRule for ExistsRule {
    ghost use Rattle.std.specs.Prelude.{length};
    ghost use Rattle.operator_meaning.specs.Operators.{meaning_of, AreOperands};
    ghost use Rattle.pair_ops.specs.Reach.{matching_reach};
    ghost use Rattle.pair_ops.specs.ReachLaws.{no_reach};
    ghost use Rattle.exists_ops.specs.Rules.{wanted_of};

    ghost arity = { λ r. length r.operands };

    ghost admits = { λ r. AreOperands r.operands };

    ghost meaning = { meaning_of };

    ghost wanted = { wanted_of };

    ghost structure = { λ r. r.structure };

    ghost reach = { λ r. matching_reach r.operands 0 };

    ghost rests = { λ r. no_reach r.operands 0 };

    fn wants(&self) -> &[Want] {
        self.wants.as_slice()
    }

    fn result(&self) -> &Structure {
        &self.structure
    }

    fn delta<R: Threads + Sync, L: Ledger>(
        &self,
        _rt: &R,
        alloc: Global,
        before: u64,
        held: &[Held],
        news: &[Arc<Delta>],
        steps: &mut Steps<L>,
    ) -> Result<Delta, Stop> {
        let (told, wants) = (&self.told, self.wants.as_slice());
        let (left, right) = (&held[0], &held[1]);
        let (own, other) = (&news[0], &news[1]);
        let numbers = wants[0].part.as_slice();
        let shifts = shifts_of(alloc, wants[1].part.as_slice(), other)?;
        let mut draft = Draft::new(alloc);
        note_changes(alloc, told, numbers, own, right, &shifts, &mut draft, steps)?;
        note_parts(alloc, told, left, own, right, shifts, &mut draft, steps)?;
        draft.finish(alloc, before)
    }
}
