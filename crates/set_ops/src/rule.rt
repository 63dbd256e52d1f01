// The rule of a set operator.
ghost use Rattle.std.specs.Prelude.{◌≡◌, IfOk};
ghost use Rattle.data_set_trees.specs.declared.tree.DataSetOperator.TheVariants.{Set};
ghost use Rattle.data_set_trees.specs.checked.Operators.{an_operator, IsTyped};
ghost use Rattle.set_ops.specs.Readings.{readings_of};
ghost use Rattle.set_ops.specs.Rules.{IsSet};

use crate::notes::noted;
use crate::reading::Reading;
use data_model::steps::Steps;
use data_set_trees::{DataSetNode, DataSetOperator, SetOperation, SharedOperator};
use held_index::{DeltaRule, Held, Stop, Want, all_whole};
use point_sets::Delta;
use sqlite_items::Items;
use std::alloc::{AllocError, Global};
use std::marker::Model;
use std::sync::Arc;
use std::sync::ledger::Ledger;
use std::thread::Threads;
use structured_sets::copy_all;
use vtl_values::Structure;

/// The rule of a set operator. It keeps how each operand is read.
#[derive(Drop)]
pub struct SetRule {
    operator: SharedOperator,
    operands: Items<Structure>,
    structure: Structure,
    readings: Items<Reading>,
    wants: Items<Want>,
}

impl Model for SetRule {
    ghost use Rattle.data_set_trees.specs.checked.Operators.{an_operator, operator_coded, Operator};
    ghost use Rattle.set_ops.specs.Rules.{IsRule};

    ghost Value = { Operator };

    ghost coded = { operator_coded };

    ghost view = { λ r. an_operator r.operator r.operands r.structure };

    ghost invariant = { λ r. IsRule (an_operator r.operator r.operands r.structure) r.readings r.wants };
}

/// How each operand is read.
fn readings_of(
    alloc: Global,
    operands: &[Structure],
    structure: &Structure,
) -> Result<Items<Reading>, AllocError>
    ensures { IfOk result (λ readings. readings ≡ readings_of operands.now structure.now) }
{
    let mut readings = Vec::new(alloc);
    for operand in operands {
        readings.push(Reading::between(alloc, operand, structure)?)?;
    }
    Ok(Items::from_vec(readings))
}

/// The set operation that an operator is.
fn operation_of(operator: &DataSetOperator) -> SetOperation
    requires { IsSet operator.now }
    ensures { operator.now ≡ Set result }
{
    match operator {
        DataSetOperator::Set(operation) => *operation,
        _ => unreachable!(),
    }
}

impl SetRule {
    /// The rule of a node's operator, which is a set operator.
    pub fn of(alloc: Global, node: &DataSetNode) -> Result<SetRule, AllocError>
        requires typed { IsTyped (an_operator node.now.operator node.now.operands node.now.structure) }
        requires set { IsSet node.now.operator }
        ensures { IfOk result (λ rule. rule ≡ an_operator node.now.operator node.now.operands node.now.structure) }
    {
        let operands = node.operands.as_slice();
        Ok(SetRule {
            operator: node.operator.copy()?,
            operands: copy_all(alloc, operands)?,
            structure: node.structure.copy()?,
            readings: readings_of(alloc, operands, &node.structure)?,
            wants: all_whole(alloc, operands.len())?,
        })
    }

    /// The operation of the operator, which is a set operator, and well typed.
    fn operation(&self) -> SetOperation
        ensures typed { IsTyped self.now }
        ensures operation { self.now.operator ≡ Set result }
    {
        operation_of(self.operator.get())
    }

    /// How the operands are read.
    fn readings(&self) -> &[Reading]
        ensures { result.now ≡ readings_of self.now.operands self.now.structure }
    {
        self.readings.as_slice()
    }
}

impl DeltaRule for SetRule {
    ghost use Rattle.std.specs.Prelude.{length};
    ghost use Rattle.operator_meaning.specs.Operators.{meaning_of, AreOperands};
    ghost use Rattle.set_ops.specs.Reach.{set_reach, no_reach};
    ghost use Rattle.set_ops.specs.Rules.{wanted_of};

    ghost arity = { λ r. length r.operands };

    ghost admits = { λ r. AreOperands r.operands };

    ghost meaning = { meaning_of };

    ghost wanted = { wanted_of };

    ghost structure = { λ r. r.structure };

    ghost reach = { λ r held news. set_reach (length r.operands) news };

    ghost rests = { λ r held news. no_reach (length r.operands) news };

    fn wants(&self) -> &[Want] {
        self.wants.as_slice()
    }

    fn result(&self) -> &Structure {
        &self.structure
    }

    fn delta<R: Threads + Sync, L: Ledger>(
        &self,
        _rt: &R,
        alloc: Global,
        before: u64,
        held: &[Held],
        news: &[Arc<Delta>],
        steps: &mut Steps<L>,
    ) -> Result<Delta, Stop> {
        let operation = self.operation();
        let readings = self.readings();
        let draft = noted(alloc, operation, readings, held, news, steps)?;
        draft.finish(alloc, before)
    }
}
