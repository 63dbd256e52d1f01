// The rule of a clause on one data set.
ghost use Rattle.std.specs.Prelude.{◌≡◌, ◌∷◌, [], Some, IfOk};
ghost use Rattle.vtl_values.specs.declared.structure.Component.{Component};
ghost use Rattle.data_set_trees.specs.checked.Operators.{an_operator, IsTyped};
ghost use Rattle.clause_ops.specs.Rules.{clause_in, IsClause};

use crate::notes::noted;
use clause_eval::picks;
use data_model::steps::Steps;
use data_set_trees::clauses::CheckedClause;
use data_set_trees::{DataSetNode, DataSetOperator, SharedOperator};
use held_index::{DeltaRule, Held, Stop, Want};
use point_sets::Delta;
use scalar_eval::Matchers;
use sqlite_items::Items;
use std::alloc::{AllocError, Global};
use std::marker::Model;
use std::sync::Arc;
use std::sync::ledger::Ledger;
use std::thread::Threads;
use vtl_values::Structure;

/// The rule of a clause on a data set, also of one in a join. It keeps the numbers of the values that the clause takes
/// over.
#[derive(Drop)]
pub struct ClauseRule {
    operator: SharedOperator,
    operand: Structure,
    structure: Structure,
    picks: Items<u64>,
}

impl Model for ClauseRule {
    ghost use Rattle.data_set_trees.specs.checked.Operators.{operator_coded, Operator};
    ghost use Rattle.clause_ops.specs.Rules.{on_one, IsRule};

    ghost Value = { Operator };

    ghost coded = { operator_coded };

    ghost view = { λ r. on_one r.operator r.operand r.structure };

    ghost invariant = { λ r. IsRule r.operator r.operand r.structure r.picks };
}

/// The clause that an operator is, on a data set or in a join.
fn clause_of(operator: &DataSetOperator) -> &CheckedClause
    requires { IsClause operator.now }
    ensures { clause_in operator.now ≡ Some result.now }
{
    match operator {
        DataSetOperator::Clause(clause) | DataSetOperator::InJoin(clause) => clause,
        _ => unreachable!(),
    }
}

/// The one operand of a clause.
fn operand_of(node: &DataSetNode) -> &Structure
    requires typed { IsTyped (an_operator node.now.operator node.now.operands node.now.structure) }
    requires clause { IsClause node.now.operator }
    ensures { node.now.operands ≡ result.now ∷ [] }
{
    &node.operands.as_slice()[0]
}

impl ClauseRule {
    /// The rule of a node's operator, which is a clause.
    pub fn of(alloc: Global, node: &DataSetNode) -> Result<ClauseRule, AllocError>
        requires typed { IsTyped (an_operator node.now.operator node.now.operands node.now.structure) }
        requires clause { IsClause node.now.operator }
        ensures { IfOk result (λ rule. rule ≡ an_operator node.now.operator node.now.operands node.now.structure) }
    {
        let operand = operand_of(node);
        let picks = picks(alloc, clause_of(node.operator.get()), operand.components())?;
        Ok(ClauseRule {
            operator: node.operator.copy()?,
            operand: operand.copy()?,
            structure: node.structure.copy()?,
            picks,
        })
    }
}

impl DeltaRule for ClauseRule {
    ghost use Rattle.std.specs.Prelude.{length, refl};
    ghost use Rattle.operator_meaning.specs.Operators.{meaning_of, AreOperands};

    ghost arity = { λ r. length r.operands };

    ghost admits = { λ r. AreOperands r.operands };

    ghost meaning = { meaning_of };

    ghost wanted = { λ _. [] };

    ghost structure = { λ r. r.structure };

    ghost reach = { λ _ held news. 0 };

    ghost rests = { λ rule held news nothing. refl };

    fn wants(&self) -> &[Want] {
        &[]
    }

    fn result(&self) -> &Structure {
        &self.structure
    }

    fn delta<R: Threads + Sync, L: Ledger>(
        &self,
        _rt: &R,
        alloc: Global,
        before: u64,
        _held: &[Held],
        news: &[Arc<Delta>],
        _steps: &mut Steps<L>,
    ) -> Result<Delta, Stop> {
        let clause = clause_of(self.operator.get());
        let (components, picks) = (self.operand.components(), self.picks.as_slice());
        let mut matchers = Matchers::new(alloc);
        noted(alloc, clause, components, picks, &news[0], &mut matchers)?.finish(alloc, before)
    }
}
