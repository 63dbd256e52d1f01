// How the points of an inner join meet.
ghost use Rattle.std.specs.Prelude.{◌≡◌, ◌<◌, ◌-◌, length, IfOk};
ghost use Rattle.vtl_syntax.specs.declared.words.JoinFunction.TheVariants.{Inner};
ghost use Rattle.operator_meaning.specs.joins.Joins.{join_on};
ghost use Rattle.operator_meaning.specs.joins.Typed.{IsTypedJoinOn};
ghost use Rattle.inner_joins.specs.Rules as rules;
ghost use Rattle.inner_joins.specs.Rules.{main_number, IsInnerOn};

use join_eval::JoinPlan;
use point_sets::Key;
use std::alloc::{AllocError, Global};
use std::marker::Model;
use vtl_syntax::words::JoinFunction;
use vtl_values::Structure;

/// How the points of the operands of an inner join meet, and which operand is the main one. Contracts see the join.
#[derive(Drop)]
pub struct InnerPlan {
    join: JoinPlan,
    main: usize,
}

impl Model for InnerPlan {
    ghost use Rattle.operator_meaning.specs.joins.Joins.{JoinOn};
    ghost use Rattle.join_eval.specs.Plans.{join_coded};
    ghost use Rattle.inner_joins.specs.Rules.{IsInnerPlan};

    ghost Value = { JoinOn };

    ghost coded = { join_coded };

    ghost view = { λ p. p.join };

    ghost invariant = { λ p. IsInnerPlan p.join p.main };
}

/// The number of the first operand that has all identifiers, or how many operands there are.
fn first_whole(join: &JoinPlan) -> usize
    ensures { result ≡ main_number join.now }
{
    let count = join.operands().len();
    for operand in 0..count {
        if join.is_whole(operand) {
            return operand;
        }
    }
    count
}

impl InnerPlan {
    /// The plan of an inner join of data sets of these structures, which it takes.
    pub fn of(
        alloc: Global,
        operands: &[Structure],
        structure: &Structure,
    ) -> Result<InnerPlan, AllocError>
        requires { IsTypedJoinOn (join_on Inner operands.now structure.now) }
        ensures { IfOk result (λ plan. plan ≡ join_on Inner operands.now structure.now) }
    {
        let join = JoinPlan::of(alloc, JoinFunction::Inner, operands, structure)?;
        let main = first_whole(&join);
        Ok(InnerPlan { join, main })
    }

    /// How the points meet.
    pub fn join(&self) -> &JoinPlan
        ensures join { result.now ≡ self.now }
        ensures inner { IsInnerOn self.now }
    {
        &self.join
    }

    /// The number of the main operand.
    pub fn main(&self) -> usize
        ensures number { result ≡ main_number self.now }
        ensures within { result < length self.now.operands }
        ensures inner { IsInnerOn self.now }
    {
        self.main
    }

    /// The key of the join that one of the main operand comes to.
    pub fn key_from(&self, alloc: Global, own: &Key) -> Result<Key, AllocError>
        ensures key { IfOk result (λ key. key ≡ rules.key_from self.now own.now) }
        ensures inner { IsInnerOn self.now }
    {
        self.join.join_key(alloc, self.main, own)
    }

    /// How many others there are.
    pub fn others(&self) -> usize
        ensures { result ≡ length self.now.operands - 1 }
    {
        self.join.operands().len() - 1
    }
}
