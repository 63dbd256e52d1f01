// The trait of delta rules.
ghost use Rattle.std.specs.Prelude.{◌≡◌, ◌+◌, ◌≤◌, ℕ, List, map, length};
ghost use Rattle.std.specs.Arc.{arc_value};
ghost use Rattle.vtl_values.specs.declared.structure.Component.{Component};
ghost use Rattle.point_sets.specs.Changes.{Changes};
ghost use Rattle.point_sets.specs.DataSets.{DataSet};
ghost use Rattle.held_index.specs.Holdings.{Holding};
ghost use Rattle.held_index.specs.Reach.{changes_in};
ghost use Rattle.held_index.specs.Rules.{SetOutcome, IsRightAnswer};
ghost use Rattle.held_index.specs.declared.want.Want.{Want as WantedOperand};
ghost use denote.Param.Send.{IsSync};

use crate::held::Held;
use crate::stop::Stop;
use crate::want::Want;
use data_model::POINT_LIMIT;
use data_model::steps::Steps;
use point_sets::Delta;
use std::alloc::Global;
use std::sync::Arc;
use std::sync::ledger::Ledger;
use std::thread::Threads;
use vtl_values::Structure;

/// An operator that makes the change of its result from the changes of its operands and what it holds of them.
pub trait DeltaRule {
    /// How many operands it has.
    ghost arity: { Self → ℕ };

    /// Which operands it is for: data sets of the structures that its operands have.
    ghost admits: { Self → List DataSet → Type 0 };

    /// What it gives on its operands.
    ghost meaning: { Self → List DataSet → SetOutcome };

    /// What it wants held.
    ghost wanted: { Self → List WantedOperand };

    /// The structure of its result.
    ghost structure: { Self → List Component };

    /// How many steps it takes at most, for what is held and the news of all operands.
    ghost reach: { Self → List Holding → List Changes → ℕ };

    fn wants(&self) -> &[Want]
        ensures { result.now ≡ wanted self.now };

    fn result(&self) -> &Structure
        ensures { result.now ≡ structure self.now };

    /// The delta of the result, where it had so many points before. `held` are in the order of the wants, and `news`
    /// in that of the operands. The rule may want memory, whatever the right answer is. Whatever it answers, it takes
    /// no more steps than its reach.
    fn delta<R: Threads + Sync, L: Ledger>(
        &self,
        rt: &R,
        alloc: Global,
        before: u64,
        held: &[Held],
        news: &[Arc<Delta>],
        steps: &mut Steps<L>,
    ) -> Result<Delta, Stop>
        requires sync { IsSync R.row }
        requires held { map (λ h. h.want) held.now ≡ wanted self.now }
        requires news { length news.now ≡ arity self.now }
        requires few { before ≤ POINT_LIMIT }
        ensures answer { IsRightAnswer (admits self.now) (meaning self.now) (wanted self.now) held.now
            (map arc_value news.now) before result }
        ensures steps { steps.new ≤ steps.old + reach self.now held.now (map arc_value news.now) };

    /// Without a change it takes no step.
    ghost rests: { (rule : Self) (held : List Holding) (news : List Changes) → changes_in news ≡ 0 → reach rule held news ≡ 0 };
}
