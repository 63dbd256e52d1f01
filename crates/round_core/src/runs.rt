// A change that is kept in parts.
ghost use Rattle.std.specs.Prelude.{◌≡◌, ◌++◌, ◌∷◌, [], ◌≤◌, IfOk, length, map, take};
ghost use Rattle.std.specs.Arc.{arc_value};
ghost use Rattle.std.specs.FinMap as finmap;
ghost use Rattle.data_model.specs.Deltas.{Leads};
ghost use Rattle.point_sets.specs.DataSets.{DataSet};
ghost use Rattle.round_core.specs.Inputs.{LeadsThrough, LeadAlike, changes_in};

use point_sets::{Delta, compose};
use std::alloc::{AllocError, Global};
use std::sync::Arc;

/// A change in parts that come one after the other, the newest last. Each is at least twice as long as the next one, so
/// there are few of them. They are shared with what comes of the change next.
#[derive(Drop)]
pub struct Runs {
    pub runs: Vec<Arc<Delta>>,
}

impl Runs {
    /// No change.
    pub fn new(alloc: Global) -> Runs
        ensures { result.runs.items ≡ [] }
    {
        Runs {
            runs: Vec::new(alloc),
        }
    }

    /// The change once this one comes next.
    pub fn and(&self, delta: Delta) -> Result<Runs, AllocError>
        ensures { IfOk result (λ next. LeadAlike (changes_in self.now ++ delta ∷ []) (changes_in next)) }
    {
        let alloc = *self.runs.allocator();
        let (kept, last) = self.merged(delta)?;
        let mut runs = self.first(kept)?;
        runs.push(Arc::new(alloc, last)?)?;
        Ok(Runs { runs })
    }

    /// The first parts, so many of them.
    fn first(&self, kept: usize) -> Result<Vec<Arc<Delta>>, AllocError>
        requires { kept ≤ length self.now.runs.items }
        ensures { IfOk result (λ runs. map arc_value runs.items ≡ take kept (changes_in self.now)) }
    {
        let mut runs = Vec::new(*self.runs.allocator());
        let first = &self.runs[..kept];
        for run in first {
            runs.push(run.clone()?)?;
        }
        Ok(runs)
    }

    /// The last part once this change is added, and how many of the others stay before it.
    fn merged(&self, delta: Delta) -> Result<(usize, Delta), AllocError>
        ensures kept { IfOk result (λ m. m.0 ≤ length self.now.runs.items) }
        ensures alike { IfOk result (λ m. LeadAlike (changes_in self.now ++ delta ∷ []) (take m.0 (changes_in self.now) ++ m.1 ∷ [])) }
    {
        let alloc = *self.runs.allocator();
        let mut last = delta;
        let mut kept = self.runs.len();
        while kept > 0 && is_near(&self.runs[kept - 1], &last) {
            kept -= 1;
            last = compose(alloc, &self.runs[kept], &last)?;
        }
        Ok((kept, last))
    }

    /// The whole change.
    pub fn whole(&self) -> Result<Delta, AllocError>
        ensures { IfOk result (λ whole. (x y : DataSet) → LeadsThrough (changes_in self.now) x y → Leads whole x y) }
    {
        let alloc = *self.runs.allocator();
        let mut whole = nothing(alloc);
        let mut left = self.runs.len();
        while left > 0 {
            left -= 1;
            whole = compose(alloc, &self.runs[left], &whole)?;
        }
        Ok(whole)
    }
}

/// Whether a part is less than about twice as long as the next one.
fn is_near(run: &Delta, next: &Delta) -> bool {
    run.changes().len() / 2 <= next.changes().len()
}

/// The change that changes nothing.
pub fn nothing(alloc: Global) -> Delta
    ensures { result ≡ finmap.empty }
{
    Delta::of(Vec::new(alloc))
}
