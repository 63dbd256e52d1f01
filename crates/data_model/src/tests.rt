// What no clause says: that a caller can make a counter, and that the laws can be met.
ghost use Rattle.std.specs.Prelude.{◌≡◌, ◌+◌, ◌<◌};

use crate::laws;
use crate::steps::Steps;
use std::marker::Brand;
use std::sync::ledger::{Blank, Ledger};

fn two_steps<L: Ledger>(steps: &mut Steps<L>)
    ensures { steps.new ≡ steps.old + 2 }
{
    steps.tick();
    steps.tick();
}

fn walk<L: Ledger>(blank: Blank)
    requires name { blank.name ≡ L.name }
    requires parts { (blank.parts ≡ L.parts) × (0 < L.parts) }
{
    let mut steps = Steps::<L>::new(blank);
    two_steps(&mut steps);
}

#[test]
fn a_caller_makes_its_own_counter(_rt: HostRuntime) {
    walk::<Brand>(Blank::new(1));
}

#[test]
fn laws_hold_over_numbers(_rt: HostRuntime) {
    laws::values_at_a_key::<u64, u8, bool>();
    laws::right_delta_exists::<u64, u8>();
    laws::right_delta_is_unique::<u64, u8>();
    laws::delta_applies::<u64, u8>();
    laws::deltas_compose::<u64, u8>();
    laws::untouched_part_stays::<u64, u8>();
    laws::outcome_is_unique::<u64, u8>();
    laws::right_answer_is_unique::<u64, u8>();
    laws::notes_make_a_draft::<u64, u8>();
    laws::finished_draft_is_right::<u64, u8>();
}
