// What every production keeps.
ghost use Rattle.std.specs.Prelude.{◌≡◌, ◌≤◌, ◌+◌, None, length};
ghost use Rattle.operator_meaning.specs.Scripts.{script_wrong};
ghost use Rattle.round_journal.specs.Journals.{Legal, number, aside, inputs};
ghost use Rattle.round_journal.specs.Releases.{pages_on};
ghost use Rattle.round_core.specs.Seen.{state_in};

use crate::production::Production;
use release_text::Release;

/// Whatever calls made a production: its journal is legal and, with what is set aside, within its limits; and its
/// latest release is what the release's script means on the inputs after the release's prefix, on which that script is
/// in bounds.
pub fn every_production_stands(production: &Production) -> &Release
    ensures legal { Legal production.now.script production.now.journal }
    ensures fits { length production.now.journal + aside (state_in production.now) ≤ production.now.limits.entries }
    ensures number { result.now.number ≡ number (state_in production.now) }
    ensures script { result.now.script ≡ (state_in production.now).latest.script.number }
    ensures pages { result.now.pages ≡ pages_on (state_in production.now).latest.script.script (inputs result.now.prefix (state_in production.now)) }
    ensures in_bounds { script_wrong (state_in production.now).latest.script.script (inputs result.now.prefix (state_in production.now)) ≡ None }
{
    // Its clauses say that the journal is legal and within its limits.
    let _ = production.journal();
    production.latest()
}
