//! The core: a production takes revisions, hands out works in rounds, and makes releases.
//!
//! It stands on the journals of `round_journal`, on the works of `transform_nodes`, on the judge of `revision_judge`
//! and on the pages of `release_text`. Callers see a production as its first script, its limits and its journal. Whatever
//! calls come in whatever order from whatever callers, the journal is legal, and each of the last 64 releases is the
//! meaning of its own script on the inputs after its prefix: both are kept by the type. The script may be replaced at any
//! time; an open round goes on with its own. Each call says which entries it adds; a refusal says its cause, and leaves
//! the production as it was. `claim` and `give` take no memory: `judge_one` and `open_round` set aside what they need.
#![tactic(auto)]

mod counts;
mod ends;
mod inputs;
pub mod law;
pub mod limits;
mod machine;
mod moves;
pub mod production;
mod runs;
mod slot;
pub mod stops;

pub use law::every_production_stands;
pub use limits::{ENTRY_LIMIT, FIELD_LIMIT, Full, Limits, SCRIPT_LIMIT};
pub use production::Production;
pub use round_journal::{NodeFault, ScriptFault, Verdict};
pub use stops::{ClaimStop, Given, NoRelease, OpenStop, RescriptStop, SubmitStop};
