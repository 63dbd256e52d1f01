// Verdicts on revisions, and the faults of scripts.

use revision_judge::Refusal;
use transform_nodes::NodeFault;
use vtl_values::Word;

/// A revision was accepted, and this is its receipt, from 1; or it was refused, and this is the name of the refused part's
/// data set, how many parts the revision has, and why.
#[derive(Debug, Drop)]
pub enum Verdict {
    Accepted(u64),
    Refused {
        set: Word,
        parts: u64,
        refusal: Refusal,
    },
}

/// Why a script has no meaning: the fault of its first statement that has one, or the number of points of all
/// operators' results, which is above 6,000,000.
#[derive(Debug, Drop)]
pub enum ScriptFault {
    At { statement: u64, fault: NodeFault },
    Total(u64),
}
