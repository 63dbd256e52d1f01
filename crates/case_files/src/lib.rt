//! Files of cases, which the programs of cases answer. What stands first in a file says which rule decides. Of what is
//! written no clause speaks: a person compares it with the rule.
//!
//! - `lines`: cases of a line each. A line is a JSON array: the name of a call, and what it is given. It is written as it
//!   stands, with the answer after it.
//! - `sections`: for what has lines of its own, as scripts and feeds have. A line `==== TITLE` begins a section; its body
//!   are the lines up to the next one. Where the title ends with `, open`, the last line of the body has no line end. A
//!   line `*N TEXT` stands for a line that is N times TEXT.
#![tactic(auto)]

pub mod lines;
pub mod sections;
