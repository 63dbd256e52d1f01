// Measures by their numbers.
use vtl_values::{Kind, Word};

/// A measure of a data set, with its number among the components.
#[derive(Debug, Drop)]
pub struct Measure {
    pub number: u64,
    pub name: Word,
    pub kind: Kind,
}
