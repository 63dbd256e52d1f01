// What names are of.

/// What a name stands for.
#[derive(Clone, Copy, Debug, PartialEq, Eq)]
pub enum NameSort {
    /// a data set: an input, or a statement's result
    DataSet,
    /// a datapoint ruleset
    Datapoint,
    /// a hierarchical ruleset
    Hierarchy,
}
