// What a statement comes to.
use data_set_trees::checked::CheckedStatement;
use scalar_trees::typing::Refusal;
use sqlite_items::Boxed;
use vtl_syntax::Statement;

/// What a statement has come to.
#[derive(Drop)]
pub(crate) enum State {
    /// it is as it was written: it had no turn yet, or it uses the result of a statement that has no data set
    Waits(Boxed<Statement>),
    /// it is typed, and its result is a data set
    Has(CheckedStatement),
    /// this is its fault
    Fails(Refusal),
}
