// What can be wrong with the defined operators of a script.

use sqlite_items::Items;
use vtl_values::{Place, Word};

/// A fault of defined operators.
#[derive(Drop)]
pub enum OperatorFault {
    /// an operator of that name is defined before
    DefinedTwice(Word),
    /// the operator has a parameter of that name before
    ParameterTwice(Word),
    /// a call names no operator
    UnknownOperator(Word),
    /// a call has another number of arguments than the operator parameters
    ArgumentCount,
    /// a name in a body stands as a data set and is no parameter
    FreeName(Word),
    /// an operator's body reaches its own call, by way of these
    Recursion(Items<Word>),
    /// an argument of a scalar sort has a name in it, in a call of an operator of data sets
    ArgumentSort,
    /// the script that is written out has too many levels
    WrittenTooDeep,
    /// the script that is written out has too many expressions
    WrittenTooMany,
}

/// A fault and where it stands.
#[derive(Drop)]
pub struct PlacedFault {
    pub fault: OperatorFault,
    pub place: Place,
}
