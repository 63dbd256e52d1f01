// What a component holds, and what it is in a data set.

/// The basic type of a component.
#[derive(Clone, Copy, Debug, PartialEq, Eq)]
pub enum Kind {
    Integer,
    Number,
    Text,
    Truth,
}

/// What a component is in a data set. A viral attribute is handed on by every operator.
#[derive(Clone, Copy, Debug, PartialEq, Eq)]
pub enum Role {
    Identifier,
    Measure,
    Attribute,
    Viral,
}
