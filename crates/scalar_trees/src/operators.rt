// The operators that are rows of the tables of kinds.

/// Operators of one operand.
#[derive(Clone, Copy, Debug, PartialEq, Eq)]
pub enum UnaryOperator {
    Plus,
    Minus,
    Not,
    Abs,
    Ceil,
    Floor,
    Trim,
    Ltrim,
    Rtrim,
    Upper,
    Lower,
    Length,
    Isnull,
}

/// Operators of two operands, both of which are evaluated.
#[derive(Clone, Copy, Debug, PartialEq, Eq)]
pub enum BinaryOperator {
    Plus,
    Minus,
    Times,
    Over,
    Mod,
    Join,
    Instr,
    And,
    Or,
    Xor,
    Equal,
    NotEqual,
    Less,
    Greater,
    AtMost,
    AtLeast,
}
