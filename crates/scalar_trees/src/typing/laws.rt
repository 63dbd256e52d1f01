// What holds of all expressions.
ghost use Rattle.scalar_trees.specs.typing.Laws.{IsAsWritten, HasNoTree, HasOneKind};

/// What is checked is the expression as it is written, apart from what typing put in.
pub fn checked_as_written()
    ensures { IsAsWritten }
{}

/// A fault is told only where no well typed tree is the expression as it is written.
pub fn refused_has_no_tree()
    ensures { HasNoTree }
{}

/// A well typed tree has one kind, the literal null aside, which has all.
pub fn tree_has_one_kind()
    ensures { HasOneKind }
{}
