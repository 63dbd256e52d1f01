// What follows from the definitions, for those who build on them.
ghost use Rattle.held_index.specs.Holdings.{FitsStructure};
ghost use Rattle.operator_meaning.specs.exists.Exists.{ExistsOn};
ghost use Rattle.exists_ops.specs.Parts.{left_want, right_want};

/// What is wanted of an operand names components of its structure.
pub fn wants_fit()
    ensures left { (e : ExistsOn) → FitsStructure (left_want e) e.left }
    ensures right { (e : ExistsOn) → FitsStructure (right_want e) e.right }
{}
