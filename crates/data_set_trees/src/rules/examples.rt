// Uses of rulesets on small data sets.
ghost use Rattle.std.specs.Prelude.{[], ◌∷◌, codes, Some, None};
ghost use Rattle.vtl_values.specs.declared.kind.Kind.TheVariants.{Integer, Number, Text, Truth};
ghost use Rattle.vtl_values.specs.declared.kind.Role.TheVariants.{Identifier, Measure};
ghost use Rattle.vtl_syntax.specs.declared.words.RowsOutput.TheVariants.{All, AllMeasures, Invalid};
ghost use Rattle.scalar_trees.specs.declared.typing.stop.Fault.TheVariants.{NameTwice, UnknownComponent, WrongRole, WrongStructure, WrongType};
ghost use Rattle.data_set_trees.specs.clauses.After.{made};
ghost use Rattle.data_set_trees.specs.rules.Examples.{amount, area, by_area, checked, code, computed, computed_by, has_fault, level, points, points_of, ruled, rows_are, status, texts, truth, two};

/// Rows have the identifiers and the rule's name; the amount where it is asked for; and what is told of a broken rule.
pub fn rows_of_points()
    ensures invalid { rows_are (points_of None) (area ∷ ruled ∷ amount ∷ code ∷ level ∷ status ∷ []) }
    ensures all { rows_are (points_of (Some All)) (area ∷ ruled ∷ truth ∷ code ∷ level ∷ status ∷ []) }
    ensures both { rows_are (points_of (Some AllMeasures)) (area ∷ ruled ∷ amount ∷ truth ∷ code ∷ level ∷ status ∷ []) }
{}

/// A variable is a component. A measure that is kept may not be called as what is told.
pub fn points_are_refused()
    ensures unknown { has_fault (points (codes "Zz") None by_area) UnknownComponent }
    ensures name { has_fault (points (codes "errorcode") None (area ∷ made Measure Text (codes "errorcode") ∷ [])) NameTwice }
{}

/// A hierarchy has the components of its operand but its note, and its rows an imbalance of the amount's kind.
pub fn hierarchies_are_worked_out()
    ensures computed { rows_are computed (area ∷ amount ∷ status ∷ []) }
    ensures invalid { rows_are (checked Invalid) (area ∷ ruled ∷ amount ∷ made Measure Number (codes "imbalance") ∷ code ∷ level ∷ status ∷ []) }
    ensures all { rows_are (checked All) (area ∷ ruled ∷ truth ∷ made Measure Number (codes "imbalance") ∷ code ∷ level ∷ status ∷ []) }
{}

/// The rule component is a string identifier, and there is one measure, a number or an integer. A condition doesn't go by
/// the rule component.
pub fn hierarchies_are_refused()
    ensures unknown { has_fault (computed_by (codes "Zz") [] by_area) UnknownComponent }
    ensures role { has_fault (computed_by (codes "St") [] by_area) WrongRole }
    ensures condition { has_fault (computed_by (codes "Area") (codes "Area" ∷ []) by_area) WrongRole }
    ensures text { has_fault (computed_by (codes "Area") [] texts) WrongType }
    ensures measures { has_fault (computed_by (codes "Area") [] two) WrongStructure }
{}
