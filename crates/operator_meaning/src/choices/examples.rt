// Some conditionals on small data sets.
ghost use Rattle.std.specs.Prelude.{◌≡◌, [], ◌∷◌, codes};
ghost use Rattle.std.specs.FinMap.{from_entries};
ghost use Rattle.vtl_values.specs.declared.value.Value.TheVariants.{Null, Text};
ghost use Rattle.data_model.specs.Outcomes.{made, range_at};
ghost use Rattle.operator_meaning.specs.pairs.Examples.{north, south, count, sold, back};
ghost use Rattle.operator_meaning.specs.choices.Choices.{choice_meaning};
ghost use Rattle.operator_meaning.specs.choices.Examples.{asked, known_or_sold, known_or, zero_written, too_much};

/// Identifiers are matched by name, in whatever order they stand. Where the condition is null the second branch is
/// chosen; a branch that is chosen and has no point there gives none. Of the values of a viral attribute in the condition
/// and in the branch the higher one is taken.
pub fn points_are_chosen()
    ensures { choice_meaning known_or_sold (asked ∷ back ∷ sold ∷ []) ≡
        made (from_entries (
        (north ∷ count 1 ∷ [], count 7 ∷ Text (codes "p") ∷ []) ∷
        (south ∷ count 2 ∷ [], Null ∷ Text (codes "e") ∷ []) ∷ [])) }
{}

/// A scalar stands at each key at which it is chosen, and has the condition's viral attributes.
pub fn a_scalar_stands_at_each_key()
    ensures { choice_meaning (known_or zero_written) (asked ∷ back ∷ []) ≡
        made (from_entries (
        (north ∷ count 1 ∷ [], count 7 ∷ Text (codes "p") ∷ []) ∷
        (north ∷ count 3 ∷ [], count 0 ∷ Null ∷ []) ∷
        (south ∷ count 2 ∷ [], count 0 ∷ Text (codes "e") ∷ []) ∷ [])) }
{}

/// A branch is worked out only where it is chosen.
pub fn a_branch_is_out_of_range()
    ensures { choice_meaning (known_or too_much) (asked ∷ back ∷ []) ≡ range_at (north ∷ count 3 ∷ []) }
{}
