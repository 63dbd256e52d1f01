// Some pairs on small data sets.
ghost use Rattle.std.specs.Prelude.{◌≡◌, [], ◌∷◌, codes};
ghost use Rattle.std.specs.FinMap.{from_entries};
ghost use Rattle.vtl_values.specs.declared.value.Value.TheVariants.{Null, Text};
ghost use Rattle.data_model.specs.Outcomes.{made, range_at};
ghost use Rattle.operator_meaning.specs.pairs.Examples.{north, south, count, sold, back, price, together, worth};
ghost use Rattle.operator_meaning.specs.pairs.Pairs.{pair_meaning};

/// Identifiers are matched by name, in whatever order they stand. A point without a partner gives none, a sum with null
/// is null, and of two values of a viral attribute the higher one is taken.
pub fn points_meet()
    ensures { pair_meaning together sold back ≡
        made (from_entries (
        (north ∷ count 1 ∷ [], count 12 ∷ Text (codes "p") ∷ []) ∷
        (south ∷ count 2 ∷ [], Null ∷ Text (codes "e") ∷ []) ∷ [])) }
{}

/// Where the second operand has more identifiers, each of its points meets the one of the first with its area; the
/// result has the area first. A viral attribute of one operand is handed on.
pub fn the_second_is_the_main_one()
    ensures { pair_meaning worth (price 2) back ≡
        made (from_entries (
        (north ∷ count 1 ∷ [], count 14 ∷ Text (codes "p") ∷ []) ∷
        (north ∷ count 3 ∷ [], count 4 ∷ Null ∷ []) ∷ [])) }
{}

/// Where a measure is out of range the pair is so, at the key of the result.
pub fn a_measure_is_out_of_range()
    ensures { pair_meaning worth (price 900000000000000) back ≡ range_at (north ∷ count 1 ∷ []) }
{}
