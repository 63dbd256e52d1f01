// `exists_in` on small data sets.
ghost use Rattle.std.specs.Prelude.{◌≡◌, [], ◌∷◌, true, false, codes};
ghost use Rattle.std.specs.FinMap.{from_entries};
ghost use Rattle.vtl_values.specs.declared.value.Value.TheVariants.{Null, Truth, Text};
ghost use Rattle.data_model.specs.Outcomes.{made};
ghost use Rattle.operator_meaning.specs.pairs.Examples.{north, south, count, sold, back, price};
ghost use Rattle.operator_meaning.specs.exists.Examples.{priced, unsold};
ghost use Rattle.operator_meaning.specs.exists.Exists.{exists_meaning};

/// Points agree on the identifiers that both operands have, here on the area. All points stay with their viral
/// attributes, and the measure is gone.
pub fn areas_have_prices()
    ensures { exists_meaning priced back (price 2) ≡
        made (from_entries (
        (count 1 ∷ north ∷ [], Truth true ∷ Text (codes "p") ∷ []) ∷
        (count 2 ∷ south ∷ [], Truth false ∷ Text (codes "e") ∷ []) ∷
        (count 3 ∷ north ∷ [], Truth true ∷ Null ∷ []) ∷ [])) }
{}

/// Identifiers are matched by name, in whatever order they stand; of `false` the points that nothing agrees with stay.
pub fn nothing_was_sold()
    ensures { exists_meaning unsold back sold ≡
        made (from_entries ((count 3 ∷ north ∷ [], Truth false ∷ Null ∷ []) ∷ [])) }
{}
