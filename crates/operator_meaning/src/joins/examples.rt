// The four joins on small data sets.
ghost use Rattle.std.specs.Prelude.{◌≡◌, [], ◌∷◌};
ghost use Rattle.std.specs.FinMap.{empty, from_entries};
ghost use Rattle.vtl_values.specs.declared.value.Value.TheVariants.{Null};
ghost use Rattle.vtl_syntax.specs.declared.words.JoinFunction.TheVariants.{Inner, Left, Full, Cross};
ghost use Rattle.data_model.specs.Outcomes.{made};
ghost use Rattle.operator_meaning.specs.joins.Examples.{north, south, west, final, provisional, count, counted, built, priced, with_homes, with_prices};
ghost use Rattle.operator_meaning.specs.joins.Joins.{join_meaning};

/// The price of an area in a year meets the people of the area; what has no point in the other operand gives none.
pub fn points_of_all()
    ensures { join_meaning (with_prices Inner) (counted ∷ priced ∷ []) ≡
        made (from_entries ((north ∷ count 1 ∷ [], count 5 ∷ count 9 ∷ final ∷ []) ∷ [])) }
{}

/// Each area of the first operand, and null homes where there are none. The status is the higher one of both.
pub fn points_of_the_first()
    ensures { join_meaning (with_homes Left) (counted ∷ built ∷ []) ≡
        made (from_entries (
        (north ∷ [], count 5 ∷ count 2 ∷ provisional ∷ []) ∷
        (south ∷ [], count 3 ∷ Null ∷ final ∷ []) ∷ [])) }
{}

/// Where the second operand is empty each point of the first one is padded.
pub fn all_points_are_padded()
    ensures { join_meaning (with_homes Left) (counted ∷ empty ∷ []) ≡
        made (from_entries (
        (north ∷ [], count 5 ∷ Null ∷ final ∷ []) ∷
        (south ∷ [], count 3 ∷ Null ∷ final ∷ []) ∷ [])) }
{}

/// Each area of any operand, and nulls for what it hasn't.
pub fn points_of_any()
    ensures { join_meaning (with_homes Full) (counted ∷ built ∷ []) ≡
        made (from_entries (
        (north ∷ [], count 5 ∷ count 2 ∷ provisional ∷ []) ∷
        (south ∷ [], count 3 ∷ Null ∷ final ∷ []) ∷
        (west ∷ [], Null ∷ count 4 ∷ Null ∷ []) ∷ [])) }
{}

/// Each area with each price.
pub fn all_combinations()
    ensures { join_meaning (with_prices Cross) (counted ∷ priced ∷ []) ≡
        made (from_entries (
        (north ∷ count 1 ∷ north ∷ [], count 5 ∷ count 9 ∷ final ∷ []) ∷
        (north ∷ count 2 ∷ west ∷ [], count 5 ∷ count 8 ∷ final ∷ []) ∷
        (south ∷ count 1 ∷ north ∷ [], count 3 ∷ count 9 ∷ final ∷ []) ∷
        (south ∷ count 2 ∷ west ∷ [], count 3 ∷ count 8 ∷ final ∷ []) ∷ [])) }
{}
