// Laws of combining, each the clause of a function with an empty body.
ghost use Rattle.std.specs.Prelude.{ℕ, List};
ghost use Rattle.vtl_values.specs.declared.value.Value.{Value};
ghost use Rattle.viral_attributes.specs.Combination.{combined, IsTheHighest, CombinesInParts};

/// The value to which several combine is null or one of them, and none of them has a higher rank.
pub fn combined_is_highest()
    ensures { (codes : List (List ℕ)) (values : List Value) → IsTheHighest codes values (combined codes values) }
{}

/// Values combine to the same whether all at once or part by part.
pub fn combines_in_parts()
    ensures { (codes : List (List ℕ)) → CombinesInParts codes }
{}
