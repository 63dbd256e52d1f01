// The set operators on small data sets.
ghost use Rattle.std.specs.Prelude.{◌≡◌, [], ◌∷◌};
ghost use Rattle.std.specs.FinMap.{from_entries};
ghost use Rattle.data_model.specs.Outcomes.{made};
ghost use Rattle.data_set_trees.specs.declared.tree.SetOperation.TheVariants.{Union, Intersect, Setdiff, Symdiff};
ghost use Rattle.operator_meaning.specs.sets.Examples.{north, south, count, counted, again, of_both};
ghost use Rattle.operator_meaning.specs.sets.Sets.{set_meaning};

/// Of a key of both the first operand's point is taken; those of the second come in the first one's order.
pub fn points_of_any()
    ensures { set_meaning (of_both Union) (counted ∷ again ∷ []) ≡
        made (from_entries (
        (north ∷ count 1 ∷ [], count 5 ∷ count 7 ∷ []) ∷
        (south ∷ count 2 ∷ [], count 3 ∷ count 4 ∷ []) ∷
        (south ∷ count 1 ∷ [], count 2 ∷ count 1 ∷ []) ∷ [])) }
{}

/// The key of both, with the first operand's point.
pub fn points_of_all()
    ensures { set_meaning (of_both Intersect) (counted ∷ again ∷ []) ≡
        made (from_entries ((north ∷ count 1 ∷ [], count 5 ∷ count 7 ∷ []) ∷ [])) }
{}

/// The key that the first operand alone has.
pub fn points_of_the_first_alone()
    ensures { set_meaning (of_both Setdiff) (counted ∷ again ∷ []) ≡
        made (from_entries ((south ∷ count 2 ∷ [], count 3 ∷ count 4 ∷ []) ∷ [])) }
{}

/// The keys that one of them has, with its point.
pub fn points_of_just_one()
    ensures { set_meaning (of_both Symdiff) (counted ∷ again ∷ []) ≡
        made (from_entries (
        (south ∷ count 2 ∷ [], count 3 ∷ count 4 ∷ []) ∷
        (south ∷ count 1 ∷ [], count 2 ∷ count 1 ∷ []) ∷ [])) }
{}
