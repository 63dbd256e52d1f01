// What follows from the definitions, for those who build on them.
ghost use Rattle.std.specs.Prelude.{◌≡◌, ◌≢◌, ◌≤◌, ◌⊎◌, ◌∷◌, List, Option, Some, None, true, false, length, map, count_by, is_some};
ghost use Rattle.std.specs.List.{list_any, list_all, AllZip};
ghost use Rattle.std.specs.FinMap.{empty, get, len};
ghost use Rattle.vtl_values.specs.Order.{key_cmp};
ghost use Rattle.vtl_values.specs.declared.value.Value.{Value};
ghost use Rattle.data_model.specs.declared.TheConstants.{POINT_LIMIT};
ghost use Rattle.data_model.specs.Maps.{leftmost};
ghost use Rattle.data_model.specs.Outcomes.{Made, Range, TooMany, IsOutcome};
ghost use Rattle.point_sets.specs.DataSets.{DataSet};
ghost use Rattle.structured_sets.specs.Fitting.{IsSetOf, IsBoundedSetOf};
ghost use Rattle.data_set_trees.specs.Components.{identifiers};
ghost use Rattle.data_set_trees.specs.declared.tree.SetOperation.TheVariants.{Union, Intersect, Setdiff, Symdiff};
ghost use Rattle.operator_meaning.specs.sets.Sets.{SetOn, points_there, set_working, set_meaning};
ghost use Rattle.operator_meaning.specs.sets.Typed.{IsTypedSet};

/// What a set operator gives is its outcome in words: the points that stay and no point more, or that there are too many.
pub fn meanings_are_outcomes()
    ensures { (s : SetOn) (sets : List DataSet) →
        IsOutcome {R = key_cmp} (set_working s sets).beyond (set_working s sets).value (set_meaning s sets) }
{}

/// A set operator is never out of range.
pub fn nothing_is_out_of_range()
    ensures { (s : SetOn) (sets : List DataSet) (key : List Value) → set_meaning s sets ≢ Range key }
{}

/// Of empty operands the result is empty.
pub fn nothing_comes_of_nothing()
    ensures { (s : SetOn) → set_meaning s (map (λ _. empty) s.operands) ≡ Made empty }
{}

/// The result of `union` has at a key with a value for each identifier what the leftmost operand that has a point there
/// has, and nothing where none has one.
pub fn union_has_the_points_of_any()
    ensures { (s : SetOn) (sets : List DataSet) (y : DataSet) → IsTypedSet s → s.operation ≡ Union → set_meaning s sets ≡ Made y →
        (key : List Value) → length key ≡ length (identifiers s.structure) → get y key ≡ leftmost (points_there s sets key) }
{}

/// That of `intersect` has what the first operand has, where all operands have a point there, and nothing elsewhere.
pub fn intersect_has_the_points_of_all()
    ensures all { (s : SetOn) (sets : List DataSet) (y : DataSet) → IsTypedSet s → s.operation ≡ Intersect → set_meaning s sets ≡ Made y →
        (key : List Value) → length key ≡ length (identifiers s.structure) → (first : Option (List Value)) (rest : List (Option (List Value))) →
        points_there s sets key ≡ first ∷ rest → list_all is_some (points_there s sets key) ≡ true → get y key ≡ first }
    ensures not_all { (s : SetOn) (sets : List DataSet) (y : DataSet) → IsTypedSet s → s.operation ≡ Intersect → set_meaning s sets ≡ Made y →
        (key : List Value) → length key ≡ length (identifiers s.structure) →
        list_all is_some (points_there s sets key) ≡ false → get y key ≡ None }
{}

/// That of `setdiff` has what the first operand has, where no other one has a point there, and nothing elsewhere.
pub fn setdiff_has_the_points_of_the_first_alone()
    ensures alone { (s : SetOn) (sets : List DataSet) (y : DataSet) → IsTypedSet s → s.operation ≡ Setdiff → set_meaning s sets ≡ Made y →
        (key : List Value) → length key ≡ length (identifiers s.structure) → (first : Option (List Value)) (rest : List (Option (List Value))) →
        points_there s sets key ≡ first ∷ rest → list_any is_some rest ≡ false → get y key ≡ first }
    ensures not_alone { (s : SetOn) (sets : List DataSet) (y : DataSet) → IsTypedSet s → s.operation ≡ Setdiff → set_meaning s sets ≡ Made y →
        (key : List Value) → length key ≡ length (identifiers s.structure) → (first : Option (List Value)) (rest : List (Option (List Value))) →
        points_there s sets key ≡ first ∷ rest → list_any is_some rest ≡ true → get y key ≡ None }
{}

/// That of `symdiff` has the point of the one operand that has one there, where just one has, and nothing elsewhere.
pub fn symdiff_has_the_points_of_just_one()
    ensures one { (s : SetOn) (sets : List DataSet) (y : DataSet) → IsTypedSet s → s.operation ≡ Symdiff → set_meaning s sets ≡ Made y →
        (key : List Value) → length key ≡ length (identifiers s.structure) →
        count_by is_some (points_there s sets key) ≡ 1 → get y key ≡ leftmost (points_there s sets key) }
    ensures not_one { (s : SetOn) (sets : List DataSet) (y : DataSet) → IsTypedSet s → s.operation ≡ Symdiff → set_meaning s sets ≡ Made y →
        (key : List Value) → length key ≡ length (identifiers s.structure) →
        count_by is_some (points_there s sets key) ≢ 1 → get y key ≡ None }
{}

/// The results of `intersect` and `setdiff` have no more points than the first operand, and so they never have too many.
pub fn points_stay_few()
    ensures no_more { (s : SetOn) (a : DataSet) (sets : List DataSet) (y : DataSet) → (s.operation ≡ Intersect) ⊎ (s.operation ≡ Setdiff) →
        set_meaning s (a ∷ sets) ≡ Made y → len y ≤ len a }
    ensures not_too_many { (s : SetOn) (a : DataSet) (sets : List DataSet) → (s.operation ≡ Intersect) ⊎ (s.operation ≡ Setdiff) →
        len a ≤ POINT_LIMIT → set_meaning s (a ∷ sets) ≢ TooMany }
{}

/// What a well typed set operator gives on data sets of its operands' structures is of the result's structure, and has at
/// most 200,000 points.
pub fn results_fit()
    ensures { (s : SetOn) (sets : List DataSet) (y : DataSet) → IsTypedSet s → AllZip IsSetOf s.operands sets →
        set_meaning s sets ≡ Made y → IsBoundedSetOf s.structure y }
{}
