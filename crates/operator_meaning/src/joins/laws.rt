// What follows from the definitions, for those who build on them.
ghost use Rattle.std.specs.Prelude.{◌≡◌, ◌≢◌, ◌<◌, ◌≤◌, List, ◌∷◌, Some, None, true, false, Contains, length, map, zip, flat_map, is_some};
ghost use Rattle.std.specs.List.{AllZip, list_all, list_any};
ghost use Rattle.std.specs.FinMap.{empty, get, len};
ghost use Rattle.vtl_values.specs.Order.{key_cmp};
ghost use Rattle.vtl_values.specs.declared.structure.Component.{Component};
ghost use Rattle.vtl_values.specs.declared.value.Value.{Value};
ghost use Rattle.vtl_syntax.specs.declared.words.JoinFunction.TheVariants.{Inner, Left, Full, Cross};
ghost use Rattle.data_model.specs.declared.TheConstants.{POINT_LIMIT};
ghost use Rattle.data_model.specs.Outcomes.{Made, Range, TooMany, IsOutcome};
ghost use Rattle.point_sets.specs.DataSets.{DataSet};
ghost use Rattle.structured_sets.specs.Fitting.{IsSetOf, IsBoundedSetOf};
ghost use Rattle.clause_meaning.specs.Clauses.{values_at};
ghost use Rattle.data_set_trees.specs.Components.{identifiers};
ghost use Rattle.operator_meaning.specs.joins.Joins.{JoinOn, key_components, numbers_among, places_of, own_places, is_whole, join_key, points_at, joined_values, join_working, join_meaning, AreKeysOf, all_points, points_product};
ghost use Rattle.operator_meaning.specs.joins.Typed.{IsTypedJoinOn};

/// What a join gives is its outcome in words: the points that there are and no point more, or that there are too many.
pub fn meanings_are_outcomes()
    ensures { (j : JoinOn) (sets : List DataSet) → IsTypedJoinOn j → length sets ≡ length j.operands →
        IsOutcome {R = key_cmp} (join_working j sets).beyond (join_working j sets).value (join_meaning j sets) }
{}

/// A join is never out of range.
pub fn nothing_is_out_of_range()
    ensures { (j : JoinOn) (sets : List DataSet) (key : List Value) → join_meaning j sets ≢ Range key }
{}

/// Of empty operands the result is empty.
pub fn nothing_comes_of_nothing()
    ensures { (j : JoinOn) → IsTypedJoinOn j → join_meaning j (map (λ _. empty) j.operands) ≡ Made empty }
{}

/// What a well typed join gives on data sets of its operands' structures is of the result's structure, and has at most
/// 200,000 points.
pub fn results_fit()
    ensures { (j : JoinOn) (sets : List DataSet) (y : DataSet) → IsTypedJoinOn j → AllZip IsSetOf j.operands sets →
        join_meaning j sets ≡ Made y → IsBoundedSetOf j.structure y }
{}

/// An inner join has an operand with all identifiers, and each operand of a left and of a full one has all.
pub fn operands_are_whole()
    ensures inner { (j : JoinOn) → IsTypedJoinOn j → j.function ≡ Inner →
        (s : List Component) × Contains j.operands s × (is_whole j s ≡ true) }
    ensures left { (j : JoinOn) (s : List Component) → IsTypedJoinOn j → j.function ≡ Left → Contains j.operands s →
        is_whole j s ≡ true }
    ensures full { (j : JoinOn) (s : List Component) → IsTypedJoinOn j → j.function ≡ Full → Contains j.operands s →
        is_whole j s ≡ true }
{}

/// A key with a value for each identifier of the result is one of the join. But for a cross join: a key of an operand with
/// all identifiers comes to one, from which it comes back, and so does that of each other operand; and a key of the join is
/// the one that its key of the operand comes to.
pub fn keys_are_matched()
    ensures result { (j : JoinOn) → IsTypedJoinOn j → length (identifiers j.structure) ≡ length (key_components j) }
    ensures whole { (j : JoinOn) (s : List Component) (own : List Value) → IsTypedJoinOn j → j.function ≢ Cross →
        Contains j.operands s → is_whole j s ≡ true → length own ≡ length (identifiers s) →
        length (join_key j s own) ≡ length (key_components j) }
    ensures back { (j : JoinOn) (s : List Component) (own : List Value) → IsTypedJoinOn j → j.function ≢ Cross →
        Contains j.operands s → is_whole j s ≡ true → length own ≡ length (identifiers s) →
        values_at (places_of j s) (join_key j s own) ≡ own }
    ensures partner { (j : JoinOn) (s t : List Component) (own : List Value) → IsTypedJoinOn j → j.function ≢ Cross →
        Contains j.operands s → is_whole j s ≡ true → Contains j.operands t → length own ≡ length (identifiers s) →
        values_at (places_of j t) (join_key j s own) ≡ values_at (numbers_among (identifiers s) (identifiers t)) own }
    ensures forth { (j : JoinOn) (s : List Component) (key : List Value) → IsTypedJoinOn j → j.function ≢ Cross →
        Contains j.operands s → is_whole j s ≡ true → length key ≡ length (key_components j) →
        join_key j s (values_at (places_of j s) key) ≡ key }
{}

/// The result of an inner join has a point at a key with a value for each identifier where all operands have one, and
/// none elsewhere.
pub fn inner_join_has_the_points_of_all()
    ensures all { (j : JoinOn) (sets : List DataSet) (y : DataSet) → IsTypedJoinOn j → length sets ≡ length j.operands →
        j.function ≡ Inner → join_meaning j sets ≡ Made y → (key : List Value) → length key ≡ length (key_components j) →
        list_all is_some (points_at j sets key) ≡ true → get y key ≡ Some (joined_values j.operands (points_at j sets key)) }
    ensures not_all { (j : JoinOn) (sets : List DataSet) (y : DataSet) → IsTypedJoinOn j → length sets ≡ length j.operands →
        j.function ≡ Inner → join_meaning j sets ≡ Made y → (key : List Value) → length key ≡ length (key_components j) →
        list_all is_some (points_at j sets key) ≡ false → get y key ≡ None }
{}

/// That of a left join has one where the first operand has one, and none elsewhere.
pub fn left_join_has_the_points_of_the_first()
    ensures there { (j : JoinOn) (a : DataSet) (sets : List DataSet) (y : DataSet) → IsTypedJoinOn j →
        length (a ∷ sets) ≡ length j.operands → j.function ≡ Left → join_meaning j (a ∷ sets) ≡ Made y →
        (first : List Component) (others : List (List Component)) → j.operands ≡ first ∷ others →
        (key : List Value) → length key ≡ length (key_components j) → is_some (get a (values_at (places_of j first) key)) ≡ true →
        get y key ≡ Some (joined_values j.operands (points_at j (a ∷ sets) key)) }
    ensures missing { (j : JoinOn) (a : DataSet) (sets : List DataSet) (y : DataSet) → IsTypedJoinOn j →
        length (a ∷ sets) ≡ length j.operands → j.function ≡ Left → join_meaning j (a ∷ sets) ≡ Made y →
        (first : List Component) (others : List (List Component)) → j.operands ≡ first ∷ others →
        (key : List Value) → length key ≡ length (key_components j) →
        get a (values_at (places_of j first) key) ≡ None → get y key ≡ None }
{}

/// That of a full join has one where any operand has one, and none elsewhere.
pub fn full_join_has_the_points_of_any()
    ensures any { (j : JoinOn) (sets : List DataSet) (y : DataSet) → IsTypedJoinOn j → length sets ≡ length j.operands →
        j.function ≡ Full → join_meaning j sets ≡ Made y → (key : List Value) → length key ≡ length (key_components j) →
        list_any is_some (points_at j sets key) ≡ true → get y key ≡ Some (joined_values j.operands (points_at j sets key)) }
    ensures none { (j : JoinOn) (sets : List DataSet) (y : DataSet) → IsTypedJoinOn j → length sets ≡ length j.operands →
        j.function ≡ Full → join_meaning j sets ≡ Made y → (key : List Value) → length key ≡ length (key_components j) →
        list_any is_some (points_at j sets key) ≡ false → get y key ≡ None }
{}

/// A key of a cross join is those of its operands, one after the other; there it has a point where all operands have one at
/// their own keys, and none elsewhere.
pub fn cross_join_has_all_combinations()
    ensures keys { (j : JoinOn) (key : List Value) → j.function ≡ Cross → length key ≡ length (key_components j) →
        flat_map (λ numbers. values_at numbers key) (own_places j) ≡ key }
    ensures own { (j : JoinOn) (sets : List DataSet) (own : List (List Value)) → j.function ≡ Cross → AreKeysOf j.operands own →
        points_at j sets (flat_map (λ key. key) own) ≡ all_points sets own }
    ensures all { (j : JoinOn) (sets : List DataSet) (y : DataSet) → IsTypedJoinOn j → length sets ≡ length j.operands →
        j.function ≡ Cross → join_meaning j sets ≡ Made y → (own : List (List Value)) → AreKeysOf j.operands own →
        list_all is_some (all_points sets own) ≡ true →
        get y (flat_map (λ key. key) own) ≡ Some (joined_values j.operands (all_points sets own)) }
    ensures not_all { (j : JoinOn) (sets : List DataSet) (y : DataSet) → IsTypedJoinOn j → length sets ≡ length j.operands →
        j.function ≡ Cross → join_meaning j sets ≡ Made y → (own : List (List Value)) → AreKeysOf j.operands own →
        list_all is_some (all_points sets own) ≡ false → get y (flat_map (λ key. key) own) ≡ None }
{}

/// An inner join has no more points than an operand with all identifiers, and a left join has as many as its first
/// operand; so neither has ever too many.
pub fn points_stay_few()
    ensures no_more { (j : JoinOn) (sets : List DataSet) (y : DataSet) → IsTypedJoinOn j → length sets ≡ length j.operands →
        j.function ≡ Inner → join_meaning j sets ≡ Made y → (s : List Component) (a : DataSet) →
        Contains (zip j.operands sets) (s, a) → is_whole j s ≡ true → len y ≤ len a }
    ensures as_many { (j : JoinOn) (a : DataSet) (sets : List DataSet) (y : DataSet) → IsTypedJoinOn j →
        AllZip IsSetOf j.operands (a ∷ sets) → j.function ≡ Left → join_meaning j (a ∷ sets) ≡ Made y → len y ≡ len a }
    ensures inner_never { (j : JoinOn) (sets : List DataSet) → IsTypedJoinOn j → length sets ≡ length j.operands →
        j.function ≡ Inner → (s : List Component) (a : DataSet) → Contains (zip j.operands sets) (s, a) →
        is_whole j s ≡ true → len a ≤ POINT_LIMIT → join_meaning j sets ≢ TooMany }
    ensures left_never { (j : JoinOn) (a : DataSet) (sets : List DataSet) → IsTypedJoinOn j →
        length (a ∷ sets) ≡ length j.operands → j.function ≡ Left → len a ≤ POINT_LIMIT → join_meaning j (a ∷ sets) ≢ TooMany }
{}

/// The number of points of a cross join is the product of those of its operands.
pub fn points_multiply()
    ensures { (j : JoinOn) (sets : List DataSet) (y : DataSet) → IsTypedJoinOn j → AllZip IsSetOf j.operands sets →
        j.function ≡ Cross → join_meaning j sets ≡ Made y → len y ≡ points_product sets }
{}

/// So it has too many exactly where the product is above 200,000.
pub fn combinations_are_counted()
    ensures too_many { (j : JoinOn) (sets : List DataSet) → IsTypedJoinOn j → AllZip IsSetOf j.operands sets →
        j.function ≡ Cross → POINT_LIMIT < points_product sets → join_meaning j sets ≡ TooMany }
    ensures few { (j : JoinOn) (sets : List DataSet) → IsTypedJoinOn j → AllZip IsSetOf j.operands sets →
        j.function ≡ Cross → points_product sets ≤ POINT_LIMIT → join_meaning j sets ≢ TooMany }
{}
