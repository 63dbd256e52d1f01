// What follows from the definitions, for those who build on them.
ghost use Rattle.std.specs.Prelude.{◌≡◌, ◌≢◌, ◌<◌, ◌≤◌, ◌↔◌, List, [], None, true, false, length, is_some, option_and_then, if◌then◌else◌};
ghost use Rattle.std.specs.FinMap.{empty, get, len};
ghost use Rattle.std.specs.Option.{option_map};
ghost use Rattle.vtl_values.specs.Order.{key_cmp};
ghost use Rattle.vtl_values.specs.declared.value.Value.{Value};
ghost use Rattle.vtl_syntax.specs.declared.words.ExistsRows.TheVariants as rows;
ghost use Rattle.data_model.specs.declared.TheConstants.{POINT_LIMIT};
ghost use Rattle.data_model.specs.Outcomes.{Made, Range, TooMany, IsOutcome};
ghost use Rattle.point_sets.specs.DataSets.{DataSet};
ghost use Rattle.structured_sets.specs.Fitting.{IsSetOf};
ghost use Rattle.data_set_trees.specs.Components.{identifiers};
ghost use Rattle.operator_meaning.specs.exists.Exists.{ExistsOn, common, agree, AgreeByName, is_met, met_values, exists_working, exists_meaning};
ghost use Rattle.operator_meaning.specs.exists.Typed.{IsTypedExistsOn};

/// What `exists_in` gives is its outcome in words: its value at each key and no point more, or that there are too many
/// points.
pub fn meanings_are_outcomes()
    ensures { (e : ExistsOn) (a b : DataSet) →
        IsOutcome {R = key_cmp} (exists_working e a b).beyond (exists_working e a b).value (exists_meaning e a b) }
{}

/// It is never out of range.
pub fn nothing_is_out_of_range()
    ensures { (e : ExistsOn) (a b : DataSet) (key : List Value) → exists_meaning e a b ≢ Range key }
{}

/// Where the first operand is empty the result is.
pub fn nothing_comes_of_nothing()
    ensures { (e : ExistsOn) (b : DataSet) → exists_meaning e empty b ≡ Made empty }
{}

/// At a key the result of `all` has whether the point of the first operand there is met, and its viral attributes; that
/// of `true` has the points that are met alone, and that of `false` those that are not.
pub fn points_are_told()
    ensures all { (e : ExistsOn) (a b y : DataSet) → e.rows ≡ rows.All → exists_meaning e a b ≡ Made y → (key : List Value) →
        get y key ≡ option_map (met_values e (is_met e b key) key) (get a key) }
    ensures met { (e : ExistsOn) (a b y : DataSet) → e.rows ≡ rows.True → exists_meaning e a b ≡ Made y → (key : List Value) →
        get y key ≡ (if is_met e b key then option_map (met_values e true key) (get a key) else None) }
    ensures unmet { (e : ExistsOn) (a b y : DataSet) → e.rows ≡ rows.False → exists_meaning e a b ≡ Made y → (key : List Value) →
        get y key ≡ (if is_met e b key then None else option_map (met_values e false key) (get a key)) }
{}

/// Keys with a value for each identifier agree where they have one value for each identifier that both operands have,
/// whatever the orders in which these stand.
pub fn keys_agree_by_name()
    ensures { (e : ExistsOn) (key other : List Value) → length key ≡ length (identifiers e.left) →
        length other ≡ length (identifiers e.right) → (agree e key other ≡ true) ↔ AgreeByName e key other }
{}

/// A key is met where the second operand has a point that agrees with it. Where the operands have no identifier in
/// common each key is met, if the second operand has any point.
pub fn points_are_met()
    ensures met { (e : ExistsOn) (b : DataSet) (key : List Value) →
        (is_met e b key ≡ true) ↔ ((other : List Value) × (is_some (get b other) ≡ true) × (agree e key other ≡ true)) }
    ensures apart { (e : ExistsOn) (b : DataSet) (key : List Value) → common e ≡ [] →
        (is_met e b key ≡ true) ↔ (0 < len b) }
{}

/// The result has no more points than the first operand, and so it never has too many.
pub fn points_stay_few()
    ensures no_more { (e : ExistsOn) (a b y : DataSet) → exists_meaning e a b ≡ Made y → len y ≤ len a }
    ensures not_too_many { (e : ExistsOn) (a b : DataSet) → len a ≤ POINT_LIMIT → exists_meaning e a b ≢ TooMany }
{}

/// What a well typed operator gives on data sets of its operands' structures is of the result's structure.
pub fn results_fit()
    ensures { (e : ExistsOn) (a b y : DataSet) → IsTypedExistsOn e → IsSetOf e.left a → exists_meaning e a b ≡ Made y →
        IsSetOf e.structure y }
{}
