// What follows from the definitions, for those who build on them.
ghost use Rattle.std.specs.Prelude.{◌≡◌, ◌≢◌, ◌≤◌, List, Some, true, length, is_some, option_and_then};
ghost use Rattle.std.specs.FinMap.{empty, get, len};
ghost use Rattle.vtl_values.specs.Order.{key_cmp};
ghost use Rattle.vtl_values.specs.declared.value.Value.{Value};
ghost use Rattle.data_model.specs.declared.TheConstants.{POINT_LIMIT};
ghost use Rattle.data_model.specs.Outcomes.{Made, TooMany, IsOutcome};
ghost use Rattle.point_sets.specs.DataSets.{DataSet};
ghost use Rattle.structured_sets.specs.Fitting.{IsSetOf};
ghost use Rattle.data_set_trees.specs.Components.{identifiers};
ghost use Rattle.operator_meaning.specs.pairs.Pairs.{PairOn, key_between, main, partner, main_key, partner_key, result_key, main_set, partner_set, both_there, pair_values, pair_working, pair_meaning};
ghost use Rattle.operator_meaning.specs.pairs.Typed.{IsTypedPair};

/// What a pair gives is its outcome in words: its value at each key and no point more, the least key at which it is out
/// of range, or that there are too many points.
pub fn meanings_are_outcomes()
    ensures { (p : PairOn) (a b : DataSet) →
        IsOutcome {R = key_cmp} (pair_working p a b).beyond (pair_working p a b).value (pair_meaning p a b) }
{}

/// Where one of the operands is empty the result is.
pub fn nothing_comes_of_nothing()
    ensures left { (p : PairOn) (b : DataSet) → pair_meaning p empty b ≡ Made empty }
    ensures right { (p : PairOn) (a : DataSet) → pair_meaning p a empty ≡ Made empty }
{}

/// A key of the main operand with a value for each identifier comes to a key of the result, from which it and that of
/// its partner come back; and a key of the result with a value for each identifier is the one that its key of the main
/// operand comes to.
pub fn keys_are_matched()
    ensures back { (p : PairOn) → IsTypedPair p → (key : List Value) → length key ≡ length (identifiers (main p)) →
        main_key p (result_key p key) ≡ key }
    ensures partner_same { (p : PairOn) → IsTypedPair p → (key : List Value) → length key ≡ length (identifiers (main p)) →
        key_between p.structure (partner p) (result_key p key) ≡ partner_key p key }
    ensures whole { (p : PairOn) → IsTypedPair p → (key : List Value) → length key ≡ length (identifiers (main p)) →
        length (result_key p key) ≡ length (identifiers p.structure) }
    ensures forth { (p : PairOn) → IsTypedPair p → (key : List Value) →
        length key ≡ length (identifiers p.structure) → result_key p (main_key p key) ≡ key }
{}

/// The result has at a key with a value for each identifier what the points of both operands there have together, and
/// nothing where one of them is missing. Each key of it is that of a point of the main operand whose partner is there.
pub fn points_are_pairs()
    ensures pairs { (p : PairOn) (a b y : DataSet) → IsTypedPair p → pair_meaning p a b ≡ Made y →
        (key : List Value) → length key ≡ length (identifiers p.structure) →
        get y key ≡ option_and_then (λ q. pair_values p q.0 q.1) (both_there p a b key) }
    ensures keys { (p : PairOn) (a b y : DataSet) → IsTypedPair p → IsSetOf p.left a → IsSetOf p.right b →
        pair_meaning p a b ≡ Made y → (key rest : List Value) → get y key ≡ Some rest →
        (from : List Value) × (result_key p from ≡ key) × (is_some (get (main_set p a b) from) ≡ true) ×
        (is_some (get (partner_set p a b) (partner_key p from)) ≡ true) }
{}

/// The result has no more points than the main operand, and so it never has too many.
pub fn points_stay_few()
    ensures no_more { (p : PairOn) (a b y : DataSet) → pair_meaning p a b ≡ Made y → len y ≤ len (main_set p a b) }
    ensures not_too_many { (p : PairOn) (a b : DataSet) → len (main_set p a b) ≤ POINT_LIMIT →
        pair_meaning p a b ≢ TooMany }
{}

/// What a well typed pair gives on data sets of its operands' structures is of the result's structure.
pub fn results_fit()
    ensures { (p : PairOn) (a b y : DataSet) → IsTypedPair p → IsSetOf p.left a → IsSetOf p.right b →
        pair_meaning p a b ≡ Made y → IsSetOf p.structure y }
{}
