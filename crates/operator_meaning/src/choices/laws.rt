// What follows from the definitions, for those who build on them.
ghost use Rattle.std.specs.Prelude.{◌≡◌, ◌≢◌, ◌<◌, ◌≤◌, ◌∷◌, ◌++◌, List, Bool, None, Some, true, ℕ, length, is_some, option_and_then};
ghost use Rattle.std.specs.List.{AllZip};
ghost use Rattle.std.specs.FinMap.{empty, get, len};
ghost use Rattle.vtl_values.specs.Order.{key_cmp};
ghost use Rattle.vtl_values.specs.declared.value.Value.{Value};
ghost use Rattle.data_model.specs.declared.TheConstants.{POINT_LIMIT};
ghost use Rattle.data_model.specs.Outcomes.{Made, TooMany, IsOutcome};
ghost use Rattle.point_sets.specs.DataSets.{DataSet};
ghost use Rattle.structured_sets.specs.Fitting.{IsSetOf};
ghost use Rattle.data_set_trees.specs.Components.{identifiers};
ghost use Rattle.operator_meaning.specs.choices.Choices.{ChoiceOn, structure_at, set_at, condition, operand_key, condition_key, chosen_point, is_true_in, in_range, made_of, choice_working, choice_meaning};
ghost use Rattle.operator_meaning.specs.choices.Typed.{IsTypedChoice};

/// What a conditional gives is its outcome in words: its value at each key and no point more, the least key at which it is
/// out of range, or that there are too many points.
pub fn meanings_are_outcomes()
    ensures { (c : ChoiceOn) (sets : List DataSet) →
        IsOutcome {R = key_cmp} (choice_working c sets).beyond (choice_working c sets).value (choice_meaning c sets) }
{}

/// Where the condition is empty the result is.
pub fn nothing_comes_of_nothing()
    ensures { (c : ChoiceOn) (branches : List DataSet) → choice_meaning c (empty ∷ branches) ≡ Made empty }
{}

/// The result has at a key what comes of the condition's point there and the branch that it chooses, and nothing where the
/// condition has no point. Where it has one the result has one too, unless the branch is a data set without a point there.
pub fn branches_are_chosen()
    ensures values { (c : ChoiceOn) (sets : List DataSet) (y : DataSet) → choice_meaning c sets ≡ Made y → (key : List Value) →
        get y key ≡ option_and_then (λ rest. in_range (made_of c sets key rest)) (get (set_at sets 0) key) }
    ensures there { (c : ChoiceOn) (sets : List DataSet) (y : DataSet) → choice_meaning c sets ≡ Made y → (key rest : List Value) →
        get (set_at sets 0) key ≡ Some rest →
        is_some (get y key) ≡ is_some (chosen_point c sets (is_true_in c (key ++ rest)) key) }
    ensures nowhere_else { (c : ChoiceOn) (sets : List DataSet) (y : DataSet) → choice_meaning c sets ≡ Made y → (key : List Value) →
        get (set_at sets 0) key ≡ None → get y key ≡ None }
{}

/// A key of the condition with a value for each identifier comes to a key of each operand, from which it comes back; and
/// each key of an operand with a value for each identifier comes from one of the condition.
pub fn keys_are_matched()
    ensures back { (c : ChoiceOn) → IsTypedChoice c → (n : ℕ) → n < length c.operands → (key : List Value) →
        length key ≡ length (identifiers (condition c)) → condition_key c n (operand_key c n key) ≡ key }
    ensures forth { (c : ChoiceOn) → IsTypedChoice c → (n : ℕ) → n < length c.operands → (key : List Value) →
        length key ≡ length (identifiers (structure_at c n)) → operand_key c n (condition_key c n key) ≡ key }
    ensures whole { (c : ChoiceOn) → IsTypedChoice c → (n : ℕ) → n < length c.operands → (key : List Value) →
        length key ≡ length (identifiers (structure_at c n)) →
        length (condition_key c n key) ≡ length (identifiers (condition c)) }
{}

/// The result has no more points than the condition, and so it never has too many.
pub fn points_stay_few()
    ensures no_more { (c : ChoiceOn) (sets : List DataSet) (y : DataSet) → choice_meaning c sets ≡ Made y →
        len y ≤ len (set_at sets 0) }
    ensures not_too_many { (c : ChoiceOn) (sets : List DataSet) → len (set_at sets 0) ≤ POINT_LIMIT →
        choice_meaning c sets ≢ TooMany }
{}

/// What a well typed conditional gives on data sets of its operands' structures is of the result's structure.
pub fn results_fit()
    ensures { (c : ChoiceOn) (sets : List DataSet) (y : DataSet) → IsTypedChoice c → AllZip IsSetOf c.operands sets →
        choice_meaning c sets ≡ Made y → IsSetOf c.structure y }
{}
