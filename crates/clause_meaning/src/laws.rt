// What follows from the definitions, for those who build on them.
ghost use Rattle.std.specs.Prelude.{◌≡◌, ◌≢◌, ◌≤◌, ℕ, List, [], ◌∷◌, ◌++◌, Some, true, false, is_some, option_and_then};
ghost use Rattle.std.specs.FinMap.{empty, get, len};
ghost use Rattle.std.specs.List.{AllZip};
ghost use Rattle.vtl_values.specs.Order.{key_cmp};
ghost use Rattle.vtl_values.specs.Structures.{IsStructure};
ghost use Rattle.vtl_values.specs.declared.value.Value.{Value};
ghost use Rattle.data_model.specs.Maps.{filtered};
ghost use Rattle.data_model.specs.declared.TheConstants.{POINT_LIMIT};
ghost use Rattle.data_model.specs.Outcomes.{Made, TooMany, IsOutcome};
ghost use Rattle.point_sets.specs.DataSets.{DataSet};
ghost use Rattle.structured_sets.specs.Fitting.{FitsIdentifier, IsSetOf, identifiers};
ghost use Rattle.scalar_trees.specs.declared.tree.CheckedExpr.{CheckedExpr};
ghost use Rattle.data_set_trees.specs.declared.clauses.clause.CheckedClause.{CheckedClause};
ghost use Rattle.data_set_trees.specs.declared.clauses.clause.CheckedClause.TheVariants as clause;
ghost use Rattle.data_set_trees.specs.declared.clauses.clause.CheckedItem.{CheckedItem};
ghost use Rattle.data_set_trees.specs.declared.clauses.clause.CheckedMeasure.{CheckedMeasure};
ghost use Rattle.data_set_trees.specs.declared.clauses.clause.CheckedRename.{CheckedRename};
ghost use Rattle.data_set_trees.specs.declared.clauses.clause.CheckedSubItem.{CheckedSubItem};
ghost use Rattle.data_set_trees.specs.declared.clauses.frame.Frame.{Frame};
ghost use Rattle.data_set_trees.specs.clauses.After.{after};
ghost use Rattle.data_set_trees.specs.clauses.Clauses.{are_identifiers, may_drop};
ghost use Rattle.data_set_trees.specs.clauses.WellTyped.{is_well_typed};
ghost use Rattle.clause_meaning.specs.Clauses.{clause_meaning, has_values, is_true_at, key_left, makes_more, measure_point, working_of};
ghost use Rattle.clause_meaning.specs.Ordered.{HasIdentifiersFirst};

/// What a clause gives is its outcome in words: its value at each key and no point more, the least key at which it is
/// out of range, or that there are too many points.
pub fn meanings_are_outcomes()
    ensures { (c : CheckedClause) (frame : Frame) (a : DataSet) →
        IsOutcome {R = key_cmp} (working_of c frame a).beyond (working_of c frame a).value (clause_meaning c frame a) }
{}

/// On an empty data set each clause gives an empty one.
pub fn nothing_comes_of_nothing()
    ensures { (c : CheckedClause) (frame : Frame) → clause_meaning c frame empty ≡ Made empty }
{}

/// `calc`, `keep`, `drop` and `rename`, and measures that are worked out in place of others, give points at exactly the
/// keys of their operand.
pub fn keys_are_kept()
    ensures calc { (items : List CheckedItem) (frame : Frame) (a y : DataSet) →
        clause_meaning (clause.Calc items) frame a ≡ Made y → (key : List Value) →
        is_some (get y key) ≡ is_some (get a key) }
    ensures keep { (numbers : List ℕ) (frame : Frame) (a y : DataSet) →
        clause_meaning (clause.Keep numbers) frame a ≡ Made y → (key : List Value) →
        is_some (get y key) ≡ is_some (get a key) }
    ensures drop { (numbers : List ℕ) (frame : Frame) (a y : DataSet) →
        clause_meaning (clause.Drop numbers) frame a ≡ Made y → (key : List Value) →
        is_some (get y key) ≡ is_some (get a key) }
    ensures rename { (renames : List CheckedRename) (frame : Frame) (a y : DataSet) →
        clause_meaning (clause.Rename renames) frame a ≡ Made y → (key : List Value) →
        is_some (get y key) ≡ is_some (get a key) }
    ensures measures { (items : List CheckedMeasure) (frame : Frame) (a y : DataSet) →
        clause_meaning (clause.Measures items) frame a ≡ Made y → (key : List Value) →
        is_some (get y key) ≡ is_some (get a key) }
{}

/// `filter` gives the points of its operand at which the condition is true, as they are. A point of `sub` is one of its
/// operand whose identifiers have the values, under its key without them.
pub fn points_are_chosen()
    ensures filter { (condition : CheckedExpr) (frame : Frame) (a y : DataSet) →
        clause_meaning (clause.Filter condition) frame a ≡ Made y → y ≡ filtered (is_true_at condition) a }
    ensures sub { (items : List CheckedSubItem) (frame : Frame) (a y : DataSet) →
        clause_meaning (clause.Sub items) frame a ≡ Made y → (left rest : List Value) →
        get y left ≡ Some rest →
        (key : List Value) × (get a key ≡ Some rest) × (has_values items key ≡ true) ×
        (key_left items frame key ≡ left) }
{}

/// At most one key of a data set comes to a key of `sub`: two keys whose identifiers that are named have the values, and
/// that are the same without these, are one. Values of one identifier are of one kind, so those that are equal as numbers
/// are equal.
pub fn sub_keys_differ()
    ensures { (items : List CheckedSubItem) (frame : Frame) (key other : List Value) → HasIdentifiersFirst frame →
        AllZip FitsIdentifier (identifiers frame.components) key →
        AllZip FitsIdentifier (identifiers frame.components) other →
        has_values items key ≡ true → has_values items other ≡ true →
        key_left items frame key ≡ key_left items frame other → key ≡ other }
{}

/// `unpivot` has at a key that ends with a measure's name what its operand has of that measure at the key before it,
/// and then the values of the viral attributes.
pub fn measures_become_points()
    ensures { (identifier measure : List ℕ) (frame : Frame) (a y : DataSet) →
        clause_meaning (clause.Unpivot identifier measure) frame a ≡ Made y → (key : List Value) (name : Value) →
        get y (key ++ name ∷ []) ≡ option_and_then (λ rest. measure_point frame (key ++ rest) name) (get a key) }
{}

/// No clause but `unpivot` has more points than its operand, and so none of them has too many.
pub fn points_stay_few()
    ensures no_more { (c : CheckedClause) (frame : Frame) (a y : DataSet) → makes_more c ≡ false →
        clause_meaning c frame a ≡ Made y → len y ≤ len a }
    ensures not_too_many { (c : CheckedClause) (frame : Frame) (a : DataSet) → makes_more c ≡ false →
        len a ≤ POINT_LIMIT → clause_meaning c frame a ≢ TooMany }
{}

/// In a structure identifiers stand first, so a point's key and its other values stand as its components do.
pub fn structures_have_identifiers_first()
    ensures { (frame : Frame) → IsStructure frame.components → HasIdentifiersFirst frame }
{}

/// What a clause gives is of the components that stand after it.
pub fn results_fit()
    ensures filter { (condition : CheckedExpr) (frame : Frame) (a y : DataSet) → IsSetOf frame.components a →
        clause_meaning (clause.Filter condition) frame a ≡ Made y →
        IsSetOf (after (clause.Filter condition) frame).components y }
    ensures keep { (numbers : List ℕ) (frame : Frame) (a y : DataSet) → HasIdentifiersFirst frame →
        IsSetOf frame.components a → clause_meaning (clause.Keep numbers) frame a ≡ Made y →
        IsSetOf (after (clause.Keep numbers) frame).components y }
    ensures drop { (numbers : List ℕ) (frame : Frame) (a y : DataSet) → HasIdentifiersFirst frame →
        may_drop frame numbers ≡ true → IsSetOf frame.components a →
        clause_meaning (clause.Drop numbers) frame a ≡ Made y →
        IsSetOf (after (clause.Drop numbers) frame).components y }
    ensures rename { (renames : List CheckedRename) (frame : Frame) (a y : DataSet) → IsSetOf frame.components a →
        clause_meaning (clause.Rename renames) frame a ≡ Made y →
        IsSetOf (after (clause.Rename renames) frame).components y }
    ensures sub { (items : List CheckedSubItem) (frame : Frame) (a y : DataSet) → HasIdentifiersFirst frame →
        are_identifiers frame items ≡ true → IsSetOf frame.components a →
        clause_meaning (clause.Sub items) frame a ≡ Made y →
        IsSetOf (after (clause.Sub items) frame).components y }
    ensures calc { (items : List CheckedItem) (frame : Frame) (a y : DataSet) → HasIdentifiersFirst frame →
        is_well_typed frame (clause.Calc items) ≡ true → IsSetOf frame.components a →
        clause_meaning (clause.Calc items) frame a ≡ Made y →
        IsSetOf (after (clause.Calc items) frame).components y }
    ensures unpivot { (identifier measure : List ℕ) (frame : Frame) (a y : DataSet) → HasIdentifiersFirst frame →
        is_well_typed frame (clause.Unpivot identifier measure) ≡ true → IsSetOf frame.components a →
        clause_meaning (clause.Unpivot identifier measure) frame a ≡ Made y →
        IsSetOf (after (clause.Unpivot identifier measure) frame).components y }
    ensures measures { (items : List CheckedMeasure) (frame : Frame) (a y : DataSet) → HasIdentifiersFirst frame →
        is_well_typed frame (clause.Measures items) ≡ true → IsSetOf frame.components a →
        clause_meaning (clause.Measures items) frame a ≡ Made y →
        IsSetOf (after (clause.Measures items) frame).components y }
{}
