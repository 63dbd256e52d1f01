// What follows from the definitions, for those who build on them.
ghost use Rattle.std.specs.Prelude.{◌≡◌, ◌≢◌, ◌≤◌, List, true};
ghost use Rattle.std.specs.FinMap.{empty, get, len};
ghost use Rattle.vtl_values.specs.Order.{key_cmp};
ghost use Rattle.vtl_values.specs.Structures.{IsStructure};
ghost use Rattle.vtl_values.specs.declared.structure.Component.{Component};
ghost use Rattle.vtl_values.specs.declared.value.Value.{Value};
ghost use Rattle.data_model.specs.declared.TheConstants.{POINT_LIMIT};
ghost use Rattle.data_model.specs.Outcomes.{Made, TooMany, IsOutcome};
ghost use Rattle.point_sets.specs.DataSets.{DataSet};
ghost use Rattle.structured_sets.specs.Fitting.{IsBoundedSetOf};
ghost use Rattle.data_set_trees.specs.declared.aggregates.aggregate.CheckedAggregate.{CheckedAggregate};
ghost use Rattle.data_set_trees.specs.aggregates.Results.{grouped};
ghost use Rattle.data_set_trees.specs.aggregates.WellTyped.{is_well_typed};
ghost use Rattle.operator_meaning.specs.aggregates.Aggregates.{aggregate_working, aggregate_meaning};
ghost use Rattle.operator_meaning.specs.aggregates.Groups.{group_of};

/// What aggregates give is their outcome in words: a point for each group that stays, or the least group that is out of
/// range, or that there are too many points.
pub fn meanings_are_outcomes()
    ensures { (a : CheckedAggregate) (components : List Component) (x : DataSet) →
        IsOutcome {R = key_cmp} (aggregate_working a components x).beyond (aggregate_working a components x).value (aggregate_meaning a components x) }
{}

/// Of an empty data set the result is empty.
pub fn nothing_comes_of_nothing()
    ensures { (a : CheckedAggregate) (components : List Component) → aggregate_meaning a components empty ≡ Made empty }
{}

/// The result has no more points than the data set, and so it never has too many.
pub fn points_stay_few()
    ensures no_more { (a : CheckedAggregate) (components : List Component) (x y : DataSet) →
        aggregate_meaning a components x ≡ Made y → len y ≤ len x }
    ensures not_too_many { (a : CheckedAggregate) (components : List Component) (x : DataSet) →
        len x ≤ POINT_LIMIT → aggregate_meaning a components x ≢ TooMany }
{}

/// What well typed aggregates give on a data set of a structure is of the components that they leave, and has at most
/// 200,000 points.
pub fn results_fit()
    ensures { (a : CheckedAggregate) (components : List Component) (x y : DataSet) → IsStructure components → is_well_typed components a ≡ true →
        IsBoundedSetOf components x → aggregate_meaning a components x ≡ Made y → IsBoundedSetOf (grouped a components) y }
{}

/// What a group gives, and whether it is out of range, depends on its own points alone: it is the same on two data sets
/// that have the same points at the keys of the group.
pub fn groups_stand_alone()
    ensures value { (a : CheckedAggregate) (components : List Component) (x y : DataSet) (group : List Value) →
        ((key : List Value) → group_of a.grouping key ≡ group → get x key ≡ get y key) →
        (aggregate_working a components x).value group ≡ (aggregate_working a components y).value group }
    ensures beyond { (a : CheckedAggregate) (components : List Component) (x y : DataSet) (group : List Value) →
        ((key : List Value) → group_of a.grouping key ≡ group → get x key ≡ get y key) →
        (aggregate_working a components x).beyond group ≡ (aggregate_working a components y).beyond group }
{}
