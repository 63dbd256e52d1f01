// What follows from the definitions, for those who build on them.
ghost use Rattle.std.specs.Prelude.{◌≡◌, ◌<◌, List, length, map, slice_index_or, All};
ghost use Rattle.vtl_values.specs.declared.structure.Component.{Component};
ghost use Rattle.data_set_trees.specs.checked.Operators.{Operator, IsTyped};
ghost use Rattle.point_sets.specs.Changes.{Changes};
ghost use Rattle.point_sets.specs.DataSets.{DataSet};
ghost use Rattle.held_index.specs.Holdings.{holding_of, FitsStructure, Holding};
ghost use Rattle.held_index.specs.Reach.{changes_in};
ghost use Rattle.operator_meaning.specs.joins.Joins.{JoinOn};
ghost use Rattle.pair_ops.specs.Reach.{matching_reach};
ghost use Rattle.inner_joins.specs.Reach.{inner_reach};
ghost use Rattle.inner_joins.specs.Rules.{main_number, wanted_of, wants_on, IsInner, IsInnerOn};

/// What is wanted is wanted of operands that there are, and fits their structures.
pub fn wants_fit()
    ensures operand { (o : Operator) → IsTyped o → IsInner o.operator → All (λ w. w.operand < length o.operands) (wanted_of o) }
    ensures fit { (o : Operator) → IsTyped o → IsInner o.operator → All (λ w. (s : List Component) → FitsStructure w (slice_index_or o.operands w.operand s)) (wanted_of o) }
{}

/// Without a change nothing is reached.
pub fn reach_rests()
    ensures { (j : JoinOn) (held : List Holding) (news : List Changes) → changes_in news ≡ 0 → inner_reach j held news ≡ 0 }
{}

/// For what is held of data sets the reach is that of every operator whose points are found by identifiers in common.
pub fn reach_is_matching()
    ensures { (j : JoinOn) (xs : List DataSet) (news : List Changes) → IsInnerOn j → length news ≡ length j.operands →
        inner_reach j (map (holding_of xs) (wants_on j)) news ≡ matching_reach j.operands (main_number j) (map (holding_of xs) (wants_on j)) news }
{}
