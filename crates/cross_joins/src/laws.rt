// What follows from the definitions, for those who build on them.
ghost use Rattle.std.specs.Prelude.{◌≡◌, ◌<◌, ℕ, List, All};
ghost use Rattle.point_sets.specs.Changes.{Changes};
ghost use Rattle.held_index.specs.Holdings.{FitsStructure, Holding};
ghost use Rattle.held_index.specs.Reach.{changes_in};
ghost use Rattle.held_index.specs.Wants.{all_whole};
ghost use Rattle.vtl_values.specs.declared.structure.Component.{Component};
ghost use Rattle.cross_joins.specs.Reach.{cross_reach};

/// What is wanted of an operand is there, whatever its structure.
pub fn wants_fit()
    ensures operand { (count : ℕ) → All (λ w. w.operand < count) (all_whole count) }
    ensures fit { (count : ℕ) (structure : List Component) → All (λ w. FitsStructure w structure) (all_whole count) }
{}

/// Without a change nothing is reached.
pub fn reach_rests()
    ensures { (operands : ℕ) (held : List Holding) (news : List Changes) → changes_in news ≡ 0 → cross_reach operands held news ≡ 0 }
{}
