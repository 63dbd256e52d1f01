// What holds of frames after clauses.
ghost use Rattle.data_set_trees.specs.clauses.Laws.{
  LeavesStructures,
  OrdersStructures,
  CalcGivesStructures,
  RenameGivesStructures,
  UnpivotGivesStructures,
  MeasuresGiveStructures,
};

/// What `keep`, `drop` and `sub` leave of the components of a data set are the components of a data set: any that pass,
/// in their order.
pub fn left_is_a_structure()
    ensures { LeavesStructures }
{}

/// Components that fit together, in whatever order, are by role those of a data set.
pub fn ordered_is_a_structure()
    ensures { OrdersStructures }
{}

/// What a clause makes or changes on a data set of a structure is one again: what typing gives for `calc`, `rename` and
/// `unpivot`, and measures with names of their own.
pub fn made_is_a_structure()
    ensures calc { CalcGivesStructures }
    ensures rename { RenameGivesStructures }
    ensures unpivot { UnpivotGivesStructures }
    ensures measures { MeasuresGiveStructures }
{}
