// What holds of aggregates.
ghost use Rattle.data_set_trees.specs.aggregates.Laws.{GivesStructures};

/// What aggregates give on a data set of a structure is one again.
pub fn grouped_is_a_structure()
    ensures { GivesStructures }
{}
