// What holds of operators on time series.
ghost use Rattle.data_set_trees.specs.times.Laws.{GivesStructures};

/// What an operator on time series gives on a data set of a structure is one again.
pub fn given_is_a_structure()
    ensures { GivesStructures }
{}
