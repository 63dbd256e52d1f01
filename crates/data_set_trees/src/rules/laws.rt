// What holds of rulesets on data sets.
ghost use Rattle.data_set_trees.specs.rules.Laws.{DatapointsGiveStructures, HierarchiesGiveStructures};

/// What the use of a ruleset gives on a data set of a structure is one again.
pub fn given_is_a_structure()
    ensures datapoint { DatapointsGiveStructures }
    ensures hierarchy { HierarchiesGiveStructures }
{}
