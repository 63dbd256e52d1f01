// What holds of analytic operators.
ghost use Rattle.data_set_trees.specs.windows.Laws.{CalcGivesStructures, MeasuresGiveStructures};

/// What analytic operators give on a data set of a structure is one again.
pub fn made_is_a_structure()
    ensures calc { CalcGivesStructures }
    ensures measures { MeasuresGiveStructures }
{}
