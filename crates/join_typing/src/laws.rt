// What holds of frames inside a join.
ghost use Rattle.join_typing.specs.Inside.{KeepsFitting};
ghost use Rattle.join_typing.specs.Joining.{JoinsBySteps};

/// What clauses that typing gives leave of a frame that fits inside a join fits there, clause by clause.
pub fn each_clause_fits()
    ensures { KeepsFitting }
{}

/// A join is what `begin` gives, its clauses one after the other, and then what `finish` gives.
pub fn steps_are_the_join()
    ensures { JoinsBySteps }
{}
