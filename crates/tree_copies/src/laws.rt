// The laws of trees that are made anew.
ghost use Rattle.tree_copies.specs.Laws.{Fuses, Stays};

/// A tree that is made from one that was made is made at once.
pub fn makings_fuse()
    ensures { Fuses }
{}

/// A tree stays where its names and calls do.
pub fn trees_stay()
    ensures { Stays }
{}
