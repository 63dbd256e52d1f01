// What pieces and places are like.
ghost use Rattle.vtl_lexer.specs.Laws.{CountsPlaces, IsLongest};

/// A piece is as long as possible: no front of the text that is one piece by itself is longer.
pub fn pieces_are_longest()
    ensures { IsLongest }
{}

/// The line of a place is counted by the line ends before it, and its column by the bytes after the last of them.
pub fn counts_places()
    ensures { CountsPlaces }
{}
