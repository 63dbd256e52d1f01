// The laws of the function that gives cycles.
ghost use Rattle.shortest_cycles.specs.Cycles.{FindsShortest, FindsCycles};

/// The cycle that it gives for a number is the first of the shortest ones of this number.
pub fn cycles_are_shortest()
    ensures { FindsShortest }
{}

/// It gives a cycle of each number that comes to itself.
pub fn cycles_are_found()
    ensures { FindsCycles }
{}
