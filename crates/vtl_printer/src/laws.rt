// The law of printing.
ghost use Rattle.vtl_printer.specs.ReadBack.{PrintsOnce};

/// Scripts that are the same apart from places are printed alike.
pub fn prints_once()
    ensures { PrintsOnce }
{}
