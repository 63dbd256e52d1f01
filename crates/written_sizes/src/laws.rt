// The laws of sizes.
ghost use Rattle.written_sizes.specs.Laws.{OutlinesAreReplaced, FaultsAreExact};

/// The outlines of the written-out script are those of the script with their calls replaced.
pub fn outlines_are_replaced()
    ensures { OutlinesAreReplaced }
{}

/// No fault of size is told exactly where the written-out script has at most 64 levels in each expression and at most
/// 1,000,000 expressions.
pub fn faults_are_exact()
    ensures { FaultsAreExact }
{}
