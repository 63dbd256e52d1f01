// What follows from the definitions, for those who build on them.
ghost use Rattle.std.specs.Prelude.{List};
ghost use Rattle.std.specs.FinMap.{empty};
ghost use Rattle.structured_sets.specs.Fitting.{IsSetOf};
ghost use Rattle.vtl_values.specs.declared.structure.Component.{Component};

/// The data set without points is one of every structure.
pub fn the_empty_set_fits()
    ensures { (components : List Component) → IsSetOf components empty }
{}
