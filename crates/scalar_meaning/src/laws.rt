// What holds of all expressions.
ghost use Rattle.scalar_meaning.specs.Kept.{KeepsKinds, PointsAreRows};

/// A well typed expression meets no value of another kind: on a row of the kinds that it was checked for, its value is
/// null, or of its kind and within its range, or is out of range.
pub fn kinds_are_kept()
    ensures { KeepsKinds }
{}

/// A point whose values are null, or of the kinds of their columns, is a row for what is checked on points.
pub fn points_are_rows()
    ensures { PointsAreRows }
{}
