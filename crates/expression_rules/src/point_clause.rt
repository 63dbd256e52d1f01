// Clauses on the points of a data set.
use data_set_trees::clauses::CheckedClause;
use data_set_trees::windows::CheckedWindow;

/// What a clause other than `aggr` is checked to be: one that works on each point by itself, or a `calc` with an item that
/// is analytic, which works on a point with those of its part.
#[derive(Drop)]
pub enum PointClause {
    Alone(CheckedClause),
    Analytic(CheckedWindow),
}
