// A join on its way.
use data_set_trees::DataSet;
use data_set_trees::clauses::Frame;
use expression_rules::PointClause;
use sqlite_items::Items;
use vtl_syntax::words::JoinFunction;
use vtl_values::Place;

/// A join whose operands are checked: its function and its word's place, its data sets, and the frame that the first clause
/// inside works on.
#[derive(Drop)]
pub struct Joining {
    pub function: JoinFunction,
    pub place: Place,
    pub sets: Items<DataSet>,
    pub frame: Frame,
}

/// A clause inside, checked, at the place of its word.
#[derive(Drop)]
pub struct Placed {
    pub clause: PointClause,
    pub place: Place,
}
