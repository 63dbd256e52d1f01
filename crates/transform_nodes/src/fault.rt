// Why a statement has no data set.

use point_sets::Key;
use std::sync::Arc;
use vtl_values::Place;

/// The first operator of a statement that has a fault: an evaluation is out of range at the key, or its result has
/// more than 200,000 points. The place is that of the operator.
#[derive(Debug, Drop)]
pub enum NodeFault {
    Range { place: Place, key: Arc<Key> },
    TooMany { place: Place },
}
