// Points.
use crate::key::Key;
use sqlite_items::Items;
use vtl_values::Value;

/// A point of a data set: its key, and the values of the components after the identifiers, in structure order.
#[derive(Debug)]
pub struct Point {
    pub key: Key,
    pub rest: Items<Value>,
}

// Written out, so that who drops one calls this and doesn't go through what is in it.
impl Drop for Point {
    fn drop(self) {
        let Point { key: _, rest: _ } = self;
    }
}
