// What a conditional comes to.
use data_set_trees::ChoiceMeasure;
use sqlite_items::Items;
use vtl_values::Structure;

/// The measures of a conditional on data sets, and the structure of its result.
#[derive(Drop)]
pub(crate) struct Chosen {
    pub(crate) items: Items<ChoiceMeasure>,
    pub(crate) structure: Structure,
}
