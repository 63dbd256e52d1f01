//! Feeds: revisions as text, which data providers send.
//!
//! It stands on `vtl_values` for names and structures, on `point_sets` for revisions, and on the kit's `csv`, which says
//! what the records of a text are. Its contract says for all bytes and all structures which revisions a feed has, or
//! which fault is its first: `specs/Blocks.antt` cuts a text into blocks, `specs/Columns.antt` has the header of a block,
//! `specs/Rows.antt` its rows, and `specs/Feeds.antt` puts them together. A feed is gone through once, block by block and
//! record by record.
#![tactic(auto)]

mod blocks;
mod columns;
pub mod feed;
mod rows;
pub mod stop;
mod table;

pub use feed::read_feed;
pub use stop::{FeedFault, FeedStop};
