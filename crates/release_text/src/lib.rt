//! The texts of data sets and of releases: rows, tables, pages and releases.
//!
//! It stands on `vtl_values` for values and structures, on `point_sets` for data sets, on `data_model` for what a delta
//! gives, on `outside` for sinks, and on the kit's `csv`, whose definition of a record's text is that of a row, and
//! `itoa`. Its contracts say each text byte by byte: `specs/Rows.antt` has rows, `specs/Tables.antt` tables and
//! `specs/Releases.antt` pages and releases. `Pages` hold their text whole and are seen as a name, components and a set
//! of points; pages and releases are written without memory, and what was written is a prefix of the text, all of it at
//! Ok. Nothing but want of memory is refused, and a write answers what its sink does.
#![tactic(auto)]

pub mod pages;
pub mod release;
mod row_writer;
pub mod table;

pub use pages::Pages;
pub use release::Release;
pub use table::{rows_text, values_row, words_row};
