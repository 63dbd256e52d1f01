//! What typing gives for data sets fits: the law.
//!
//! It stands on `data_set_trees::checked`, which says what the trees of checked scripts have to be, and on
//! `data_set_trees`, which says what an expression is checked to be. `laws` joins the two: where names stand for data
//! sets that fit, so does what an expression is checked to be. `specs/Fitting.antt` says what fits, and
//! `literal_ranges` which literals may stand in an expression.
#![tactic(auto)]

pub mod laws;
