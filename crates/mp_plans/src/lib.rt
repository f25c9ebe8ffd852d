//! Plans: lists of changes of pages, as definitions for contracts. What a plan leaves of a page is what that page's own
//! changes leave of it. A plan that puts one row into a tree of pages, or puts one row back, is defined here for every
//! layer that makes such plans, logs them, or relies on them.
#![tactic(auto)]

mod laws;

pub use laws::{law_plan_by_page, law_restore, law_three_levels, law_well_put_examples, law_write};
