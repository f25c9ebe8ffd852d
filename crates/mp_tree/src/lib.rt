//! The tree of pages: searches in it, and the plans of changes that write one row. Pages come from a `Pager`.
#![tactic(auto)]

mod changes;
mod clear;
mod growth;
mod halves;
mod laws;
mod leaf;
mod new_pages;
mod plan;
mod restore;
mod search;
mod write;

pub use laws::law_plan_size;
pub use leaf::{row_in, rows_in};
pub use plan::Plan;
pub use restore::plan_restore;
pub use search::{LeafRows, Look, find, look_at, rows_from};
pub use write::{PlanKind, PlanRefusal, Write, plan_write};
