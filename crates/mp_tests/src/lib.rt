//! Tests of the crates of rows, pages, words and texts, by their public calls. They stand in a crate of their own,
//! since a crate with tests is proved twice: once for the crates above it, and once more with its tests.
#![tactic(auto)]

#[cfg(test)]
mod cells;
#[cfg(test)]
mod core_pages;
#[cfg(test)]
mod core_trx;
#[cfg(test)]
mod model;
#[cfg(test)]
mod page;
#[cfg(test)]
mod redo;
#[cfg(test)]
mod report;
#[cfg(test)]
mod script;
