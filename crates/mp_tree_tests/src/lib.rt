//! Tests of trees of pages, by the public calls of `mp_tree` over a store in memory. They stand in a crate of their own,
//! as those of `mp_tests` do.
#![tactic(auto)]

#[cfg(test)]
mod tree;
#[cfg(test)]
mod tree_memory;
