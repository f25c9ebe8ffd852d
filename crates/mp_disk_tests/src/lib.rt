//! Tests of the crates of disks, stores, logs and files, by their public calls. They stand in a crate of their own, as
//! those of `mp_tests` do.
#![tactic(auto)]

#[cfg(test)]
mod files;
#[cfg(test)]
mod log;
#[cfg(test)]
mod outside;
#[cfg(test)]
mod store;
