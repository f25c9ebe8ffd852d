//! Tests of recovery, by its public calls. They stand in a crate of their own, as those of `mp_tests` do.
#![tactic(auto)]

#[cfg(test)]
mod recover;
