//! A run of a number's script on a thread for each primary, and what recovery makes of it.
#![tactic(auto)]

#[cfg(test)]
mod runs;
