//! Tests of bursts of threads, over engines and peers in memory.
//!
//! They stand apart from the crates that they test, which are so proved once and not once more with them.
#![tactic(auto)]

#[cfg(test)]
mod shut;
#[cfg(test)]
mod small;
