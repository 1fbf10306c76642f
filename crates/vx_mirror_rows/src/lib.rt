//! Tests of sites over groups of mirrors, from the words to the replies, with calls that fail or are cut in turn.
//!
//! They stand apart from the other tests of the whole call, and are checked beside them.
#![tactic(auto)]

#[cfg(test)]
mod cuts;
#[cfg(test)]
mod failing;
#[cfg(test)]
mod fused;
#[cfg(test)]
mod kept;
#[cfg(test)]
mod mirrors;
