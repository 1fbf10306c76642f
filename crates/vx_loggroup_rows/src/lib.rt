//! Tests of a group with logs over disks in memory: what an import behind a crash writes, and what becomes of a log of which the disk fails.
//!
//! They stand apart from the group, which is so proved once and not once more with them.
#![tactic(auto)]

#[cfg(test)]
mod cases;
#[cfg(test)]
mod misses;
#[cfg(test)]
mod recovers;
#[cfg(test)]
mod refuses;
#[cfg(test)]
mod returned;
