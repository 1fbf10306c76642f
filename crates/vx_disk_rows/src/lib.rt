//! Tests of disks, of streams, of fields and labels, of configurations and of their copies: over disks and streams in memory, and over files.
//!
//! They stand apart from the crates that they test, which are so proved once and not once more with them.
#![tactic(auto)]

#[cfg(test)]
mod config;
#[cfg(test)]
mod copies;
#[cfg(test)]
mod disk;
#[cfg(test)]
mod files;
#[cfg(test)]
mod labels;
#[cfg(test)]
mod settled;
#[cfg(test)]
mod steps;
#[cfg(test)]
mod streams;
#[cfg(test)]
mod wire;
