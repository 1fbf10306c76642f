//! Tests of volumes, of the maps of their regions, and of what goes by these, over disks in memory.
//!
//! They stand apart from the crates that they test, which are so proved once and not once more with them.
#![tactic(auto)]

#[cfg(test)]
mod bitmap;
#[cfg(test)]
mod dcm;
#[cfg(test)]
mod drl;
#[cfg(test)]
mod fmr;
#[cfg(test)]
mod grouplogs;
#[cfg(test)]
mod groupmaps;
#[cfg(test)]
mod layout;
#[cfg(test)]
mod logs;
#[cfg(test)]
mod mirrors;
#[cfg(test)]
mod resync;
#[cfg(test)]
mod volume;
