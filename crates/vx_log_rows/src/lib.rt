//! Tests of the log and its blocks, of a group behind it, of a site that receives, and of the replay of a change map.
//!
//! They stand apart from the crates that they test, which are so proved once and not once more with them.
#![tactic(auto)]

#[cfg(test)]
mod log_blocks;
#[cfg(test)]
mod overlay;
#[cfg(test)]
mod receiver;
#[cfg(test)]
mod regions;
#[cfg(test)]
mod replays;
#[cfg(test)]
mod ringio;
#[cfg(test)]
mod rvg;
#[cfg(test)]
mod secondary;
#[cfg(test)]
mod srl;
#[cfg(test)]
mod srlfmt;
