//! The missed regions of a volume: for each plex, which regions were written since it was detached, noted durably before they are written.
//!
//! A region is 64 blocks. The maps lie where the configuration has the volume's log of missed regions, plex after plex. Memory is taken by
//! `load` alone.
#![tactic(auto)]

mod fmr;

pub use fmr::Fmr;
