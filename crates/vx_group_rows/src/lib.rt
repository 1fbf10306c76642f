//! Tests of a mirrored group over disks in memory: what no clause says, with calls that fail or are cut in turn.
//!
//! They stand apart from the group, which is so proved once and not once more with them.
#![tactic(auto)]

mod crashes;

pub use crashes::{crash_and_import, crash_and_import_again, cut_and_import, import_again};
pub use vx_untold::Untold;

#[cfg(test)]
mod attaches;
#[cfg(test)]
mod creates;
#[cfg(test)]
mod cuts;
#[cfg(test)]
mod fails;
#[cfg(test)]
mod fallen;
#[cfg(test)]
mod helds;
#[cfg(test)]
mod imports;
#[cfg(test)]
mod regains;
#[cfg(test)]
mod rows;
#[cfg(test)]
mod rvgs;
#[cfg(test)]
mod volumes;
