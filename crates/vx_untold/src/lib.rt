//! A shelf as one that tells nothing of its contents, for disks of which it is not known what a crash left on them.
#![tactic(auto)]

mod shade;
mod untold;

pub use shade::Shade;
pub use untold::Untold;
