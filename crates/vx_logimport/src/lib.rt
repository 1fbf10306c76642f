//! The import of a group by the dirty region logs of its volumes: of a volume that stopped uncleanly the regions alone are copied that its log
//! has, and all of them where no log can be read.
#![tactic(auto)]

mod crashing;
mod importing;
mod reading;
mod rested;

pub use crashing::{crash_told, revive_told};
pub use importing::{Marked, import_marked};
pub use reading::{lies_within, read_logs};
pub use rested::Rested;
