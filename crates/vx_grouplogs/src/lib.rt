//! The logs of the volumes of a group: how they are read at an import, marked before a write, and cleared behind a flush.
//!
//! Of a block of which the dirty region log has not the region, each plex that is ACTIVE has the same, whatever a crash leaves.
#![tactic(auto)]

mod beginning;
mod clearing;
mod guarding;
mod loading;
mod mapping;
mod running;
mod zeroing;

pub use beginning::begin_run;
pub use clearing::clear_marks;
pub use guarding::{clear_run, guard_run};
pub use loading::{Loaded, load_marks};
pub use mapping::begin_maps;
pub use running::mark_run;
