//! Settling a link, event by event: what is left to do behind each, where it ends, and what holds of it over disks that tell no contents. And that lines over groups of disks keep
//! worlds good. It has laws alone.
#![tactic(auto)]

pub mod between_laws;
pub mod ends_laws;
pub mod good_laws;
pub mod left_laws;
pub mod note_laws;
pub mod short_laws;
pub mod works_laws;
