//! What the lines of a script make of a site with a replicated volume group over a group of disks: how what the site notes of its group moves, which failed
//! calls a mirror bears, what the tests of later lines see, and what the status of a site shows.
#![tactic(auto)]

mod site_view;
mod views;

pub use site_view::{full_at, view_at};
pub use views::ViewRoom;
