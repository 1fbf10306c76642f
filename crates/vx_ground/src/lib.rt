//! A group of disks as the ground of a replicated volume group: a shelf of its volumes, with an account of what is done to the group.
//!
//! A replicated volume group knows its shelf by its meaning alone. So for the time of a call on it the group is a `Ground`, which keeps, in
//! proofs alone, what became of its configuration since the call began. `work_over` does so with any `Work` on a shelf.
#![tactic(auto)]

mod calls;
mod founding;
mod ground;
mod lifting;
mod naming;
mod numbers;
mod work;
mod writing_over;

pub use founding::Founding;
pub use ground::Ground;
pub use lifting::work_over;
pub use naming::{can_name, name_over, name_rvg};
pub use work::Work;
pub use writing_over::write_over;
