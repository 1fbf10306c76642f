//! The links of the sites in memory: the lines that change them without a disk.
//!
//! A site is what the tests of a line see of it, with its links in the order of their making, and goes by its name. Each call of a line
//! takes one that no test refuses. Beside them stand the calls that find a link and keep it as it was changed over disks. None takes
//! memory.
#![tactic(auto)]

mod attaching;
mod connecting;
mod converting;
mod cutting;
mod greeting;
mod growing;
mod hearing;
mod holding;
mod keeping;
mod kept;
pub mod laws;
mod making;
mod parts;
mod pausing;
mod pumped;
mod restarting;
mod resuming;
mod seats;
mod states;
mod ticking;
mod turning;
mod waiting;

pub use attaching::{attach, detach, replay};
pub use connecting::connect;
pub use converting::{convert_links, map_places};
pub use cutting::cut;
pub use growing::note_links;
pub use hearing::{hearing_link, keep_heard};
pub use holding::{awaits_write, hold_of_site};
pub use keeping::{link_between, put_link};
pub use kept::{kept_facts, kept_further, kept_link, kept_with};
pub use making::{new_link, opened, with_setting};
pub use parts::{keep_joined, keep_made, keep_marked, keep_opened, keep_set};
pub use pausing::pause;
pub use pumped::{keep_pumped, link_named};
pub use restarting::{are_fine, restart_links};
pub use resuming::resume;
pub use seats::find_seat;
pub use states::{join_state, mark_state, with_links};
pub use ticking::tick;
pub use waiting::wait;
