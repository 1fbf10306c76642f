//! What the program answers: the words of every refusal, of a block and of a site's status.
//!
//! Each text is one or more lines, each of which ends with a newline.
#![tactic(auto)]

mod blocks;
mod group_room;
mod kept;
mod links;
mod refusals;
mod statuses;
mod view;
mod words;

pub use blocks::{block, push_block};
pub use group_room::{DiskViewRoom, VolumeHead, VolumeViewRoom};
pub use kept::push_kept;
pub use links::push_links;
pub use refusals::{push_refusal, refusal};
pub use statuses::{push_status, status};
pub use view::{
    DiskViews, Kept, LinkView, LinkViewRoom, LinkViews, PlexViews, RvgView, SiteView, VolumeView,
    VolumeViews,
};
pub use vx_model::{SiteName, SiteState};
pub use words::{push_number, push_text};
