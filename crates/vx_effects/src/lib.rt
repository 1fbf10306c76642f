//! What the events of a line change, place by place: that what holds of the links of every world is kept, and what of one site is changed.
#![tactic(auto)]

pub mod laws;
pub mod link_laws;
pub mod packet_laws;
