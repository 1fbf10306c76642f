//! Tests of packets by their worked bytes, of links, of what they let in and send, and of worlds of several sites.
//!
//! They stand apart from the crates that they test, which are so proved once and not once more with them.
#![tactic(auto)]

#[cfg(test)]
mod flight;
#[cfg(test)]
mod linked;
#[cfg(test)]
mod messages;
#[cfg(test)]
mod packets;
#[cfg(test)]
mod parts;
#[cfg(test)]
mod peers;
#[cfg(test)]
mod policy;
#[cfg(test)]
mod sender;
#[cfg(test)]
mod turning;
#[cfg(test)]
mod world;
