//! Tests of scripts and of replies, by their worked texts.
//!
//! They stand apart from the crates that they test, which are so proved once and not once more with them.
#![tactic(auto)]

#[cfg(test)]
mod blocks;
#[cfg(test)]
mod links;
#[cfg(test)]
mod order;
#[cfg(test)]
mod order_groups;
#[cfg(test)]
mod order_links;
#[cfg(test)]
mod order_sites;
#[cfg(test)]
mod refusals;
#[cfg(test)]
mod script;
#[cfg(test)]
mod statuses;
