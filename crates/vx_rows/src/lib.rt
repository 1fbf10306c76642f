//! Tests of the whole call, from the words to the replies, each by a short script whose replies were worked out by hand.
#![tactic(auto)]

#[cfg(test)]
mod bytes;
#[cfg(test)]
mod disks;
#[cfg(test)]
mod ends;
#[cfg(test)]
mod files;
#[cfg(test)]
mod fuses;
#[cfg(test)]
mod groups;
#[cfg(test)]
mod halves;
#[cfg(test)]
mod limits;
#[cfg(test)]
mod lines;
#[cfg(test)]
mod links;
#[cfg(test)]
mod loss;
#[cfg(test)]
mod outages;
#[cfg(test)]
mod recovery;
#[cfg(test)]
mod replies;
#[cfg(test)]
mod row;
#[cfg(test)]
mod scripts;
#[cfg(test)]
mod sessions;
#[cfg(test)]
mod statuses;
#[cfg(test)]
mod unlinked;
#[cfg(test)]
mod words;
#[cfg(test)]
mod wrong;
