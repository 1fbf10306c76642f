//! Tests of sites with a replicated volume group over a group of disks, from the words to the replies.
#![tactic(auto)]

#[cfg(test)]
mod applies;
#[cfg(test)]
mod cut;
#[cfg(test)]
mod deports;
#[cfg(test)]
mod failing;
#[cfg(test)]
mod imports;
#[cfg(test)]
mod kept;
#[cfg(test)]
mod lines;
#[cfg(test)]
mod open;
#[cfg(test)]
mod over_groups;
#[cfg(test)]
mod plexes;
#[cfg(test)]
mod scripts;
#[cfg(test)]
mod vols;
#[cfg(test)]
mod writes;
