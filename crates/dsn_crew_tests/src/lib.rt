//! Tests of books, of marks and disks, of lanes, of agents and their collector, of the post, and of
//! whole crews. They use what their crates make public, so they are proved without these crates'
//! proofs, and beside their wrong edits.
#![tactic(auto)]

#[cfg(test)]
mod assert_same;
#[cfg(test)]
mod bodies;
#[cfg(test)]
mod book;
#[cfg(test)]
mod crew;
#[cfg(test)]
mod desk;
#[cfg(test)]
mod journal;
#[cfg(test)]
mod lane;
#[cfg(test)]
mod ledgers;
#[cfg(test)]
mod letters;
#[cfg(test)]
mod open_logs;
#[cfg(test)]
mod post;
#[cfg(test)]
mod refusing;
