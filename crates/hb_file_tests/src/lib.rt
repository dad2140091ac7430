//! The tests of hb_pool, hb_store, hb_restart and hb_sound: pools, logs, stores and files by hand, with what comes of them.
//!
//! They stand in a crate of their own, since a crate with tests is proved twice. No contract is here.
#![tactic(auto)]

#[cfg(test)]
mod audits;
#[cfg(test)]
mod boxes;
#[cfg(test)]
mod crowds;
#[cfg(test)]
mod driven_trees;
#[cfg(test)]
mod drives;
#[cfg(test)]
mod fetches;
#[cfg(test)]
mod forces;
#[cfg(test)]
mod groups;
#[cfg(test)]
mod homes;
#[cfg(test)]
mod joined;
#[cfg(test)]
mod logs;
#[cfg(test)]
mod openings;
#[cfg(test)]
mod orders;
#[cfg(test)]
mod pools;
#[cfg(test)]
mod rows;
#[cfg(test)]
mod sources;
#[cfg(test)]
mod spelled_files;
#[cfg(test)]
mod stores;
#[cfg(test)]
mod switches;
