//! The tests of hb_set, hb_text, hb_gen, hb_latch, hb_boxlock, hb_activity, hb_point, hb_search, hb_poster and hb_consol: sets of
//! records, texts and outputs, latches, locks on boxes, activities, jobs and deciders by hand.
//!
//! They stand in a crate of their own, since a crate with tests is proved twice. No contract is here.
#![tactic(auto)]

#[cfg(test)]
mod activities;
#[cfg(test)]
mod boxes_locked;
#[cfg(test)]
mod deciders;
#[cfg(test)]
mod generated;
#[cfg(test)]
mod jobs;
#[cfg(test)]
mod latches;
#[cfg(test)]
mod mergers;
#[cfg(test)]
mod outputs;
#[cfg(test)]
mod plain_list;
#[cfg(test)]
mod rows;
#[cfg(test)]
mod scripts;
#[cfg(test)]
mod searches;
#[cfg(test)]
mod sets;
#[cfg(test)]
mod spelled;
#[cfg(test)]
mod texts;
