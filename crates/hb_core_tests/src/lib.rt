//! The tests of hb_core: what a caller does to a core between two steps.
//!
//! They stand in a crate of their own, since a crate with tests is proved twice. No contract is here.
#![tactic(auto)]

#[cfg(test)]
mod between;
#[cfg(test)]
mod cores;
