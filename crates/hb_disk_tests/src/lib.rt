//! The tests of hb_outside, hb_disk, hb_wal and hb_super, and nothing else. They stand here since a crate with tests is
//! proved twice, once without them: of this crate nothing is left then.
//!
//! A table has rows, each `QUESTION => ANSWER`, and each answer was worked out by hand. `streams`,
//! `numbers`, `disks`, `logs` and `supers` have the tables, and what answers their questions. `rows`
//! goes through them in the one test, since each test is proved too, and `replies` reads the questions and
//! keeps what is said of them.
#![tactic(auto)]

#[cfg(test)]
mod disks;
#[cfg(test)]
mod logs;
#[cfg(test)]
mod numbers;
#[cfg(test)]
mod replies;
#[cfg(test)]
mod rows;
#[cfg(test)]
mod streams;
#[cfg(test)]
mod supers;
