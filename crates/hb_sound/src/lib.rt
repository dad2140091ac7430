//! Sound files: the audit that tells one, and what follows of one, whatever its height and however
//! many pages it has.
//!
//! The one contract: `audit` is Ok exactly on a sound file, and else names the first rule that the
//! file breaks, and the page; and in a sound file each point of the whole space is directly held by
//! exactly one page of each level, and one walk leads to it from the root. Whatever operation of
//! hb_ops is allowed and licensed, the file stays sound: a put, a delete, a split of a page, a posting,
//! a merge of two pages and a new root above the old one (`operations_keep_a_file_sound`). So the laws of `laws` say it.
//! `examples` has files that are sound.
#![tactic(auto)]

mod audits;
mod chains;
mod corners;
mod covers;
pub mod examples;
mod files;
pub mod laws;
mod links;
mod names;
mod page_facts;
mod pages;
mod rests;
mod threads;

pub use audits::{a_sound_file_breaks_no_rule, audit, one_rule_is_named};
pub use pages::{AuditStop, PageStop, Pages};
