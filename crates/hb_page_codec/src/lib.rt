//! Pages as bytes, both ways exactly.
//!
//! The one contract: `decode` answers the page that the bytes spell, and `BadPage` exactly where
//! they spell none; `encode` writes the one spelling of a page. What the bytes of a page are is
//! said by `SpellsPage` of hb_frag: `PAGE` bytes, with zeros behind the last field. `laws` has
//! what follows of it: each page has at most one spelling, bytes spell at most one page, and a
//! page within its capacity always has one.
//!
//! A decoder can't trust its bytes. Each field is tested where it is read: counts against the
//! bytes that are left, attributes against their number, lower values against upper ones, lengths
//! of bodies, tags, the byte that is zero, and all that follows. So memory is wanted only for what
//! the bytes have room for.
//!
//! Invariants: a reader takes the bytes from its place on and hands back those behind what it
//! read, which are fewer. So reading ends, and a fragment is never deeper than its bytes allow: a
//! cut takes 10 of them, and so 4,096 bytes hold fewer than 410 cuts one below the other. A writer
//! takes a place, changes nothing in front of it, and hands back the place behind what it wrote.
#![tactic(auto)]

mod decoding;
mod encoding;
mod errors;
mod fragments;
pub mod laws;
mod numbers;
mod records;
mod threads;

pub use decoding::{decode, head_of};
pub use encoding::{encode, put_record};
pub use errors::PageError;
pub use fragments::{axis_of, count_of};
pub use numbers::{u16_of, u32_of, u64_of};
pub use records::{area_of, point_of, record_of};
