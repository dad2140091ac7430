//! The body of a superblock as bytes.
ghost use Rattle.std.specs.Prelude.{◌≡◌, ℕ, ◌+◌, ◌<◌, ◌≤◌, ◌^◌, length, slice_range};
ghost use Rattle.hb_lemmas.specs.Numbers.{big_endian};
ghost use Rattle.hb_layout.specs.declared.meta.Meta.{Meta as Said};
ghost use Rattle.hb_super.specs.Superblocks.{IsLegal, FitsNumbers, body_bytes};

use hb_layout::Meta;
use hb_outside::{give_u16, give_u32, take_u16, take_u32};
use hb_space::form::VERSION;

/// Bytes of a body.
pub(crate) const BODY: usize = 40;

/// What each body begins with.
const MAGIC: [u8; 8] = *b"HBPITREE";

/// The body of a turn.
pub(crate) fn body_of(turn: u8, meta: &Meta) -> [u8; BODY]
    ensures { result ≡ body_bytes turn meta.now }
{
    let mut body = [0; BODY];
    body[..8].copy_from_slice(&MAGIC);
    body[8] = VERSION;
    body[9] = turn;
    body[10] = meta.k;
    body[11] = meta.height;
    give_u32(&mut body, 12, meta.pages);
    give_u32(&mut body, 16, meta.log);
    give_u16(&mut body, 20, meta.dcap);
    give_u16(&mut body, 22, meta.icap);
    give_u32(&mut body, 24, meta.root);
    give_u32(&mut body, 28, meta.high);
    give_u32(&mut body, 32, meta.live);
    give_u32(&mut body, 36, meta.free);
    body
}

/// The turn and the fields that a body has, where it is one.
pub(crate) fn fields_of(body: &[u8]) -> (u8, Meta)
    requires { length body.now ≡ 40 }
    ensures exact { (turn : ℕ) (meta : Said) → IsLegal turn meta → body.now ≡ body_bytes turn meta → result ≡ (turn, meta) }
    ensures numbers { FitsNumbers result.1 }
{
    let meta = Meta {
        k: body[10],
        pages: u32_at(body, 12),
        log: u32_at(body, 16),
        dcap: u16_at(body, 20),
        icap: u16_at(body, 22),
        root: u32_at(body, 24),
        height: body[11],
        high: u32_at(body, 28),
        live: u32_at(body, 32),
        free: u32_at(body, 36),
    };
    (body[9], meta)
}

/// The number of four bytes at a place.
fn u32_at(bytes: &[u8], at: usize) -> u32
    requires { at + 4 ≤ length bytes.now }
    ensures { (n : ℕ) → n < 2 ^ 32 → slice_range bytes.now at (at + 4) ≡ big_endian 4 n → result ≡ n }
{
    take_u32(bytes, at).unwrap()
}

/// The number of two bytes at a place.
fn u16_at(bytes: &[u8], at: usize) -> u16
    requires { at + 2 ≤ length bytes.now }
    ensures { (n : ℕ) → n < 2 ^ 16 → slice_range bytes.now at (at + 2) ≡ big_endian 2 n → result ≡ n }
{
    take_u16(bytes, at).unwrap()
}
