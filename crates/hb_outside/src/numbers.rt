//! Numbers as bytes, the highest first.
ghost use Rattle.std.specs.Prelude.{◌≡◌, ℕ, List, ◌+◌, ◌^◌, ◌<◌, ◌≤◌, ◌↔◌, ◌++◌, All, Some, length, take, drop, IsSome, IfSome, slice_get, slice_range};
ghost use Rattle.hb_lemmas.specs.Numbers.{big_endian};

use byteorder::{BigEndian, ByteOrder};

/// The bytes of a number are as many as its width says, each below 256, and two numbers that have
/// the same bytes are the same.
pub fn big_endian_law()
    ensures count { (width n : ℕ) → length (big_endian width n) ≡ width }
    ensures bytes { (width n : ℕ) → All (λ b. b < 256) (big_endian width n) }
    ensures injective { (width m n : ℕ) → m < 256 ^ width → n < 256 ^ width →
        big_endian width m ≡ big_endian width n → m ≡ n }
{}

/// The bytes of a number stand where they were given, and all others stay.
pub fn give_law()
    ensures given { (width n at : ℕ) (old : List ℕ) → at ≤ length old →
        slice_range (take at old ++ big_endian width n ++ drop (at + width) old) at (at + width)
        ≡ big_endian width n }
    ensures before { (width n at : ℕ) (old : List ℕ) (i j : ℕ) → j ≤ at → at ≤ length old →
        slice_range (take at old ++ big_endian width n ++ drop (at + width) old) i j
        ≡ slice_range old i j }
    ensures behind { (width n at : ℕ) (old : List ℕ) (i j : ℕ) → at + width ≤ i → at ≤ length old →
        slice_range (take at old ++ big_endian width n ++ drop (at + width) old) i j
        ≡ slice_range old i j }
{}

/// The byte at a place. `None` where there is none.
pub fn take_u8(bytes: &[u8], at: usize) -> Option<u8>
    ensures room { IsSome result ↔ (at + 1 ≤ length bytes.now) }
    ensures exact { result ≡ slice_get bytes.now at }
{
    bytes.get(at).copied()
}

/// The number of two bytes at a place. `None` where fewer follow.
pub fn take_u16(bytes: &[u8], at: usize) -> Option<u16>
    ensures room { IsSome result ↔ (at + 2 ≤ length bytes.now) }
    ensures exact { (n : ℕ) → n < 2 ^ 16 → (result ≡ Some n) ↔
        ((at + 2 ≤ length bytes.now) × (slice_range bytes.now at (at + 2) ≡ big_endian 2 n)) }
{
    Some(u16_of(part(bytes, at, 2)?))
}

/// The number of four bytes at a place. `None` where fewer follow.
pub fn take_u32(bytes: &[u8], at: usize) -> Option<u32>
    ensures room { IsSome result ↔ (at + 4 ≤ length bytes.now) }
    ensures exact { (n : ℕ) → n < 2 ^ 32 → (result ≡ Some n) ↔
        ((at + 4 ≤ length bytes.now) × (slice_range bytes.now at (at + 4) ≡ big_endian 4 n)) }
{
    Some(u32_of(part(bytes, at, 4)?))
}

/// The number of eight bytes at a place. `None` where fewer follow.
pub fn take_u64(bytes: &[u8], at: usize) -> Option<u64>
    ensures room { IsSome result ↔ (at + 8 ≤ length bytes.now) }
    ensures exact { (n : ℕ) → n < 2 ^ 64 → (result ≡ Some n) ↔
        ((at + 8 ≤ length bytes.now) × (slice_range bytes.now at (at + 8) ≡ big_endian 8 n)) }
{
    Some(u64_of(part(bytes, at, 8)?))
}

/// Writes the two bytes of a number at a place.
pub fn give_u16(into: &mut [u8], at: usize, n: u16)
    requires { at + 2 ≤ length into.old }
    ensures { into.new ≡ take at into.old ++ big_endian 2 n ++ drop (at + 2) into.old }
{
    BigEndian::write_u16(&mut into[at..at + 2], n);
}

/// Writes the four bytes of a number at a place.
pub fn give_u32(into: &mut [u8], at: usize, n: u32)
    requires { at + 4 ≤ length into.old }
    ensures { into.new ≡ take at into.old ++ big_endian 4 n ++ drop (at + 4) into.old }
{
    BigEndian::write_u32(&mut into[at..at + 4], n);
}

/// Writes the eight bytes of a number at a place.
pub fn give_u64(into: &mut [u8], at: usize, n: u64)
    requires { at + 8 ≤ length into.old }
    ensures { into.new ≡ take at into.old ++ big_endian 8 n ++ drop (at + 8) into.old }
{
    BigEndian::write_u64(&mut into[at..at + 8], n);
}

/// So many bytes at a place. `None` where fewer follow.
fn part(bytes: &[u8], at: usize, count: usize) -> Option<&[u8]>
    ensures room { IsSome result ↔ (at + count ≤ length bytes.now) }
    ensures count { IfSome result (λ part. length part.now ≡ count) }
    ensures exact { IfSome result (λ part. part.now ≡ slice_range bytes.now at (at + count)) }
{
    bytes.get(at..at.checked_add(count)?)
}

/// The number that two bytes are of.
fn u16_of(bytes: &[u8]) -> u16
    requires { length bytes.now ≡ 2 }
    ensures { (n : ℕ) → n < 2 ^ 16 → (result ≡ n) ↔ (bytes.now ≡ big_endian 2 n) }
{
    BigEndian::read_u16(bytes)
}

/// The number that four bytes are of.
fn u32_of(bytes: &[u8]) -> u32
    requires { length bytes.now ≡ 4 }
    ensures { (n : ℕ) → n < 2 ^ 32 → (result ≡ n) ↔ (bytes.now ≡ big_endian 4 n) }
{
    BigEndian::read_u32(bytes)
}

/// The number that eight bytes are of.
fn u64_of(bytes: &[u8]) -> u64
    requires { length bytes.now ≡ 8 }
    ensures { (n : ℕ) → n < 2 ^ 64 → (result ≡ n) ↔ (bytes.now ≡ big_endian 8 n) }
{
    BigEndian::read_u64(bytes)
}
