// Numbers in bytes, coordinates, ranges and runs of bytes. Nothing here knows what a map is.
#![tactic(auto)]

ghost use Rattle.std.specs.Prelude.{◌≡◌, ◌+◌, ◌≤◌, ◌<◌, length, replicate};
ghost use Rattle.std.proofs.lemmas.List.Edits.{sets};
ghost use Rattle.std.specs.Int.Signed.{le_z};
ghost use Rattle.numbers.specs.Bytes.{u16_at, u32_at, bytes_of, same_bytes, Zeros, Alike, Tells};
ghost use Rattle.numbers.specs.Coordinates.{signed32, value_of, unmarked};
ghost use Rattle.numbers.specs.Ranges.{share};

// ---- little-endian numbers: of 16 bits and of 32. A trait over the two types, with an impl for each, would be longer than the four functions.

// The sixteen-bit number at a place.
#[tactic(auto, unfolding(crate::specs::Bytes::le_at))]
pub fn u16_at(s: &[u8], at: usize) -> u16
    requires { at + 2 ≤ length s.now }
    ensures { result ≡ u16_at s.now at }
{
    u16::from_le_bytes([s[at], s[at + 1]])
}

// The thirty-two-bit number at a place.
#[tactic(auto, unfolding(crate::specs::Bytes::le_at))]
pub fn u32_at(s: &[u8], at: usize) -> u32
    requires { at + 4 ≤ length s.now }
    ensures { result ≡ u32_at s.now at }
{
    u32::from_le_bytes([s[at], s[at + 1], s[at + 2], s[at + 3]])
}

// The two bytes of a number, stored at a place.
pub fn put_u16_at(s: &mut [u8], at: usize, v: u16)
    requires { at + 2 ≤ length s.old }
    ensures { s.new ≡ sets s.old at (bytes_of 2 v) }
{
    s[at..at + 2].copy_from_slice(&v.to_le_bytes());
}

// The four bytes of a number, stored at a place.
pub fn put_u32_at(s: &mut [u8], at: usize, v: u32)
    requires { at + 4 ≤ length s.old }
    ensures { s.new ≡ sets s.old at (bytes_of 4 v) }
{
    s[at..at + 4].copy_from_slice(&v.to_le_bytes());
}

// ---- coordinates

// Whether one number of 32 bits is at most another, both read as signed.
#[tactic(auto, using(crate::proofs::Coordinates::machine_signed))]
pub fn signed_at_most(a: u32, b: u32) -> bool
    ensures { result ≡ le_z (signed32 a) (signed32 b) }
{
    a.cast_signed() <= b.cast_signed()
}

// The value of a raw coordinate: the shift drops the marks and rounds down.
pub fn value_of(raw: u32) -> i32
    ensures { result ≡ value_of raw }
{
    raw.cast_signed() >> 8
}

// Whether a raw coordinate's value is at most a number.
pub fn value_at_most(raw: u32, z: i32) -> bool
    ensures { result ≡ le_z (value_of raw) z }
{
    value_of(raw) <= z
}

// Whether a raw coordinate's value is at least a number.
pub fn value_at_least(raw: u32, z: i32) -> bool
    ensures { result ≡ le_z z (value_of raw) }
{
    z <= value_of(raw)
}

// Whether one raw coordinate is at most another, by value. The marks of b never decide, so they are left in.
pub fn at_most(a: u32, b: u32) -> bool
    ensures { result ≡ le_z (value_of a) (value_of b) }
{
    signed_at_most(without_marks(a), b)
}

// A raw coordinate without its marks.
#[tactic(auto, unfolding(crate::specs::Coordinates::unmarked))]
pub fn without_marks(raw: u32) -> u32
    ensures { result ≡ unmarked raw }
{
    raw / 256 * 256
}

// The signed number of thirty-two bits.
#[tactic(auto, using(crate::proofs::Coordinates::machine_signed))]
pub fn signed32_of(n: u32) -> i32
    ensures { result ≡ signed32 n }
{
    n.cast_signed()
}

// The signed thirty-two-bit number at a place.
#[tactic(auto, using(crate::proofs::Coordinates::machine_signed))]
pub fn i32_at(s: &[u8], at: usize) -> i32
    requires { at + 4 ≤ length s.now }
    ensures { result ≡ signed32 (u32_at s.now at) }
{
    u32_at(s, at).cast_signed()
}

// ---- ranges

// Whether two ranges share a byte.
#[tactic(auto, unfolding(crate::specs::Ranges::share))]
pub fn ranges_share(a: usize, n: usize, b: usize, k: usize) -> bool
    requires { (a + n < 8589934592) × (b + k < 8589934592) }
    ensures { result ≡ share a n b k }
{
    a.max(b) < (a + n).min(b + k)
}

// ---- runs of bytes

// The bytes of s over the first of d. The library's copy is a call of `memmove`, and the archive for C asks a program for `memset` alone.
pub fn copy_in(d: &mut [u8], s: &[u8])
    requires { length s.now ≤ length d.old }
    ensures { d.new ≡ sets d.old 0 s.now }
{
    for (i, x) in s.iter().enumerate() {
        d[i] = *x;
    }
}

// n zeros over the first of d.
pub fn clear(d: &mut [u8], n: usize)
    requires { n ≤ length d.old }
    ensures { d.new ≡ sets d.old 0 (replicate n 0) }
{
    d[..n].fill(0);
}

// Whether the bytes from a place on are all 0. The loop has no early end, as `all` would have, so that many bytes are looked at at a time.
pub fn all_zero(b: &[u8], from: usize) -> bool
    requires { from ≤ length b.now }
    ensures { Tells result (Zeros b.now from (length b.now)) }
{
    let mut zero = true;
    for x in &b[from..] {
        zero &= *x == 0;
    }
    zero
}

// Whether two slices hold the same bytes from a place to another. The loop has no early end, as the library's comparison has, so that many bytes are compared
// at a time.
fn same_part(a: &[u8], b: &[u8], from: usize, to: usize) -> bool
    requires { (from ≤ to) × (to ≤ length a.now) × (to ≤ length b.now) }
    ensures { Tells result (Alike a.now b.now from to) }
{
    let mut alike = true;
    for i in from..to {
        alike &= a[i] == b[i];
    }
    alike
}

// Whether two slices hold the same bytes. They are compared 512 at a time: a part of a length that the compiler knows becomes vector instructions without a
// loop.
pub fn same(a: &[u8], b: &[u8]) -> bool
    ensures { result ≡ same_bytes a.now b.now }
{
    if a.len() != b.len() {
        return false;
    }
    let parts = a.len() / 512;
    let mut alike = true;
    for k in 0..parts {
        alike &= same_part(a, b, 512 * k, 512 * k + 512);
    }
    alike & same_part(a, b, 512 * parts, a.len())
}
