// Bytes and parts of a slice as every crate reads them; specs/ has the laws that all of them cite.
#![tactic(auto)]

ghost use Rattle.std.specs.Prelude.{◌≡◌, ◌+◌, ◌^◌, ◌<◌, ◌≤◌, length, get_or, drop};
ghost use Rattle.base.specs.Bytes.{be_at};
ghost use Rattle.base.specs.Every.{same_to};
ghost use Rattle.base.specs.Parts.{part, most_moved};

// The number that N bytes make, from place i on.
pub fn be<const N: usize>(d: &[u8], i: usize) -> u64
    requires { (i + N ≤ length d.now) × (N ≤ 8) }
    ensures { (result ≡ be_at N d.now i) × (result < 256 ^ N) }
{
    let mut bytes = [0u8; 8];
    bytes[8 - N..].copy_from_slice(&d[i..i + N]);
    u64::from_be_bytes(bytes)
}

// The byte at place i; 0 beyond the end.
pub fn byte_or_zero(d: &[u8], i: usize) -> u64
    ensures { (result ≡ get_or d.now i 0) × (result < 256) }
{
    u64::from(d.get(i).copied().unwrap_or(0))
}

// What follows the first n bytes; nothing beyond the end.
pub fn behind(d: &[u8], n: usize) -> &[u8]
    ensures { result.now ≡ drop n d.now }
{
    &d[n.min(d.len())..]
}

// The part of so many bytes that starts at a place; what lies beyond the end is left out.
pub fn fragment(d: &[u8], start: usize, length: usize) -> &[u8]
    ensures { result.now ≡ part start length d.now }
{
    let t = behind(d, start);
    &t[..length.min(t.len())]
}

// Whether two slices of one length have the same bytes.
pub fn same_bytes(a: &[u8], b: &[u8]) -> bool
    requires { length a.now ≡ length b.now }
    ensures { result ≡ same_to a.now b.now (length a.now) }
{
    a == b
}

// ---- bytes moved

// How many bytes one move may have: as many as a message.
pub const MOST_MOVED: usize = 16384;

// Copies a slice over another of the same length. The array between them overlaps neither: the compiler makes one memmove of it all, and no
// array, where one copy from slice to slice tests whether the two overlap.
pub fn move_bytes(src: &[u8], dst: &mut [u8])
    requires { (length src.now ≡ length dst.old) × (length src.now ≤ most_moved) }
    ensures { dst.new ≡ src.now }
{
    let n = src.len();
    let mut b = [0u8; MOST_MOVED];
    b[..n].copy_from_slice(src);
    dst.copy_from_slice(&b[..n]);
}
