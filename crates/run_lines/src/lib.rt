// Text that the programs read and write: a line is a letter, a space and bytes in lowercase hexadecimal.
#![tactic(auto)]

ghost use Rattle.std.specs.Prelude.{◌≡◌, ◌==◌, position, ℕ, ◌+◌, ◌%◌, ◌<◌, length, get_or, set, take, drop};
ghost use Rattle.std.proofs.lemmas.List.Edits.{sets};
ghost use Rattle.base.specs.Bytes.{be_at};
ghost use Rattle.run_lines.specs.Lines.{line_in, reach, digit_of, bytes_of, hex_digit, line_of, line_len};

// Buffers are lent, and a place goes in and the place behind comes out: vectors can fail, and a struct that held the lent buffer would need clauses on
// what its borrow leaves.

// A byte written at a place of a lent buffer, and the place behind it; where the buffer is full it is left out.
pub fn push(out: &mut [u8], at: usize, b: u8) -> usize
    ensures { (result ≡ reach at 1 (length out.old)) × (out.new ≡ set out.old at b) }
{
    if at < out.len() {
        out[at] = b;
        return at + 1;
    }
    at
}

// Bytes written one behind the other.
pub fn push_all(out: &mut [u8], at: usize, d: &[u8]) -> usize
    ensures { (result ≡ reach at (length d.now) (length out.old)) × (out.new ≡ sets out.old at d.now) }
{
    if out.len() <= at {
        return at;
    }
    let n = d.len().min(out.len() - at);
    out[at..at + n].copy_from_slice(&d[..n]);
    at + n
}

// The byte at a place; 0 beyond the end.
pub fn get1(d: &[u8], i: usize) -> u8
    ensures { result ≡ get_or d.now i 0 }
{
    d.get(i).copied().unwrap_or(0)
}

// The N bytes from a place on; 0 for those beyond the end.
pub fn bytes_at<const N: usize>(d: &[u8], i: usize) -> [u8; N]
    ensures { (k : ℕ) → k < N → get_or result k 0 ≡ get_or d.now (i + k) 0 }
{
    let mut bytes = [0; N];
    push_all(&mut bytes, 0, base::behind(d, i));
    bytes
}

// The number that two bytes from a place on make, the highest first.
pub fn u16_at(d: &[u8], i: usize) -> u16
    ensures { result ≡ be_at 2 d.now i }
{
    u16::from_be_bytes(bytes_at(d, i))
}

pub fn u32_at(d: &[u8], i: usize) -> u32
    ensures { result ≡ be_at 4 d.now i }
{
    u32::from_be_bytes(bytes_at(d, i))
}

pub fn u64_at(d: &[u8], i: usize) -> u64
    ensures { result ≡ be_at 8 d.now i }
{
    u64::from_be_bytes(bytes_at(d, i))
}

// The first n bytes of a buffer, or all of them.
pub fn front(d: &mut [u8], n: usize) -> &mut [u8]
    ensures { result.now ≡ take n d.old }
{
    let m = n.min(d.len());
    &mut d[..m]
}

// What a hex digit stands for.
#[tactic(auto, unfolding(crate::specs::Lines::digit_of, base::specs::Choose::choose))]
fn digit(b: u8) -> u8
    ensures { (result ≡ digit_of b) × (result < 16) }
{
    if b < 97 {
        return b % 16;
    }
    (b % 16 + 9) % 16
}

// The bytes that hex digits make, and how many there are.
pub fn decode(digits: &[u8], out: &mut [u8]) -> usize
    ensures { (result ≡ reach 0 (length (bytes_of digits.now)) (length out.old)) × (out.new ≡ sets out.old 0 (bytes_of digits.now)) }
{
    let mut n = 0;
    let mut rest = digits;
    while let [high, low, more @ ..] = rest {
        n = push(out, n, digit(*high) * 16 + digit(*low));
        rest = more;
    }
    n
}

// The last digit of a number.
#[tactic(auto, unfolding(crate::specs::Lines::hex_digit, base::specs::Choose::choose))]
fn hex(v: u8) -> u8
    ensures { result ≡ hex_digit (v % 16) }
{
    let d = v % 16;
    if d < 10 {
        return b'0' + d;
    }
    b'a' + (d - 10)
}

// A line, and its length.
pub fn encode(letter: u8, d: &[u8], out: &mut [u8]) -> usize
    ensures { (result ≡ reach 0 (length (line_of letter d.now)) (length out.old)) × (out.new ≡ sets out.old 0 (line_of letter d.now)) }
{
    let mut n = push(out, 0, letter);
    n = push(out, n, b' ');
    for b in d {
        n = push(out, n, hex(b / 16));
        n = push(out, n, hex(*b));
    }
    push(out, n, b'\n')
}

// The line in a lent buffer, as far as it fits.
pub fn line<'a>(letter: u8, d: &[u8], out: &'a mut [u8]) -> &'a [u8]
    ensures { result.now ≡ take (length out.old) (line_of letter d.now) }
{
    let n = encode(letter, d, out);
    &out[..n]
}

// Where the first newline stands.
fn newline(text: &[u8]) -> Option<usize>
    ensures { result ≡ position (λ b. b == 10) text.now }
{
    text.iter().position(|b| *b == b'\n')
}

// The length of the first line, without its newline.
pub fn line_len(text: &[u8]) -> usize
    ensures { result ≡ line_len text.now }
{
    newline(text).unwrap_or(text.len())
}

// A line's letter, and its bytes in a lent buffer, as many as fit.
pub fn read<'a>(text: &[u8], out: &'a mut [u8]) -> (u8, &'a [u8])
    ensures letter { result.0 ≡ get_or (line_in text.now) 0 0 }
    ensures bytes { result.1.now ≡ take (length out.old) (bytes_of (drop 2 (line_in text.now))) }
{
    let line = base::fragment(text, 0, line_len(text));
    let n = decode(base::behind(line, 2), out);
    (get1(line, 0), &out[..n])
}
