// The next handshake message, put together from its pieces, in the host's words and buffer: the parts of a call.
#![tactic(auto)]

ghost use Rattle.std.specs.Prelude.{Ok, true, false, ◌≡◌, ℕ, ◌+◌, ◌≤◌, ◌<◌, length, List};
ghost use Rattle.base.specs.Parts.{splice};
ghost use Rattle.assembly.specs.Spans.{most-pieces, most_bytes, last-number, words, expected_of, count_of, within, covered, all_covered, is_whole, is_same, all_shared};
ghost use Rattle.assembly.specs.Assembly.{outcome, is_sound, headed, held, piece_at, is_fit, is_alike, is_agreed, finished, offered};
ghost use Rattle.assembly_steps.specs.Parts.{ahead, apart, Holder, Reach, Gap, Shared, Measured, Offers};
ghost use Rattle.assembly_steps.specs.Sums.{sum_to};

use assembly::{Piece, PieceError};
use handshake::Header;

// ---- which word is which

pub const WORDS: usize = 106;
// The number expected, how many pieces are held, type and total of the first of them.
pub const EXPECTED: usize = 0;

pub const COUNT: usize = 1;

pub const TYPE: usize = 2;

pub const TOTAL: usize = 3;
// The length of the record that is taken apart, and the place reached in it.
pub const SIZE: usize = 4;

pub const PLACE: usize = 5;
// Offsets and lengths of the pieces held, in two stretches of the words: the C interface has them so.
const OFFSETS: usize = 6;

const LENGTHS: usize = 56;

// ---- limits

// How many pieces of a message are held, and how many bytes it may have.
const MOST_PIECES: usize = 50;

pub const MOST_TOTAL: u64 = 16384;
// No message has this number.
const LAST_NUMBER: u64 = 65535;
// Bytes of a piece's header.
pub const HEADER_LENGTH: usize = 12;

// ---- ranges

// Whether every word is in its range.
#[tactic(auto, unfolding(assembly::specs::Assembly::is_sound, base::specs::Choose::both))]
pub fn is_sound(w: &[u64; WORDS]) -> bool
    ensures { result ≡ is_sound w.now }
{
    w[EXPECTED] <= LAST_NUMBER
        && w[COUNT] <= MOST_PIECES as u64
        && w[TOTAL] <= MOST_TOTAL
        && w[PLACE] <= w[SIZE]
}

// ---- the pieces held

// Whether byte i lies in the n bytes from s on.
#[tactic(auto, unfolding(assembly::specs::Spans::within, base::specs::Choose::both))]
fn is_within(s: u64, n: u64, i: u64) -> bool
    ensures { result ≡ within s n i }
{
    s <= i && i - s < n
}

// The lengths of pieces, each at most t, added up.
fn sum_to(lengths: &[u64], t: u64) -> u64
    requires { (length lengths.now ≤ most-pieces) × (t ≤ most_bytes) }
    ensures { result ≡ sum_to t lengths.now }
{
    lengths.iter().map(|l| (*l).min(t)).sum()
}

// How many of the r bytes from i on lie before s, if s is behind i.
#[tactic(auto, unfolding(base::specs::Choose::choose))]
fn ahead(s: u64, i: u64, r: u64) -> u64
    ensures { result ≡ ahead i r s }
{
    if i < s { r.min(s - i) } else { r }
}

// Whether the l bytes from s on end before o, or begin at e or behind it. By `if`: of `||` and `&&` the compiler made more instructions.
#[tactic(auto, unfolding(crate::specs::Parts::apart, base::specs::Choose::both, base::specs::Choose::either))]
fn is_apart(s: u64, l: u64, o: u64, e: u64) -> bool
    ensures { result ≡ apart s l o e }
{
    if e <= s {
        return true;
    }
    if s <= o {
        return l <= o - s;
    }
    false
}

// The pieces held: the host's words, and how many pieces they have.
#[derive(Clone, Copy)]
struct Pieces<'a> {
    words: &'a [u64; WORDS],
    count: usize,
    ghost few: { count ≤ most-pieces },
}

impl<'a> Pieces<'a> {
    fn new(words: &'a [u64; WORDS]) -> Pieces<'a>
        requires { count_of words.now ≤ most-pieces }
        ensures { (result.words.now ≡ words.now) × (result.count ≡ count_of words.now) }
    {
        let count = words[COUNT] as usize;
        Pieces { words, count }
    }

    // Whether one of them has this offset and this length. From the last on, as the two below: a piece that comes twice is mostly the newest.
    fn is_same(self, o: u64, l: u64) -> bool
        ensures { result ≡ is_same self.entry.words.now self.entry.count o l }
    {
        let w = self.words;
        for k in (0..self.count).rev() {
            if w[OFFSETS + k] == o && w[LENGTHS + k] == l {
                return true;
            }
        }
        false
    }

    // The last of them that has byte i.
    fn holder(self, i: u64) -> Option<usize>
        ensures { Holder self.entry.words.now self.entry.count i result }
    {
        let w = self.words;
        for k in (0..self.count).rev() {
            if is_within(w[OFFSETS + k], w[LENGTHS + k], i) {
                return Some(k);
            }
        }
        None
    }

    // How many bytes from byte i on one of them covers, if one covers it.
    fn reach(self, i: u64) -> Option<u64>
        ensures { Reach self.entry.words.now self.entry.count i result }
    {
        let w = self.words;
        let k = self.holder(i)?;
        Some(w[LENGTHS + k] - (i - w[OFFSETS + k]))
    }

    // Whether they have bytes enough for every place below t: while a message is not whole they mostly have not, which is told in one pass.
    fn is_enough(self, t: u64) -> bool
        ensures { result ≡ false → all_covered self.entry.words.now self.entry.count t ≡ false }
    {
        if MOST_TOTAL < t {
            return true;
        }
        let w = self.words;
        t <= sum_to(&w[LENGTHS..LENGTHS + self.count], t)
    }

    // Whether they cover every byte below t. By place: each round goes on behind the piece that the one before has found.
    fn covers_all(self, t: u64) -> bool
        ensures { result ≡ all_covered self.entry.words.now self.entry.count t }
    {
        if !self.is_enough(t) {
            return false;
        }
        let mut i: u64 = 0;
        while i < t {
            let Some(r) = self.reach(i) else {
                return false;
            };
            let last = t - i <= r;
            if last {
                return true;
            }
            i += r;
        }
        true
    }

    // How many of the l bytes from i on, a byte that none of them covers, lie before the next of them.
    fn gap(self, i: u64, l: u64) -> u64
        requires { (covered self.words.now self.count i ≡ false) × (0 < l) }
        ensures { Gap self.entry.words.now self.entry.count i l result }
    {
        let w = self.words;
        w[OFFSETS..OFFSETS + self.count]
            .iter()
            .fold(l, |r, s| ahead(*s, i, r))
    }

    // The place behind the bytes of a body from i on, to go to o + i, as far as they are all covered or all not; none where they are covered and the
    // buffer has others.
    fn share_run(self, o: usize, b: &[u8], i: usize, d: &[u8]) -> Option<usize>
        requires { (o + length b.now ≤ length d.now) × (length b.now ≤ most_bytes) × (i < length b.now) }
        ensures { Shared self.entry.words.now self.entry.count o b.now d.now i result }
    {
        let at = o + i;
        let left = b.len() - i;
        let Some(s) = self.reach(at as u64) else {
            return Some(i + self.gap(at as u64, left as u64) as usize);
        };
        let g = (s as usize).min(left);
        let e = i + g;
        if base::same_bytes(&b[i..e], &d[at..at + g]) {
            return Some(e);
        }
        None
    }

    // Whether they lie apart from the bytes o to e: most pieces do, which is told in one pass.
    fn is_bare(self, o: u64, e: u64) -> bool
        ensures { result ≡ true → (i : ℕ) → o ≤ i → i < e → covered self.entry.words.now self.entry.count i ≡ false }
    {
        let w = self.words;
        for k in (0..self.count).rev() {
            if !is_apart(w[OFFSETS + k], w[LENGTHS + k], o, e) {
                return false;
            }
        }
        true
    }

    // Whether each byte of a body that goes to o on is as the buffer has it, where one of them covers it. By place: each round goes on where the run of
    // the one before ends.
    fn shares(self, o: usize, b: &[u8], d: &[u8]) -> bool
        requires { (o + length b.now ≤ length d.now) × (length b.now ≤ most_bytes) }
        ensures { result ≡ all_shared self.entry.words.now self.entry.count o b.now d.now (length b.now) }
    {
        if self.is_bare(o as u64, (o + b.len()) as u64) {
            return true;
        }
        let mut i = 0;
        while i < b.len() {
            let Some(e) = self.share_run(o, b, i, d) else {
                return false;
            };
            i = e;
        }
        true
    }
}

fn is_whole(w: &[u64; WORDS]) -> bool
    requires { count_of w.now ≤ most-pieces }
    ensures { result ≡ is_whole w.now }
{
    Pieces::new(w).covers_all(w[TOTAL])
}

// ---- words written

#[tactic(auto, unfolding(base::specs::Choose::choose))]
fn put_head(w: &mut [u64; WORDS], h: Header)
    ensures { w.new ≡ headed w.old h }
{
    if w[COUNT] == 0 {
        w[TYPE] = h.msg_type as u64;
        w[TOTAL] = h.length as u64;
    }
}

// A piece is held, the n + 1st.
#[tactic(auto, unfolding(assembly::specs::Assembly::held))]
fn hold(w: &mut [u64; WORDS], n: usize, h: Header, next: usize)
    requires { (n ≡ count_of w.old) × (n < most-pieces) }
    ensures { (w.new ≡ held w.old h next) × (length w.old ≡ words) }
{
    put_head(w, h);
    w[OFFSETS + n] = h.fragment_offset as u64;
    w[LENGTHS + n] = h.fragment_length as u64;
    w[COUNT] = (n + 1) as u64;
    w[PLACE] = next as u64;
}

// The message is handed over if it is whole.
#[tactic(auto, unfolding(assembly::specs::Assembly::finished, base::specs::Choose::choose))]
fn finish(w: &mut [u64; WORDS]) -> Piece
    requires { (count_of w.old ≤ most-pieces) × (expected_of w.old < last-number) }
    ensures { (d : List ℕ) → outcome (Ok result) w.new d ≡ finished w.old d }
{
    if is_whole(w) {
        let msg_type = (w[TYPE] % 256) as u8;
        let number = (w[EXPECTED] % 65536) as u16;
        let length = w[TOTAL] as usize;
        w[EXPECTED] = w[EXPECTED] + 1;
        w[COUNT] = 0;
        return Piece::Message {
            msg_type,
            number,
            length,
        };
    }
    Piece::Held
}

// ---- a piece taken

// The piece at a place, if it lies in the record.
pub fn piece_at(c: &[u8], at: usize) -> Option<Header>
    requires { at ≤ length c.now }
    ensures { (result ≡ piece_at c.now at) × Measured result c.now at }
{
    let rest = &c[at..];
    let h = Header::parse_header(rest)?;
    if rest.len() < HEADER_LENGTH + h.fragment_length as usize {
        return None;
    }
    Some(h)
}

// Whether a piece of the number expected can be taken.
#[tactic(auto, unfolding(assembly::specs::Assembly::is_fit, base::specs::Choose::both, base::specs::Choose::either))]
fn is_fit(w: &[u64; WORDS], h: Header) -> bool
    ensures { result ≡ is_fit w.now h }
{
    let end = h.fragment_offset as u64 + h.fragment_length as u64;
    w[EXPECTED] < LAST_NUMBER
        && h.length as u64 <= MOST_TOTAL
        && end <= h.length as u64
        && (w[COUNT] == 0 || end <= w[TOTAL])
}

// Whether a piece has type and total of the first piece held, if one is.
#[tactic(auto, unfolding(assembly::specs::Assembly::is_alike, base::specs::Choose::both, base::specs::Choose::either))]
fn is_alike(w: &[u64; WORDS], h: Header) -> bool
    ensures { result ≡ is_alike w.now h }
{
    w[COUNT] == 0 || (w[TYPE] % 256 == h.msg_type as u64 && w[TOTAL] == h.length as u64)
}

// Whether a piece agrees with those held: type, total, and every byte that it shares with them.
#[tactic(auto, unfolding(assembly::specs::Assembly::is_agreed, base::specs::Choose::both))]
fn is_agreed(w: &[u64; WORDS], h: Header, b: &[u8], d: &[u8]) -> bool
    requires { Offers w.now h b.now d.now × (is_fit w.now h ≡ true) }
    ensures { result ≡ is_agreed w.now h b.now d.now }
{
    is_alike(w, h) && Pieces::new(w).shares(h.fragment_offset as usize, b, d)
}

// A body put at its place in the buffer.
fn put_body(o: usize, b: &[u8], d: &mut [u8])
    requires { (o + length b.now ≤ length d.old) × (length b.now ≤ most_bytes) }
    ensures { d.new ≡ splice o b.now d.old }
{
    base::move_bytes(b, &mut d[o..o + b.len()]);
}

// A piece of the number expected, with its body.
#[tactic(auto, unfolding(assembly::specs::Assembly::offered, base::specs::Choose::choose))]
pub fn offer(
    w: &mut [u64; WORDS],
    h: Header,
    b: &[u8],
    next: usize,
    d: &mut [u8],
) -> Result<Piece, PieceError>
    requires { Offers w.old h b.now d.old }
    ensures { outcome result w.new d.new ≡ offered w.old h b.now next d.old }
{
    if !is_fit(w, h) {
        w[PLACE] = w[SIZE];
        return Err(PieceError::Malformed);
    }
    if !is_agreed(w, h, b, d) {
        w[PLACE] = w[SIZE];
        return Err(PieceError::Disagrees);
    }
    if Pieces::new(w).is_same(h.fragment_offset as u64, h.fragment_length as u64) {
        w[PLACE] = next as u64;
        return Ok(Piece::Same);
    }
    let n = w[COUNT] as usize;
    if MOST_PIECES <= n {
        w[PLACE] = w[SIZE];
        return Err(PieceError::TooMany);
    }
    put_body(h.fragment_offset as usize, b, d);
    hold(w, n, h, next);
    Ok(finish(w))
}
