// A reader over one datagram: it keeps the slice and the offset reached. Thin over the cut of a record (crate record).
#![tactic(auto)]

ghost use Rattle.std.specs.Prelude.{◌≡◌, ◌-◌};
ghost use Rattle.record.specs.Record.{head_of, size_of, content_of, rest_of};
ghost use Rattle.reader.specs.Reader.{next_of, step_at};

use record::Parsed;

// What was found at an offset, and the offset behind it.
#[derive(Clone, Copy)]
pub struct Step {
    pub found: Parsed,
    pub at: usize,
}

// A datagram and the offset reached in it.
#[derive(Clone, Copy)]
pub struct Reader<'a> {
    pub datagram: &'a [u8],
    pub at: usize,
}

// Where the content of a record begins, and how long it is.
fn head_of(p: Parsed) -> usize
    ensures { result ≡ head_of p }
{
    match p {
        Parsed::Plaintext(_) | Parsed::Invalid(_) => record::PLAINTEXT_HEADER_LEN,
        Parsed::Ciphertext(r) => r.header_len,
        Parsed::End | Parsed::Incomplete => 0,
    }
}

fn size_of(p: Parsed) -> usize
    ensures { result ≡ size_of p }
{
    match p {
        Parsed::Plaintext(r) => r.length,
        Parsed::Ciphertext(r) => r.length,
        Parsed::Invalid(n) => n,
        Parsed::End | Parsed::Incomplete => 0,
    }
}

// The content of the record that a slice begins with, as a part of it.
pub fn content(d: &[u8], p: Parsed) -> &[u8]
    ensures { result.now ≡ content_of d.now p }
{
    base::fragment(d, head_of(p), size_of(p))
}

// What follows the record that a slice begins with, as a part of it.
pub fn rest(d: &[u8], p: Parsed) -> &[u8]
    ensures { result.now ≡ rest_of d.now p }
{
    base::behind(base::behind(d, head_of(p)), size_of(p))
}

// The offset behind what was found where `left` bytes follow it; the datagram's end if it ends there.
fn next_of(p: Parsed, size: usize, left: usize) -> usize
    ensures { result ≡ next_of p size left }
{
    match p {
        Parsed::End | Parsed::Incomplete => size,
        Parsed::Invalid(_) | Parsed::Plaintext(_) | Parsed::Ciphertext(_) => {
            size.saturating_sub(left)
        }
    }
}

// What is found at an offset of a datagram, and the offset behind it.
#[tactic(auto, unfolding(crate::specs::Reader::step_at))]
pub fn step_at(d: &[u8], at: usize) -> Step
    ensures { result ≡ step_at d.now at }
{
    let t = base::behind(d, at);
    let p = record::parse(t);
    let left = rest(t, p);
    Step {
        found: p,
        at: next_of(p, d.len(), left.len()),
    }
}

impl<'a> Reader<'a> {
    // A reader at the front of a datagram.
    pub fn new(datagram: &'a [u8]) -> Reader<'a>
        ensures { (result.datagram ≡ datagram.entry) × (result.at ≡ 0) }
    {
        Reader { datagram, at: 0 }
    }

    // What the reader finds next.
    pub fn next(self) -> Step
        ensures { result ≡ step_at self.entry.datagram.now self.entry.at }
    {
        step_at(self.datagram, self.at)
    }

    // Advances a reader that is lent, and says what was found.
    pub fn advance(&mut self) -> Step
        ensures { (result ≡ step_at self.old.datagram.now self.old.at) × (self.new.datagram ≡ self.old.datagram) × (self.new.at ≡ result.at) }
    {
        let s = self.next();
        self.at = s.at;
        s
    }
}

// What a datagram begins with, by a reader over it.
pub fn first(datagram: &[u8]) -> Step
    ensures { result ≡ step_at datagram.now 0 }
{
    Reader::new(datagram).next()
}
