// Sealings, asked of the host oldest first, after `create_ciphertext_record` of engine.rs.
#![tactic(auto)]

ghost use Rattle.std.specs.Prelude.{◌≡◌, ◌+◌, ◌-◌, ◌/◌, ◌≤◌, ◌<◌, length, get_or};
ghost use Rattle.record.specs.Record.{parsed};
ghost use Rattle.sealing.specs.Seek.{nth_of, beyond, passed, step_of};
ghost use Rattle.sealing.specs.Sealing.{refusal, is_span, masked_header};

use outgoing::{Sending, Waiting};
use record::{LAST_NUMBER, PLAINTEXT_HEADER_LEN, SEALED_HEADER_LEN, SEALED_TAIL_LEN, TAG_LEN};
use std::ops::ControlFlow;

// Of a record with n bytes behind its header, the tag begins at n less this, and the number in its place two bytes on.
const TAG_BEHIND: usize = TAG_LEN - SEALED_HEADER_LEN;

const NUMBER_BEHIND: usize = TAG_BEHIND - 2;
// Where a plaintext header has its length.
const LENGTH_AT: usize = PLAINTEXT_HEADER_LEN - 2;

// A search for the next record that waits: the datagram, counted from the front, and the offset that it has come to.
#[derive(Clone, Copy)]
pub struct Search {
    pub datagram: usize,
    pub offset: usize,
}

// A step ends the search with what it found, or leaves it at a place.
pub type Step = ControlFlow<Waiting, Search>;

// Why the host is asked nothing, or its reply is not taken.
#[derive(Clone, Copy, Debug, PartialEq, Eq)]
pub enum SealError {
    OutOfRange,
    // No sealing waits, or the length is another.
    NoQuestion,
}

// What the host is asked to seal: a record's full epoch and number, nonce, header with its number not masked, and the place in the queue
// of what is to be sealed.
#[derive(Clone, Copy)]
pub struct Seal {
    pub epoch: u16,
    pub number: u64,
    pub start: usize,
    pub length: usize,
    pub nonce: [u8; 12],
    pub header: [u8; SEALED_HEADER_LEN],
}

#[derive(Clone, Copy)]
pub struct Reply {
    pub answer: Result<(), SealError>,
    pub state: Sending,
}

// ---- the next record that waits

// Which datagram, counted from the front, a slot has.
#[tactic(auto, unfolding(crate::specs::Seek::nth_of, base::specs::Choose::choose))]
pub fn nth_of(first: usize, limit: usize, slot: usize) -> usize
    requires { (first < limit) × (slot < limit) × (limit ≤ 16) }
    ensures { (result ≡ nth_of first limit slot) × (result < limit) }
{
    if first <= slot {
        return slot - first;
    }
    slot + limit - first
}

// The search goes on in the next datagram.
#[tactic(auto, unfolding(crate::specs::Seek::beyond))]
pub fn go_beyond(c: Search) -> Step
    requires { c.datagram ≤ 16 }
    ensures { result ≡ beyond c }
{
    ControlFlow::Continue(Search {
        datagram: c.datagram + 1,
        offset: 0,
    })
}

// A sealed record as it is laid is met: it waits, with its epoch and number in the tag's place.
fn found_at(d: &[u8], slot: usize, c: Search) -> Step
    requires { (0 < length d.now) × (get_or d.now 0 0 / 4 ≡ 11) × (c.datagram ≤ 16) }
    ensures { result ≡ step_of (parsed d.now) d.now slot c }
{
    let size = d.len();
    if size < SEALED_HEADER_LEN {
        return go_beyond(c);
    }
    let n = base::be::<2>(d, 3) as usize;
    if size - SEALED_HEADER_LEN < n {
        return go_beyond(c);
    }
    let short = n < SEALED_TAIL_LEN;
    if short {
        return go_beyond(c);
    }
    let epoch = base::be::<2>(d, n - TAG_BEHIND) as u16;
    let number = base::be::<6>(d, n - NUMBER_BEHIND);
    ControlFlow::Break(Waiting {
        any: true,
        slot,
        start: c.offset,
        length: n,
        epoch,
        number,
    })
}

// The record at the search's offset is passed.
#[tactic(auto, unfolding(crate::specs::Seek::passed))]
fn go_past(c: Search, n: usize) -> Step
    requires { (c.offset ≤ 65535) × (n ≤ 65535) }
    ensures { result ≡ passed c n }
{
    ControlFlow::Continue(Search {
        datagram: c.datagram,
        offset: c.offset + (PLAINTEXT_HEADER_LEN + n),
    })
}

// A record in plaintext is met.
fn plain_at(d: &[u8], slot: usize, c: Search) -> Step
    requires { (0 < length d.now) × (get_or d.now 0 0 / 32 ≡ 1 → ⊥) × (length d.now ≤ 65535) × (c.offset ≤ 65535) × (c.datagram ≤ 16) }
    ensures { result ≡ step_of (parsed d.now) d.now slot c }
{
    let size = d.len();
    if size < PLAINTEXT_HEADER_LEN {
        return go_beyond(c);
    }
    let n = base::be::<2>(d, LENGTH_AT) as usize;
    if size - PLAINTEXT_HEADER_LEN < n {
        return go_beyond(c);
    }
    go_past(c, n)
}

// What lies at the search's place means to it. The record's first bytes tell: 0x2C to 0x2F begins a sealed record as it is laid, any
// other from 0x20 to 0x3F none that waits.
pub fn step_of(d: &[u8], slot: usize, c: Search) -> Step
    requires { (length d.now ≤ 65535) × (c.offset ≤ 65535) × (c.datagram ≤ 16) }
    ensures { result ≡ step_of (parsed d.now) d.now slot c }
{
    if d.len() == 0 {
        return go_beyond(c);
    }
    let flags = d[0];
    if flags / 4 == 11 {
        return found_at(d, slot, c);
    }
    if flags / 32 == 1 {
        return go_beyond(c);
    }
    plain_at(d, slot, c)
}

// ---- the question

// Whether the oldest record that waits lies in a slot, and its number is one that is sent.
#[tactic(auto, unfolding(crate::specs::Sealing::is_span, base::specs::Choose::both))]
pub fn is_span(w: Waiting, mtu: usize, limit: usize) -> bool
    requires { mtu ≤ 1500 }
    ensures { result ≡ is_span w mtu limit }
{
    w.slot < limit
        && SEALED_TAIL_LEN <= w.length
        && w.start <= mtu
        && w.length <= mtu
        && w.start + SEALED_HEADER_LEN + w.length <= mtu
        && w.number < LAST_NUMBER
}

// ---- the reply

// The header of a record with the mask on its number.
#[tactic(auto, unfolding(crate::specs::Sealing::masked_header))]
pub fn masked_header(epoch: u16, number: u64, length: u16, mask: [u8; 2]) -> [u8; SEALED_HEADER_LEN]
    ensures { result ≡ masked_header epoch number length mask }
{
    [
        0x2C + (epoch % 4) as u8,
        mask[0] ^ (number / 256 % 256) as u8,
        mask[1] ^ (number % 256) as u8,
        (length / 256 % 256) as u8,
        (length % 256) as u8,
    ]
}

// The number of an answer; 0 where a reply is taken.
pub fn refusal(a: Result<(), SealError>) -> u8
    ensures { result ≡ refusal a }
{
    match a {
        Ok(()) => 0,
        Err(SealError::OutOfRange) => 12,
        Err(SealError::NoQuestion) => 15,
    }
}
