// The queue of datagrams to send, after `queue_tx` of engine.rs: a ring of slots of MTU bytes in one lent buffer.
#![tactic(auto)]

ghost use Rattle.std.specs.Prelude.{◌≡◌, ◌∷◌, ◌++◌, ◌+◌, ◌-◌, ◌≤◌, ◌<◌, length, take};
ghost use Rattle.base.specs.Bytes.{be};
ghost use Rattle.base.specs.Parts.{splice};
ghost use Rattle.record.specs.Record.{plaintext_header, unified_header};
ghost use Rattle.queue.specs.Queue.{is_setting, slot_of, place_of, Tailed};
ghost use Rattle.queue.specs.Laid.{trailer_of, record_len, record_bytes};

use record::{PLAINTEXT_HEADER_LEN, SEALED_HEADER_LEN, SEALED_OVERHEAD, SEALED_TAIL_LEN};

// The settings' bounds: the MTU, and how many datagrams the queue may have.
const LEAST_MTU: usize = 576;

const MOST_MTU: usize = 1500;

const SLOTS: usize = 16;

// Settings, the ring's first slot, how many datagrams wait in it, whether the last is closed to further records, and the length
// of the datagram in each slot.
#[derive(Clone, Copy)]
pub struct Queue {
    pub mtu: usize,
    pub limit: usize,
    pub first: usize,
    pub count: usize,
    pub closed: bool,
    pub lengths: [u16; SLOTS],
}

// The queue's end: the last datagram's length, whether a record may join it, how many datagrams there are.
#[derive(Clone, Copy)]
pub struct Tail {
    pub used: usize,
    pub joinable: bool,
    pub count: usize,
}

// Where a record goes: the datagram, counted from the front, and the offset in it.
#[derive(Clone, Copy)]
pub struct Place {
    pub datagram: usize,
    pub offset: usize,
}

// Whether the settings are in range.
#[tactic(auto, unfolding(crate::specs::Queue::is_setting, base::specs::Choose::both))]
pub fn is_setting(mtu: usize, limit: usize) -> bool
    ensures { result ≡ is_setting mtu limit }
{
    LEAST_MTU <= mtu && mtu <= MOST_MTU && 1 <= limit && limit <= SLOTS
}

// The slot of a datagram, counted from the front.
#[tactic(auto, unfolding(crate::specs::Queue::slot_of, base::specs::Choose::choose))]
pub fn slot_of(first: usize, limit: usize, i: usize) -> usize
    requires { (first < limit) × (i < limit) × (limit ≤ 16) }
    ensures { (result ≡ slot_of first limit i) × (result < limit) }
{
    let at = first + i;
    if at < limit {
        return at;
    }
    at - limit
}

// A record of n bytes joins the last datagram if that may be joined and the sum is at most the MTU; else it opens a new one.
#[tactic(auto, unfolding(crate::specs::Queue::place_of, base::specs::Choose::both, base::specs::Choose::choose))]
pub fn place_of(mtu: usize, t: Tail, n: usize) -> Place
    requires { Tailed t × (n ≤ 65535) }
    ensures { result ≡ place_of mtu t n }
{
    if t.joinable && t.used + n <= mtu {
        return Place {
            datagram: t.count - 1,
            offset: t.used,
        };
    }
    Place {
        datagram: t.count,
        offset: 0,
    }
}

// A content type and a tag that begins with a mark. The mark is copied in whole: the compiler then stores it as one word.
fn marked(content_type: u8, mark: [u8; 8]) -> [u8; SEALED_TAIL_LEN]
    ensures { result ≡ content_type ∷ (mark ++ be 8 0) }
{
    let mut t = [0u8; SEALED_TAIL_LEN];
    t[0] = content_type;
    t[1..9].copy_from_slice(&mark);
    t
}

// What follows the content of a record that waits for its sealing: its type, and in the tag's place its epoch and number.
fn trailer(content_type: u8, epoch: u16, number: u64) -> [u8; SEALED_TAIL_LEN]
    ensures { result ≡ trailer_of content_type epoch number }
{
    let mark = u64::from(epoch) * 0x1_0000_0000_0000 + number % 0x1_0000_0000_0000;
    marked(content_type, mark.to_be_bytes())
}

// A plaintext record written from a place on.
fn lay_plaintext(d: &mut [u8], at: usize, content_type: u8, number: u64, content: &[u8])
    requires { (at + 13 + length content.now ≤ length d.old) × (length content.now ≤ 1500) × (at ≤ 24000) }
    ensures { d.new ≡ splice at (plaintext_header content_type number (length content.now) ++ content.now) d.old }
{
    let n = content.len();
    let inner = at + PLAINTEXT_HEADER_LEN;
    let end = inner + n;
    let header = headers::plaintext_header(content_type, number, n as u16);
    d[at..inner].copy_from_slice(&header);
    // By `move_bytes`: `copy_from_slice` takes a nanosecond or two more a record.
    base::move_bytes(content, &mut d[inner..end]);
}

// A record to be sealed, its number not yet masked, written from a place on. Its content comes last, so that nothing is kept across
// that call.
fn lay_ciphertext(
    d: &mut [u8],
    at: usize,
    epoch: u16,
    content_type: u8,
    number: u64,
    content: &[u8],
)
    requires { (at + 22 + length content.now ≤ length d.old) × (length content.now ≤ 1500) × (at ≤ 24000) }
    ensures { d.new ≡ splice at (unified_header epoch number (length content.now + 17) ++ (content.now ++ trailer_of content_type epoch number)) d.old }
{
    let n = content.len();
    let inner = at + SEALED_HEADER_LEN;
    let end = inner + n;
    let after = end + SEALED_TAIL_LEN;
    let header = headers::unified_header(epoch, number, (n + SEALED_TAIL_LEN) as u16);
    let behind = trailer(content_type, epoch, number);
    d[at..inner].copy_from_slice(&header);
    d[end..after].copy_from_slice(&behind);
    // By `move_bytes`: `copy_from_slice` takes a nanosecond or two more a record.
    base::move_bytes(content, &mut d[inner..end]);
}

// Bytes of a record whose content has n.
#[tactic(auto, unfolding(crate::specs::Laid::record_len, base::specs::Choose::choose))]
pub fn record_len(epoch: u16, n: usize) -> usize
    requires { n ≤ 16384 }
    ensures { result ≡ record_len epoch n }
{
    if epoch == 0 {
        return n + PLAINTEXT_HEADER_LEN;
    }
    n + SEALED_OVERHEAD
}

// A record written from a place on: epoch 0 in plaintext, any other to be sealed.
pub fn lay_record(
    d: &mut [u8],
    at: usize,
    epoch: u16,
    content_type: u8,
    number: u64,
    content: &[u8],
)
    requires { (at + record_len epoch (length content.now) ≤ length d.old) × (length content.now ≤ 1500) × (at ≤ 24000) }
    ensures { d.new ≡ splice at (record_bytes epoch content_type number content.now) d.old }
{
    if epoch == 0 {
        lay_plaintext(d, at, content_type, number, content);
        return;
    }
    lay_ciphertext(d, at, epoch, content_type, number, content);
}
