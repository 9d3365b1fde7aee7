// A record sent, over the words that hold the sending side's state: a test reads, and a record laid writes, only the words it needs.
#![tactic(auto)]

ghost use Rattle.std.specs.Prelude.{◌≡◌, ◌+◌, ◌≤◌, ◌<◌, length, get_or};
ghost use Rattle.queue.specs.Queue.{InRange, Tailed, is_sound, is_ready, last_len, tail_of};
ghost use Rattle.send_keys.specs.Keys.{is_usable, is_keyed, next_of, used};
ghost use Rattle.outgoing.specs.State.{with_keys};
ghost use Rattle.outgoing.specs.Send.{spot_of, send_answer, laid_state, laid_memory, Clear};
ghost use Rattle.send_words.specs.Words.{queue_of, state_of};
ghost use Rattle.outgoing.specs.State.{with_waiting};
ghost use Rattle.send_words.specs.Partly.{Partly};
ghost use Rattle.send_steps.specs.Steps.{placed, epoch_answer, room_answer, end_at, waits, Lays};
ghost use Rattle.send_steps.specs.Sends.{Sends};

use outgoing::Waiting;
use queue::{Place, Tail};
use record::{LAST_NUMBER, SEALED_TAIL_LEN};
use send_keys::SendError;
use send_words::{
    APPLICATION, APPLICATION_NEXT, CLOSED, COUNT, FIRST, HANDSHAKE, HANDSHAKE_NEXT, LENGTHS, LIMIT,
    MTU, PLAINTEXT_NEXT, SEALING, WORDS,
};

// ---- the tests

// Whether settings and ring are in range.
#[tactic(auto, unfolding(queue::specs::Queue::is_sound, base::specs::Choose::both))]
pub fn is_sound(w: &[u64; WORDS]) -> bool
    ensures { result ≡ is_sound (queue_of w.now) }
{
    let limit = w[LIMIT] as usize;
    if queue::is_setting(w[MTU] as usize, limit) {
        if (w[FIRST] as usize) < limit {
            return w[COUNT] as usize <= limit;
        }
    }
    false
}

// Whether settings and ring are in range and the buffer lent for the queue is long enough.
pub fn is_ready(w: &[u64; WORDS], room: usize) -> bool
    ensures { result ≡ is_ready (queue_of w.now) room }
{
    if is_sound(w) {
        return w[LIMIT] as usize * w[MTU] as usize <= room;
    }
    false
}

// Whether an epoch may be sent in: 0, 2, or the application epoch.
#[tactic(auto, unfolding(send_keys::specs::Keys::is_usable, base::specs::Choose::both, base::specs::Choose::either))]
pub fn is_usable(w: &[u64; WORDS], epoch: u16) -> bool
    ensures { result ≡ is_usable (state_of w.now).keys epoch }
{
    if epoch == 0 {
        return true;
    }
    if epoch == 2 {
        return true;
    }
    if epoch < 3 {
        return false;
    }
    epoch == words::low(w[APPLICATION])
}

// Whether a usable epoch has its keys.
#[tactic(auto, unfolding(send_keys::specs::Keys::is_keyed, base::specs::Choose::choose))]
pub fn is_keyed(w: &[u64; WORDS], epoch: u16) -> bool
    ensures { result ≡ is_keyed (state_of w.now).keys epoch }
{
    if epoch == 2 {
        return words::low(w[HANDSHAKE]) == 2;
    }
    true
}

// The next number to send in an epoch.
pub fn next_of(w: &[u64; WORDS], epoch: u16) -> u64
    ensures { result ≡ next_of (state_of w.now).keys epoch }
{
    if epoch == 0 {
        return w[PLAINTEXT_NEXT];
    }
    if epoch == 2 {
        return w[HANDSHAKE_NEXT];
    }
    w[APPLICATION_NEXT]
}

// The length of a slot's datagram.
pub fn length_at(w: &[u64; WORDS], slot: usize) -> usize
    requires { slot < 16 }
    ensures { (result ≡ get_or (queue_of w.now).lengths slot 0) × (result ≤ 65535) }
{
    let i = LENGTHS + slot;
    (w[i] % 65536) as usize
}

// That the queue is in its range stays a condition on the words: these are written between two readings, so a type that keeps it would be made anew
// at each call, from the same condition.
// The last datagram's length, closed or not; 0 where there is none.
#[tactic(auto, unfolding(queue::specs::Queue::last_len, base::specs::Choose::choose))]
pub fn last_len(w: &[u64; WORDS]) -> usize
    requires { InRange (queue_of w.now) }
    ensures { (result ≡ last_len (queue_of w.now)) × (result ≤ 65535) }
{
    let count = w[COUNT] as usize;
    if count == 0 {
        return 0;
    }
    let slot = queue::slot_of(w[FIRST] as usize, w[LIMIT] as usize, count - 1);
    length_at(w, slot)
}

// Whether a record may join the last datagram: one is there, not closed.
#[tactic(auto, unfolding(queue::specs::Queue::tail_of, base::specs::Choose::choose))]
fn is_joinable(w: &[u64; WORDS]) -> bool
    ensures { result ≡ (tail_of (queue_of w.now)).joinable }
{
    if w[CLOSED] == 1 {
        return false;
    }
    0 < w[COUNT]
}

pub fn tail_of(w: &[u64; WORDS]) -> Tail
    requires { InRange (queue_of w.now) }
    ensures { (result ≡ tail_of (queue_of w.now)) × Tailed result }
{
    let used = last_len(w);
    let joinable = is_joinable(w);
    Tail {
        used: used,
        joinable: joinable,
        count: w[COUNT] as usize,
    }
}

// Where a record with a content of n bytes goes.
fn spot_of(w: &[u64; WORDS], epoch: u16, n: usize) -> Place
    requires { InRange (queue_of w.now) × (n ≤ 16384) }
    ensures { result ≡ spot_of (state_of w.now) epoch n }
{
    let t = tail_of(w);
    let len = queue::record_len(epoch, n);
    queue::place_of(w[MTU] as usize, t, len)
}

// Whether a record of this type and length may be sent in an epoch, or why not.
#[tactic(auto, unfolding(crate::specs::Steps::epoch_answer, base::specs::Choose::choose))]
pub fn epoch_answer(w: &[u64; WORDS], epoch: u16, t: u8, n: usize) -> Result<(), SendError>
    ensures { result ≡ epoch_answer (state_of w.now) epoch t n }
{
    if !is_usable(w, epoch) {
        return Err(SendError::BadEpoch);
    }
    if !outgoing::is_allowed(w[MTU] as usize, epoch, t, n) {
        return Err(SendError::BadRecord);
    }
    if !is_keyed(w, epoch) {
        return Err(SendError::KeysAbsent);
    }
    Ok(())
}

// Where a record goes, or why there is no place or no number for it.
pub fn place_for(w: &[u64; WORDS], epoch: u16, n: usize) -> Result<Place, SendError>
    requires { InRange (queue_of w.now) × (n ≤ 16384) }
    ensures { result ≡ placed (room_answer (state_of w.now) epoch n) (spot_of (state_of w.now) epoch n) }
{
    let p = spot_of(w, epoch, n);
    if w[LIMIT] as usize <= p.datagram {
        return Err(SendError::QueueFull);
    }
    if LAST_NUMBER <= next_of(w, epoch) {
        return Err(SendError::NumbersSpent);
    }
    Ok(p)
}

// Where a record goes, or why it cannot be sent.
pub fn send_answer(
    w: &[u64; WORDS],
    room: usize,
    epoch: u16,
    t: u8,
    n: usize,
) -> Result<Place, SendError>
    ensures { result ≡ placed (send_answer (state_of w.now) room epoch t n) (spot_of (state_of w.now) epoch n) }
{
    if !is_ready(w, room) {
        return Err(SendError::OutOfRange);
    }
    epoch_answer(w, epoch, t, n)?;
    place_for(w, epoch, n)
}

// ---- a record laid

// An epoch's next number is used.
fn use_number(w: &mut [u64; WORDS], epoch: u16, number: u64)
    requires { (number ≡ next_of (state_of w.old).keys epoch) × (number < 281474976710655) }
    ensures { Partly (with_keys (state_of w.old) (used (state_of w.old).keys epoch)) w.old w.new }
{
    let next = number + 1;
    if epoch == 0 {
        w[PLAINTEXT_NEXT] = next;
        return;
    }
    if epoch == 2 {
        w[HANDSHAKE_NEXT] = next;
        return;
    }
    w[APPLICATION_NEXT] = next;
}

// The sealing of a record with a content of n bytes waits, if none does and it is to be sealed.
fn wait_for(w: &mut [u64; WORDS], epoch: u16, n: usize, slot: usize, start: usize, number: u64)
    requires { n ≤ 1500 }
    ensures { Partly (with_waiting (state_of w.old) (waits (state_of w.old).waiting epoch n slot start number)) w.old w.new }
{
    let waits = w[SEALING] == 1;
    if waits {
        return;
    }
    if epoch == 0 {
        return;
    }
    send_words::put_waiting(
        w,
        Waiting {
            any: true,
            slot: slot,
            start: start,
            length: n + SEALED_TAIL_LEN,
            epoch: epoch,
            number: number,
        },
    );
}

// The last datagram, in this slot, ends there and is open.
fn put_end(w: &mut [u64; WORDS], slot: usize, nth: usize, end: usize)
    requires { (slot < 16) × (nth < 16) × (end ≤ 65535) }
    ensures { Partly (end_at (state_of w.old) slot (nth + 1) end) w.old w.new }
{
    let at = LENGTHS + slot;
    w[at] = end as u64;
    w[COUNT] = (nth + 1) as u64;
    w[CLOSED] = 0;
}

// The words of a record laid: one record more, its number used, its sealing waiting.
fn put_laid(w: &mut [u64; WORDS], p: Place, slot: usize, epoch: u16, n: usize, number: u64)
    requires { Lays (state_of w.old) p slot epoch n number }
    ensures { Partly (laid_state (state_of w.old) epoch n) w.old w.new }
{
    let len = queue::record_len(epoch, n);
    use_number(w, epoch, number);
    wait_for(w, epoch, n, slot, p.offset, number);
    put_end(w, slot, p.datagram, p.offset + len);
}

// A record laid, to which no refusal applies. The words go first and the bytes last, so that nothing is kept across the copy.
pub fn lay(w: &mut [u64; WORDS], p: Place, epoch: u16, t: u8, content: &[u8], d: &mut [u8])
    requires { Clear (state_of w.old) (length d.old) epoch (length content.now) × (p ≡ spot_of (state_of w.old) epoch (length content.now)) }
    ensures { Partly (laid_state (state_of w.old) epoch (length content.now)) w.old w.new × (d.new ≡ laid_memory (state_of w.old) epoch t content.now d.old) }
{
    let n = content.len();
    let number = next_of(w, epoch);
    let slot = queue::slot_of(w[FIRST] as usize, w[LIMIT] as usize, p.datagram);
    let at = slot * (w[MTU] as usize) + p.offset;
    put_laid(w, p, slot, epoch, n, number);
    queue::lay_record(d, at, epoch, t, number, content);
}

// A record sent, if no refusal applies.
pub fn send(
    w: &mut [u64; WORDS],
    epoch: u16,
    t: u8,
    content: &[u8],
    d: &mut [u8],
) -> Result<(), SendError>
    ensures { Sends result epoch t content.now w.old w.new d.old d.new }
{
    let p = send_answer(w, d.len(), epoch, t, content.len())?;
    lay(w, p, epoch, t, content, d);
    Ok(())
}
