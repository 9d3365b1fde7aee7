// Taking the front datagram, over the words that hold the sending side's state.
#![tactic(auto)]

ghost use Rattle.std.specs.Prelude.{◌≡◌, ◌+◌, ◌-◌, ◌*◌, ◌≤◌, ◌<◌, length, get_or};
ghost use Rattle.base.specs.Parts.{splice, part};
ghost use Rattle.send_words.specs.Words.{first-at, count_at, state_of};
ghost use Rattle.taking.specs.Take.{front_len, is_front, take_answer, take_state, take_buffer, after_take};
ghost use Rattle.take_steps.specs.Front.{front_of, Stands};

use send_words::{COUNT, FIRST, LIMIT, MTU, SEALING, SEALING_SLOT, WORDS};
use taking::TakeError;

// The place in the queue of the datagram that is taken.
#[derive(Clone, Copy)]
pub struct Front {
    pub start: usize,
    pub length: usize,
}

// ---- the tests

// The front datagram's length.
fn front_len(w: &[u64; WORDS]) -> usize
    requires { get_or w.now first-at 0 < 16 }
    ensures { result ≡ front_len (state_of w.now) }
{
    send_steps::length_at(w, w[FIRST] as usize)
}

// Whether a record in the front datagram waits.
#[tactic(auto, unfolding(base::specs::Choose::both))]
fn front_waits(w: &[u64; WORDS]) -> bool
    ensures { result ≡ is_front (state_of w.now).waiting (state_of w.now).queue.first }
{
    w[SEALING] == 1 && w[SEALING_SLOT] == w[FIRST]
}

// Whether the front datagram can be taken, or why not.
#[tactic(auto, unfolding(taking::specs::Take::take_answer, base::specs::Choose::choose))]
fn take_answer(w: &[u64; WORDS], room: usize, have: usize) -> Result<Option<usize>, TakeError>
    ensures { result ≡ take_answer (state_of w.now) room have }
{
    if !send_steps::is_ready(w, room) {
        return Err(TakeError::OutOfRange);
    }
    if w[COUNT] == 0 {
        return Ok(None);
    }
    let n = front_len(w);
    if (w[MTU] as usize) < n {
        return Err(TakeError::OutOfRange);
    }
    if front_waits(w) {
        return Err(TakeError::Unsealed);
    }
    if have < n {
        return Err(TakeError::Short(n));
    }
    Ok(Some(n))
}

// ---- the front taken

// The front moves on: the slot behind it, one datagram less.
fn advance(w: &mut [u64; WORDS])
    requires { (get_or w.old first-at 0 ≤ 16) × (0 < get_or w.old count_at 0) }
    ensures { Stands (after_take (state_of w.old)) w.old w.new }
{
    let next = taking::next_slot(w[FIRST] as usize, w[LIMIT] as usize);
    let count = w[COUNT] - 1;
    w[FIRST] = next as u64;
    w[COUNT] = count;
}

// The front datagram, if it is wholly sealed, leaves the queue; its bytes stay.
#[tactic(auto, unfolding(taking::specs::Take::take_state, base::specs::Choose::choose))]
pub fn take_front(
    w: &mut [u64; WORDS],
    room: usize,
    have: usize,
) -> Result<Option<Front>, TakeError>
    ensures { (result ≡ front_of (take_answer (state_of w.old) room have) (state_of w.old)) × Stands (take_state (take_answer (state_of w.old) room have) (state_of w.old)).state w.old w.new }
{
    let Some(length) = take_answer(w, room, have)? else {
        return Ok(None);
    };
    let start = w[FIRST] as usize * w[MTU] as usize;
    advance(w);
    Ok(Some(Front { start, length }))
}

// A part of the queue copied to the start of a buffer.
#[tactic(auto, unfolding(base::specs::Parts::splice))]
fn copy_out(memory: &[u8], from: Front, buffer: &mut [u8])
    requires { (from.start + from.length ≤ length memory.now) × (from.length ≤ length buffer.old) × (from.start + from.length ≤ 24000) × (from.length ≤ 1500) }
    ensures { buffer.new ≡ splice 0 (part from.start from.length memory.now) buffer.old }
{
    let to = from.start + from.length;
    base::move_bytes(&memory[from.start..to], &mut buffer[..from.length]);
}

// The front datagram, if it is wholly sealed, copied to the start of a lent buffer.
#[tactic(auto, unfolding(taking::specs::Take::take_buffer, base::specs::Choose::choose))]
pub fn take(
    w: &mut [u64; WORDS],
    buffer: &mut [u8],
    memory: &[u8],
) -> Result<Option<usize>, TakeError>
    ensures { (result ≡ take_answer (state_of w.old) (length memory.now) (length buffer.old)) × Stands (take_state result (state_of w.old)).state w.old w.new × (buffer.new ≡ take_buffer result (state_of w.old) memory.now buffer.old) }
{
    let Some(front) = take_front(w, memory.len(), buffer.len())? else {
        return Ok(None);
    };
    copy_out(memory, front, buffer);
    Ok(Some(front.length))
}
