// A sealing asked for and the reply to it, over the words that hold the sending side's state: of a datagram searched only its length is
// read, and only the sealing that waits and its epoch's sealed number are written.
#![tactic(auto)]

ghost use Rattle.std.specs.Prelude.{◌++◌, ◌≡◌, ◌-◌, ◌*◌, ◌≤◌, ◌<◌};
ghost use lib.ListN.{length};
ghost use Rattle.base.specs.Parts.{splice};
ghost use Rattle.words.specs.Packed as packed;
ghost use Rattle.dtls_aead.specs.Nonce.{nonce_of};
ghost use Rattle.queue.specs.Queue.{InRange};
ghost use Rattle.send_keys.specs.Keys.{iv_of};
ghost use Rattle.sealing.specs.Seek.{seek_step, seek};
ghost use Rattle.sealing.specs.Sealing.{is_held, is_asked, part_start, part_of, is_put, put_memory, seal_of, question_of, masked_header, behind_oldest, seal_answer, after_sealing, sealed_state, sealed_memory, Held};
ghost use Rattle.send_words.specs.Words.{queue_of, state_of};
ghost use Rattle.send_words.specs.Partly.{Partly};
ghost use Rattle.seal_steps.specs.Settles.{settled};
ghost use Rattle.seal_steps.specs.Last.{is_last};

use outgoing::Waiting;
use record::SEALED_HEADER_LEN;
use sealing::{Seal, SealError, Search, Step};
use send_words::{
    APPLICATION_IV, APPLICATION_IV_BACK, APPLICATION_SEALED, COUNT, FIRST, HANDSHAKE_IV,
    HANDSHAKE_IV_BACK, HANDSHAKE_SEALED, LIMIT, MTU, SEALING, SEALING_LENGTH, SEALING_SLOT,
    SEALING_START, WORDS,
};
use std::ops::ControlFlow;

// So many steps of a search pass every record that 16 datagrams can hold.
const MOST_STEPS: usize = 1999;

// ---- the tests

// Whether what is kept of the oldest record that waits is in range.
#[tactic(auto, unfolding(sealing::specs::Sealing::is_held, base::specs::Choose::choose))]
fn is_held(w: &[u64; WORDS]) -> bool
    requires { InRange (queue_of w.now) }
    ensures { result ≡ is_held (state_of w.now) }
{
    w[SEALING] != 1
        || sealing::is_span(
            send_words::waiting_of(w),
            w[MTU] as usize,
            w[LIMIT] as usize,
        )
}

// Whether a reply of so many bytes is the one that is waited for, or why it is not.
#[tactic(auto, unfolding(sealing::specs::Sealing::seal_answer, base::specs::Choose::choose))]
fn seal_answer(w: &[u64; WORDS], room: usize, length: usize) -> Result<(), SealError>
    ensures { result ≡ seal_answer (state_of w.now) room length }
{
    if !send_steps::is_ready(w, room) || !is_held(w) {
        return Err(SealError::OutOfRange);
    }
    if w[SEALING] != 1 || length != w[SEALING_LENGTH] as usize {
        return Err(SealError::NoQuestion);
    }
    Ok(())
}

// The first byte to be sealed of the oldest record that waits.
#[tactic(auto, unfolding(sealing::specs::Sealing::part_start))]
fn part_start(w: &[u64; WORDS]) -> usize
    requires { Held (state_of w.now) }
    ensures { result ≡ part_start (state_of w.now) }
{
    w[SEALING_SLOT] as usize * w[MTU] as usize + w[SEALING_START] as usize + SEALED_HEADER_LEN
}

// Whether a sealing is asked for and the queue is lent whole.
#[tactic(auto, unfolding(sealing::specs::Sealing::is_asked, base::specs::Choose::both))]
fn is_asked(w: &[u64; WORDS], room: usize) -> bool
    ensures { result ≡ is_asked (state_of w.now) room }
{
    send_steps::is_ready(w, room) && is_held(w) && w[SEALING] == 1
}

// ---- the part lent

// The part of the queue that the host seals in place, from content to tag; empty where nothing is asked.
#[tactic(auto, unfolding(sealing::specs::Sealing::part_of, base::specs::Choose::choose))]
pub fn part<'a>(w: &[u64; WORDS], memory: &'a mut [u8]) -> &'a mut [u8]
    ensures { result.now ≡ part_of (state_of w.now) memory.old }
{
    if is_asked(w, memory.len()) {
        let from = part_start(w);
        let to = from + w[SEALING_LENGTH] as usize;
        return &mut memory[from..to];
    }
    &mut memory[0..0]
}

// Sealed bytes that the host has elsewhere, written to that part; whether they fit it.
pub fn put(w: &[u64; WORDS], bytes: &[u8], memory: &mut [u8]) -> bool
    ensures { (result ≡ is_put (state_of w.now) (length bytes.now) (length memory.old)) × (memory.new ≡ put_memory (state_of w.now) bytes.now memory.old) }
{
    if is_asked(w, memory.len()) {
        let n = w[SEALING_LENGTH] as usize;
        if bytes.len() == n {
            let from = part_start(w);
            let to = from + n;
            memory[from..to].copy_from_slice(bytes);
            return true;
        }
    }
    false
}

// ---- the question

// The nonce of a number under the IV that two words hold, four bytes and eight: the number goes onto the second, before it is cut into bytes.
fn nonce_of(front: u64, back: u64, number: u64) -> [u8; 12]
    ensures { result ≡ nonce_of (packed.iv_of front back) number }
{
    let mut nonce = [0u8; 12];
    nonce[..4].copy_from_slice(&front.to_be_bytes()[4..]);
    nonce[4..].copy_from_slice(&(back ^ number).to_be_bytes());
    nonce
}

// The nonce of a number under the IV of epoch 2, or of the application epoch.
#[tactic(auto, unfolding(send_keys::specs::Keys::iv_of, base::specs::Choose::choose))]
fn nonce_in(w: &[u64; WORDS], epoch: u16, number: u64) -> [u8; 12]
    ensures { result ≡ nonce_of (iv_of (state_of w.now).keys epoch) number }
{
    if epoch == 2 {
        return nonce_of(w[HANDSHAKE_IV], w[HANDSHAKE_IV_BACK], number);
    }
    nonce_of(w[APPLICATION_IV], w[APPLICATION_IV_BACK], number)
}

// The sealing that waits.
fn oldest(w: &[u64; WORDS]) -> Seal
    requires { Held (state_of w.now) }
    ensures { result ≡ seal_of (state_of w.now) }
{
    let x = send_words::waiting_of(w);
    Seal {
        epoch: x.epoch,
        number: x.number,
        start: part_start(w),
        length: x.length,
        nonce: nonce_in(w, x.epoch, x.number),
        header: headers::unified_header(x.epoch, x.number, x.length as u16),
    }
}

// What the host is asked.
#[tactic(auto, unfolding(sealing::specs::Sealing::question_of, base::specs::Choose::choose))]
pub fn question(w: &[u64; WORDS]) -> Result<Option<Seal>, SealError>
    ensures { result ≡ question_of (state_of w.now) }
{
    if !send_steps::is_sound(w) || !is_held(w) {
        return Err(SealError::OutOfRange);
    }
    if w[SEALING] == 1 {
        return Ok(Some(oldest(w)));
    }
    Ok(None)
}

// ---- the next record that waits

// One step of the search.
#[tactic(auto, unfolding(sealing::specs::Seek::seek_step, base::specs::Choose::choose))]
fn seek_step(w: &[u64; WORDS], d: &[u8], c: Search) -> Step
    requires { InRange (queue_of w.now) }
    ensures { result ≡ seek_step (queue_of w.now) d.now c }
{
    let nth = c.datagram;
    let offset = c.offset;
    if w[COUNT] as usize <= nth {
        return ControlFlow::Break(outgoing::no_waiting());
    }
    let slot = queue::slot_of(w[FIRST] as usize, w[LIMIT] as usize, nth);
    let len = send_steps::length_at(w, slot);
    if len <= offset {
        return sealing::go_beyond(c);
    }
    let x = base::fragment(d, slot * w[MTU] as usize + offset, len - offset);
    sealing::step_of(x, slot, c)
}

// The first record that waits from where the search is on.
fn seek_from(w: &[u64; WORDS], d: &[u8], from: Search) -> Waiting
    requires { InRange (queue_of w.now) }
    ensures { result ≡ seek 1999 (queue_of w.now) d.now from }
{
    let mut c = from;
    for _ in 0..MOST_STEPS {
        match seek_step(w, d, c) {
            ControlFlow::Break(found) => return found,
            ControlFlow::Continue(next) => c = next,
        }
    }
    outgoing::no_waiting()
}

// Where the search begins: behind the oldest.
#[tactic(auto, unfolding(sealing::specs::Sealing::behind_oldest))]
fn behind_oldest(w: &[u64; WORDS]) -> Search
    requires { Held (state_of w.now) }
    ensures { result ≡ behind_oldest (state_of w.now) }
{
    let nth = sealing::nth_of(
        w[FIRST] as usize,
        w[LIMIT] as usize,
        w[SEALING_SLOT] as usize,
    );
    Search {
        datagram: nth,
        offset: w[SEALING_START] as usize + SEALED_HEADER_LEN + w[SEALING_LENGTH] as usize,
    }
}

// Whether nothing is queued behind the oldest: it ends its datagram, and no datagram follows.
#[tactic(auto, unfolding(crate::specs::Last::is_last, base::specs::Choose::both))]
fn is_last(w: &[u64; WORDS], from: Search) -> bool
    requires { Held (state_of w.now) × (from ≡ behind_oldest (state_of w.now)) }
    ensures { result ≡ is_last (state_of w.now) }
{
    w[COUNT] as usize <= from.datagram + 1
        && send_steps::length_at(w, w[SEALING_SLOT] as usize) <= from.offset
}

// ---- the reply

// A number of an epoch is sealed, and this sealing waits next.
fn settle(w: &mut [u64; WORDS], epoch: u16, number: u64, next: Waiting)
    requires { number < 281474976710655 }
    ensures { Partly (settled (state_of w.old) epoch number next) w.old w.new }
{
    send_words::put_waiting(w, next);
    let above = number + 1;
    if epoch == 2 {
        w[HANDSHAKE_SEALED] = above;
        return;
    }
    w[APPLICATION_SEALED] = above;
}

// The oldest is sealed: its header gets the mask on its number, and this sealing waits next.
fn mask_oldest(w: &mut [u64; WORDS], mask: [u8; 2], memory: &mut [u8], next: Waiting)
    requires { Held (state_of w.old) × ((state_of w.old).queue.limit * (state_of w.old).queue.mtu ≤ length memory.old) }
    ensures { Partly (settled (state_of w.old) (state_of w.old).waiting.epoch (state_of w.old).waiting.number next) w.old w.new × (memory.new ≡ splice (part_start (state_of w.old) - 5) (masked_header (state_of w.old).waiting.epoch (state_of w.old).waiting.number (state_of w.old).waiting.length mask) memory.old) }
{
    let x = send_words::waiting_of(w);
    let inner = part_start(w);
    let from = inner - SEALED_HEADER_LEN;
    let header = sealing::masked_header(x.epoch, x.number, x.length as u16, mask);
    memory[from..inner].copy_from_slice(&header);
    settle(w, x.epoch, x.number, next);
}

// The header with the mask on its number, and what waits next. Most often nothing is queued behind: then nothing is searched.
fn reply(w: &mut [u64; WORDS], mask: [u8; 2], memory: &mut [u8])
    requires { Held (state_of w.old) × ((state_of w.old).queue.limit * (state_of w.old).queue.mtu ≤ length memory.old) }
    ensures { Partly (after_sealing (state_of w.old) memory.old) w.old w.new × (memory.new ≡ splice (part_start (state_of w.old) - 5) (masked_header (state_of w.old).waiting.epoch (state_of w.old).waiting.number (state_of w.old).waiting.length mask) memory.old) }
{
    let from = behind_oldest(w);
    if is_last(w, from) {
        mask_oldest(w, mask, memory, outgoing::no_waiting());
        return;
    }
    let next = seek_from(w, memory, from);
    mask_oldest(w, mask, memory, next);
}

// The host has sealed so many bytes in place, and this is the mask of the two number bytes.
#[tactic(auto, unfolding(sealing::specs::Sealing::sealed_state, sealing::specs::Sealing::sealed_memory, base::specs::Choose::choose))]
pub fn sealed(
    w: &mut [u64; WORDS],
    length: usize,
    mask: [u8; 2],
    memory: &mut [u8],
) -> Result<(), SealError>
    ensures { (result ≡ seal_answer (state_of w.old) (lib.ListN.length memory.old) length) × Partly (sealed_state result (state_of w.old) memory.old).state w.old w.new × (memory.new ≡ sealed_memory result (state_of w.old) mask memory.old) }
{
    seal_answer(w, memory.len(), length)?;
    reply(w, mask, memory);
    Ok(())
}
