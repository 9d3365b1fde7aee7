// Notes for the outgoing ACK, the ACK sent, and an ACK acted on, over the words that a host keeps: a call reads and writes only those it needs.
#![tactic(auto)]

ghost use Rattle.std.specs.Prelude.{true, List, ◌≡◌, ℕ, ◌+◌, ◌*◌, ◌≤◌, ◌<◌, length, get_or};
ghost use Rattle.flight.specs.Flight.{entry_at};
ghost use Rattle.process_ack.specs.Ack.{is_acked, mark_at, marks_after, tally_after, emptied, acked};
ghost use Rattle.acks.specs.Acks.{noted, ack_epoch, ack_content};
ghost use Rattle.send_words.specs.Words.{state_of};
ghost use Rattle.send_steps.specs.Sends.{Sends};
ghost use Rattle.flight_words.specs.Words.{saved-at, flight_of, flat_to};
ghost use Rattle.ack_steps.specs.Steps.{notes_of, tabled, noting, SendsAck, Flights, acted_on};

use acks::{MOST_CONTENT, OutOfRange};
use flight::NUMBERS;
use flight_words::SAVED;
use process_ack::{Pairs, Tally};
use record::{ACK, RECORD_NUMBER_LEN};
use send_keys::SendError;
use send_words::{APPLICATION, WORDS};

// The count of what is noted is one word.
const NOTED: usize = 0;

// ---- the outgoing ACK

// Notes a record for the outgoing ACK, unless 32 are noted; whether it is noted.
pub fn note(
    count: &mut [u64; 1],
    epochs: &mut [u64; 32],
    numbers: &mut [u64; 32],
    epoch: u64,
    number: u64,
) -> Result<bool, OutOfRange>
    ensures { noting result (notes_of count.new epochs.new numbers.new) ≡ noted (notes_of count.old epochs.old numbers.old) epoch number }
{
    let n = count[NOTED] as usize;
    if 32 < n {
        return Err(OutOfRange);
    }
    let room = n < 32;
    if room {
        epochs[n] = epoch;
        numbers[n] = number;
        *count = [(n + 1) as u64];
        return Ok(true);
    }
    Ok(false)
}

// The application epoch if keyed, else 2.
fn ack_epoch(w: &[u64; WORDS]) -> u16
    ensures { result ≡ ack_epoch (state_of w.now).keys }
{
    let epoch = words::low(w[APPLICATION]);
    if epoch == 0 {
        return 2;
    }
    epoch
}

// The content of the ACK: a length, then the first n noted records in order.
fn write_content(d: &mut [u8], n: usize, epochs: &[u64; 32], numbers: &[u64; 32])
    requires { (length d.old ≡ 2 + n * 16) × (n ≤ 32) }
    ensures { d.new ≡ ack_content (tabled n epochs.now numbers.now) }
{
    acks::write_length(d, n * RECORD_NUMBER_LEN);
    for i in 0..n {
        acks::write_pair(d, 2 + i * RECORD_NUMBER_LEN, epochs[i], numbers[i]);
    }
}

// The ACK sent, its content put together in a buffer.
fn send_from(
    w: &mut [u64; WORDS],
    n: usize,
    epochs: &[u64; 32],
    numbers: &[u64; 32],
    buffer: &mut [u8],
    queue: &mut [u8],
) -> Result<(), SendError>
    requires { (n ≤ 32) × (514 ≤ length buffer.old) }
    ensures { Sends result (ack_epoch (state_of w.old).keys) 26 (ack_content (tabled n epochs.now numbers.now)) w.old w.new queue.old queue.new }
{
    let start = 0;
    let end = 2 + n * 16;
    write_content(&mut buffer[start..end], n, epochs, numbers);
    send_steps::send(w, ack_epoch(w), ACK, &buffer[start..end], queue)
}

fn send_noted(
    w: &mut [u64; WORDS],
    n: usize,
    epochs: &[u64; 32],
    numbers: &[u64; 32],
    queue: &mut [u8],
) -> Result<(), SendError>
    requires { n ≤ 32 }
    ensures { Sends result (ack_epoch (state_of w.old).keys) 26 (ack_content (tabled n epochs.now numbers.now)) w.old w.new queue.old queue.new }
{
    let mut content = [0u8; MOST_CONTENT];
    send_from(w, n, epochs, numbers, &mut content, queue)
}

// Sends the ACK: all that is noted, wholly or not at all; then nothing is noted. With none noted nothing is sent.
pub fn send_ack(
    w: &mut [u64; WORDS],
    count: &mut [u64; 1],
    epochs: &[u64; 32],
    numbers: &[u64; 32],
    queue: &mut [u8],
) -> Result<(), SendError>
    ensures { SendsAck result w.new w.old (notes_of count.new epochs.now numbers.now) (notes_of count.old epochs.now numbers.now) queue.new queue.old }
{
    let n = count[NOTED] as usize;
    if 32 < n {
        return Err(SendError::OutOfRange);
    }
    if !send_steps::is_ready(w, queue.len()) {
        return Err(SendError::OutOfRange);
    }
    if n == 0 {
        return Ok(());
    }
    send_noted(w, n, epochs, numbers, queue)?;
    *count = [0];
    Ok(())
}

// ---- an ACK that came in

// The i-th saved record is marked if an ACK with these pairs acknowledges it.
fn mark(f: &mut [u64; flight_words::WORDS], i: usize, numbers: &[u64; NUMBERS], p: Pairs)
    requires { i < 12 }
    ensures { Flights (λ x. mark_at x i (is_acked p.entry.content.now p.entry.count x.numbers i (entry_at x i))) numbers.now f.old f.new }
{
    let e = flight_words::entry_of(f, i);
    let m = p.acknowledges(numbers, i, e);
    flight_words::put_mark(f, i, m);
}

// The saved records that an ACK with these pairs acknowledges are marked.
fn mark_all(f: &mut [u64; flight_words::WORDS], saved: usize, numbers: &[u64; NUMBERS], p: Pairs)
    requires { saved ≤ 12 }
    ensures { Flights (λ x. marks_after p.entry.content.now p.entry.count x saved) numbers.now f.old f.new }
{
    for i in 0..saved {
        mark(f, i, numbers, p);
    }
}

// The records of epoch 2 among those saved.
fn tally_of(f: &[u64; flight_words::WORDS], saved: usize) -> Tally
    requires { saved ≤ 12 }
    ensures { (n : List ℕ) → result ≡ tally_after (flight_of f.now n) saved }
{
    let mut t = Tally {
        any: false,
        unmarked: false,
    };
    for i in 0..saved {
        t = process_ack::tallied(t, flight_words::entry_of(f, i));
    }
    t
}

// The flight empties if records of epoch 2 are saved and all of them are marked.
fn empty(f: &mut [u64; flight_words::WORDS], saved: usize)
    requires { (saved ≡ get_or f.old saved-at 0) × (saved ≤ 12) }
    ensures { (n : List ℕ) → Flights emptied n f.old f.new }
{
    let t = tally_of(f, saved);
    if t.any {
        let left = t.unmarked;
        if left {
            return;
        }
        f[SAVED] = 0;
        return;
    }
}

// Acts on the content of an ACK. One without its form marks nothing and is not refused.
pub fn process_ack(
    f: &mut [u64; flight_words::WORDS],
    numbers: &[u64; 384],
    content: &[u8],
) -> Result<(), SendError>
    ensures { (acted_on result (flight_of f.new numbers.now) ≡ acked (flight_of f.old numbers.now) content.now) × (flat_to f.old 12 ≡ true → flat_to f.new 12 ≡ true) }
{
    let saved = f[SAVED] as usize;
    if 12 < saved {
        return Err(SendError::OutOfRange);
    }
    let Some(pairs) = Pairs::new(content) else {
        return Ok(());
    };
    mark_all(f, saved, numbers, pairs);
    empty(f, saved);
    Ok(())
}
