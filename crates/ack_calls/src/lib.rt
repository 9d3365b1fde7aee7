// Resends and ACKs as a host calls them. The words of the sending side and of the flight are those of send_calls and flight_calls.
// What is noted for the outgoing ACK is a count and two tables of 32 words.
#![tactic(auto)]

ghost use Rattle.std.specs.Prelude.{List, ◌≡◌, ℕ, ◌≤◌, get_or};
ghost use Rattle.flight_words.specs.Words.{saved-at, flight_of};
ghost use Rattle.ack_steps.specs.Steps.{notes_of};
ghost use Rattle.ack_calls.specs.Calls.{
  note_told,
  sent_told,
  no_acked,
  left_behind,
  ResendCall,
  ProcessAckCall,
  NoteCall,
  SendAckCall,
  FreshNotesCall,
};

use acks::OutOfRange;
use answers::HuskTold;
use flight_words::SAVED;
use send_keys::SendError;

// The count of what is noted is one word.
const NOTED: usize = 0;

// What an ACK did: how many saved records it marked that were not marked before, those of a flight that it emptied among them; and what
// is left behind it, not acknowledged and saved. With 0 saved the flight is empty. The C interface has numbers.
#[repr(C)]
#[derive(Clone, Copy)]
pub struct HuskAcked {
    pub refusal: u8,
    pub marked: u8,
    pub unacknowledged: u8,
    pub saved: u8,
}

// ---- answers

fn note_told(a: Result<bool, OutOfRange>) -> HuskTold
    ensures { result ≡ note_told a }
{
    match a {
        Ok(true) => answers::told(0, 1),
        Ok(false) => answers::told(0, 0),
        Err(OutOfRange) => answers::told(12, 0),
    }
}

// An ACK of so many noted records is sent where some are and nothing is refused.
fn sent_told(a: Result<(), SendError>, noted: u64) -> HuskTold
    ensures { result ≡ sent_told a noted }
{
    match a {
        Ok(()) => answers::told(0, (noted != 0) as u8),
        Err(e) => answers::told(u8::from(e), 0),
    }
}

fn no_acked() -> HuskAcked
    ensures { result ≡ no_acked 12 }
{
    HuskAcked {
        refusal: 12,
        marked: 0,
        unacknowledged: 0,
        saved: 0,
    }
}

// What is left of the flight behind an ACK that marked so many.
fn left_behind(f: &[u64; flight_words::WORDS], marked: usize) -> HuskAcked
    requires { (get_or f.now saved-at 0 ≤ 12) × (marked ≤ 12) }
    ensures { (n : List ℕ) → result ≡ left_behind marked (flight_of f.now n) }
{
    let saved = f[SAVED] as usize;
    HuskAcked {
        refusal: 0,
        marked: marked as u8,
        unacknowledged: status_calls::unmarked(f, saved) as u8,
        saved: saved as u8,
    }
}

// ---- the calls

// Sends the flight again, but for what is acknowledged, wholly or not at all. Told is how many records were sent.
pub fn resend(
    w: &mut [u64; send_words::WORDS],
    f: &mut [u64; flight_words::WORDS],
    numbers: &mut [u64; 384],
    kept: &[u8],
    queue: &mut [u8],
) -> HuskTold
    ensures { ResendCall result w.new w.old f.new f.old numbers.new numbers.old kept.now queue.new queue.old }
{
    if send_words::is_flat(w) {
        if flight_words::is_flat(f) {
            return match resend_steps::resend_answer(w, f, queue.len(), kept.len()) {
                Ok(()) => {
                    let saved = f[SAVED] as usize;
                    let n = status_calls::unmarked(f, saved);
                    resend_steps::close(w);
                    resend_steps::resend_all(w, f, numbers, kept, queue);
                    answers::told(0, n as u8)
                }
                Err(e) => answers::told(u8::from(e), 0),
            };
        }
        return answers::told(12, 0);
    }
    answers::told(12, 0)
}

// Acts on an ACK with this content: marks the saved records that it names; the flight empties if those of epoch 2 are all marked. An ACK
// without its form marks none and is not refused.
pub fn process_ack(
    f: &mut [u64; flight_words::WORDS],
    numbers: &mut [u64; 384],
    content: &[u8],
) -> HuskAcked
    ensures { ProcessAckCall result f.new f.old numbers.new numbers.old content.now }
{
    if flight_words::is_flat(f) {
        let saved = f[SAVED] as usize;
        if saved <= 12 {
            let before = status_calls::unmarked(f, saved);
            // It refuses more than 12 alone.
            let _ = ack_steps::process_ack(f, numbers, content);
            // Of those saved before: a flight that empties keeps its marks.
            let behind = status_calls::unmarked(f, saved);
            return left_behind(f, before - behind);
        }
        return no_acked();
    }
    no_acked()
}

// Nothing noted, whatever stood in the words.
pub fn fresh_notes(count: &mut [u64; 1], epochs: &mut [u64; 32], numbers: &mut [u64; 32])
    ensures { FreshNotesCall (notes_of count.new epochs.new numbers.new) }
{
    *count = [0u64; 1];
    *epochs = [0u64; 32];
    *numbers = [0u64; 32];
}

// Notes a record for the outgoing ACK, unless 32 are noted. Told is 1 where it is noted, 0 where it is not.
pub fn note(
    count: &mut [u64; 1],
    epochs: &mut [u64; 32],
    numbers: &mut [u64; 32],
    epoch: u64,
    number: u64,
) -> HuskTold
    ensures { NoteCall result (notes_of count.new epochs.new numbers.new) (notes_of count.old epochs.old numbers.old) epoch number }
{
    note_told(ack_steps::note(count, epochs, numbers, epoch, number))
}

// Sends the ACK of all that is noted, if anything is, wholly or not at all; then nothing is noted. Told is 1 where a record was sent, 0
// where nothing was noted.
pub fn send_ack(
    w: &mut [u64; send_words::WORDS],
    count: &mut [u64; 1],
    epochs: &mut [u64; 32],
    numbers: &mut [u64; 32],
    queue: &mut [u8],
) -> HuskTold
    ensures { SendAckCall result w.new w.old (notes_of count.new epochs.new numbers.new) (notes_of count.old epochs.old numbers.old) queue.new queue.old }
{
    if send_words::is_flat(w) {
        let n = count[NOTED];
        let a = ack_steps::send_ack(w, count, epochs, numbers, queue);
        return sent_told(a, n);
    }
    answers::told(12, 0)
}
