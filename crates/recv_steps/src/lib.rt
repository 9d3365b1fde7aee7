// The cut of a datagram, over the words that hold the receive side's state.
#![tactic(auto)]

ghost use Rattle.std.specs.Prelude.{◌≡◌, ◌+◌, ◌≤◌, ◌<◌, length, true};
ghost use Rattle.datagram.specs.Datagram.{is_sound};
ghost use Rattle.opening_reply.specs.Opening.{cancelled};
ghost use Rattle.record.specs.Record.{parsed};
ghost use Rattle.records.specs.Records.{locked_step, sealed_step, step_of, asked_again, asking, read_step};
ghost use Rattle.recv_keys.specs.Keys.{most_epochs, find, resolve, is_full};
ghost use Rattle.recv_words.specs.Words.{keys_of, datagram_of};
ghost use Rattle.recv_steps.specs.Goes.{goes_on, Goes};

use datagram::{Ask, Datagram, Question, Reading, Reason, Step};
use opening_reply::Cancelled;
use record::{Ciphertext, PLAINTEXT_HEADER_LEN, Parsed};
use recv_keys::{APPS, EPOCHS};
use recv_words::{COUNT, ENCRYPTED, LEAST, WORDS};

// ---- the cut, over the words

// A sealed record while the peer encrypts: its epoch is resolved, before its mask is asked for.
fn locked_step(w: &[u64; WORDS], b: Datagram, c: Ciphertext) -> Step
    requires { ((keys_of w.now).count ≤ most_epochs) × (b.at + c.header_len + c.length ≤ 16384) }
    ensures { result ≡ locked_step (resolve (keys_of w.now) c.epoch_bits) (keys_of w.now) b c }
{
    let next = b.at + c.header_len + c.length;
    let length = c.length;
    let f = recv_words::resolve_epoch(w, c.epoch_bits);
    match f {
        None => datagram::pass(b, next, Reason::NoKeys),
        Some(i) => {
            let short = length < 16;
            if short {
                return datagram::pass(b, next, Reason::TooShort);
            }
            if length < w[LEAST] as usize {
                return datagram::pass(b, next, Reason::TooShort);
            }
            records::ask_mask(b, recv_words::epoch_at(w, i), c)
        }
    }
}

#[tactic(auto, unfolding(records::specs::Records::sealed_step, base::specs::Choose::choose))]
fn sealed_step(w: &[u64; WORDS], b: Datagram, c: Ciphertext) -> Step
    requires { ((keys_of w.now).count ≤ most_epochs) × (b.at + c.header_len + c.length ≤ 16384) }
    ensures { result ≡ sealed_step (keys_of w.now) b c }
{
    if w[ENCRYPTED] == 1 {
        return locked_step(w, b, c);
    }
    let start = b.at + c.header_len;
    let next = start + c.length;
    let bits = c.epoch_bits;
    if bits < 2 {
        return datagram::pass(b, next, Reason::EarlyBits);
    }
    datagram::count(
        b,
        next,
        Reading::Unopened {
            epoch_bits: bits,
            number: c.sequence_number,
            start: start,
            length: c.length,
        },
    )
}

// One record, at the start of the rest of a datagram.
fn one_record(w: &[u64; WORDS], b: Datagram, d: &[u8]) -> Step
    requires { ((keys_of w.now).count ≤ most_epochs) × (b.at + length d.now ≤ 16384) }
    ensures { result ≡ step_of (parsed d.now) (keys_of w.now) b }
{
    let p = record::parse(d);
    let start = b.at + PLAINTEXT_HEADER_LEN;
    match p {
        Parsed::End => datagram::end(b, Reading::End),
        Parsed::Incomplete => datagram::end(b, Reading::Incomplete),
        Parsed::Invalid(n) => datagram::pass(b, start + n, Reason::Invalid),
        Parsed::Plaintext(r) => datagram::count(
            b,
            start + r.length,
            Reading::Plaintext {
                content_type: r.content_type,
                number: r.sequence_number,
                start: start,
                length: r.length,
            },
        ),
        Parsed::Ciphertext(c) => sealed_step(w, b, c),
    }
}

fn ask_again(w: &[u64; WORDS], b: Datagram, a: Ask, number: u64) -> Step
    requires { (keys_of w.now).count ≤ most_epochs }
    ensures { result ≡ asked_again (find (keys_of w.now).entries a.epoch (keys_of w.now).count) (keys_of w.now) b a number }
{
    let f = recv_words::find_epoch(w, w[COUNT] as usize, a.epoch);
    match f {
        None => datagram::tell(b, Reading::Setting),
        Some(i) => records::ask_opening(recv_words::entry_at(w, i), b, a, number),
    }
}

// The record at the cursor, where no question waits.
#[tactic(auto, unfolding(records::specs::Records::asking))]
pub fn go_on(w: &[u64; WORDS], b: Datagram, d: &[u8]) -> Step
    requires { ((keys_of w.now).count ≤ most_epochs) × (b.at ≤ length d.now) × (length d.now ≤ 16384) }
    ensures { result ≡ asking Question.Nothing (keys_of w.now) b d.now }
{
    one_record(w, b, base::behind(d, b.at))
}

// Whether the cut goes on: no question waits, and the datagram is the one begun.
#[tactic(auto, unfolding(crate::specs::Goes::goes_on, base::specs::Choose::both))]
pub fn goes_on(w: &[u64; WORDS], b: Datagram, n: usize) -> bool
    requires { b ≡ datagram_of w.now }
    ensures { result ≡ goes_on (keys_of w.now) b n }
{
    if recv_words::is_sound(w, b) {
        let size = b.size;
        if n == size {
            let q = b.question;
            return match q {
                Question::Nothing => true,
                Question::Mask(_) => false,
                Question::Opening(_, _) => false,
            };
        }
        return false;
    }
    false
}

// What a read says where the cut does not go on: 12, 15, or the question that waits again.
pub fn wait_step(w: &[u64; WORDS], b: Datagram, d: &[u8]) -> Step
    requires { (b ≡ datagram_of w.now) × (Goes (keys_of w.now) b (length d.now) → ⊥) }
    ensures { result ≡ read_step (keys_of w.now) b d.now }
{
    if recv_words::is_sound(w, b) {
        let size = b.size;
        let at = b.at;
        if d.len() == size {
            let q = b.question;
            return match q {
                Question::Nothing => datagram::tell(b, Reading::End),
                Question::Mask(a) => datagram::tell(
                    b,
                    Reading::Mask {
                        epoch: a.epoch,
                        start: at + a.header_len,
                    },
                ),
                Question::Opening(a, n) => ask_again(w, b, a, n),
            };
        }
        return datagram::tell(b, Reading::Reply);
    }
    datagram::tell(b, Reading::Setting)
}

// ---- an epoch more, an epoch less

// Whether there is no place for one epoch more.
#[tactic(auto, unfolding(recv_keys::specs::Keys::is_full, base::specs::Choose::choose))]
pub fn is_full(w: &[u64; WORDS], epoch: u16) -> bool
    requires { (keys_of w.now).count ≤ most_epochs }
    ensures { result ≡ is_full (keys_of w.now) epoch }
{
    let count = w[COUNT] as usize;
    if EPOCHS <= count {
        return true;
    }
    if 3 <= epoch {
        return APPS <= recv_words::count_apps(w, count);
    }
    false
}

// The question under an epoch goes, and the cut goes on behind its record.
pub fn cancel(w: &[u64; WORDS], b: Datagram, epoch: u16) -> Cancelled
    requires { is_sound (keys_of w.now) b ≡ true }
    ensures { result ≡ cancelled b.question b epoch }
{
    let q = b.question;
    match q {
        Question::Nothing => Cancelled {
            dropped: false,
            datagram: b,
        },
        Question::Mask(a) => opening_reply::cancel_ask(a, b, epoch),
        Question::Opening(a, _) => opening_reply::cancel_ask(a, b, epoch),
    }
}
