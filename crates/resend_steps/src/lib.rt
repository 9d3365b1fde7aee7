// A flight sent again, over the words of the sending side and of the flight: each saved record is read, and renewed, in its place.
#![tactic(auto)]

ghost use Rattle.std.specs.Prelude.{true, Ok, List, ◌≡◌, ℕ, ◌≤◌, ◌<◌, get_or};
ghost use Rattle.base.specs.Choose.{choose};
ghost use Rattle.queue.specs.Queue.{InRange, Tailed, tail_of};
ghost use Rattle.send_keys.specs.Keys.{next_of};
ghost use Rattle.resend.specs.Tests.{passed_with, passed_after, surveyed_after, is_over, closed_state, fit_answer, resend_answer, Fitting};
ghost use Rattle.resend.specs.Resend.{again_at, again_after};
ghost use Rattle.send_words.specs.Words.{mtu-at, queue_of, state_of};
ghost use Rattle.send_words.specs.Partly.{Partly};
ghost use Rattle.flight_words.specs.Words.{saved-at, flight_of};
ghost use Rattle.resend_steps.specs.Again.{Relaid};
ghost use Rattle.resend_steps.specs.Answer.{refused_by};

use flight::{Entry, NUMBERS};
use flight_words::SAVED;
use queue::Tail;
use resend::{Passed, Survey};
use send_keys::SendError;
use send_words::{APPLICATION, CLOSED, LIMIT, MTU, WORDS};

// ---- whether it can be sent again

// The tests of a saved record more; an acknowledged one passes them all.
#[tactic(auto, unfolding(resend::specs::Tests::passed_with, resend::specs::Tests::passes, base::specs::Choose::choose))]
fn passed_with(p: Passed, w: &[u64; WORDS], e: Entry) -> Passed
    ensures { result ≡ passed_with p (state_of w.now).keys (get_or w.now mtu-at 0) e }
{
    if e.marked {
        return p;
    }
    let usable = send_steps::is_usable(w, e.epoch);
    let allowed = outgoing::is_allowed(w[MTU] as usize, e.epoch, e.content_type, e.length);
    let keyed = send_steps::is_keyed(w, e.epoch);
    let room = resend::has_room(e);
    Passed {
        usable: usable && p.usable,
        allowed: allowed && p.allowed,
        keyed: keyed && p.keyed,
        room: room && p.room,
    }
}

// Which of the tests every saved record passes.
fn all_passed(w: &[u64; WORDS], f: &[u64; flight_words::WORDS]) -> Passed
    requires { get_or f.now saved-at 0 ≤ 12 }
    ensures { (n : List ℕ) → result ≡ passed_after (state_of w.now).keys (get_or w.now mtu-at 0) (flight_of f.now n) (get_or f.now saved-at 0) }
{
    let saved = f[SAVED] as usize;
    let mut p = Passed {
        usable: true,
        allowed: true,
        keyed: true,
        room: true,
    };
    for i in 0..saved {
        p = passed_with(p, w, flight_words::entry_of(f, i));
    }
    p
}

// The first test that some record does not pass.
fn refused_by(p: Passed) -> Result<(), SendError>
    ensures { result ≡ refused_by p (Ok tt) }
{
    if !p.usable {
        return Err(SendError::BadEpoch);
    }
    if !p.allowed {
        return Err(SendError::BadRecord);
    }
    if !p.keyed {
        return Err(SendError::KeysAbsent);
    }
    if !p.room {
        return Err(SendError::HistoryFull);
    }
    Ok(())
}

// A dry run: all of them sent again from the queue's end on, with this application epoch.
fn survey_all(mtu: usize, epoch: u16, from: Tail, f: &[u64; flight_words::WORDS]) -> Survey
    requires { (mtu ≤ 1500) × Tailed from × (from.count ≤ 16) × (get_or f.now saved-at 0 ≤ 12) × ((n : List ℕ) → Fitting mtu (flight_of f.now n)) }
    ensures { ((n : List ℕ) → result ≡ surveyed_after mtu epoch from (flight_of f.now n) (get_or f.now saved-at 0)) × (result.plaintext ≤ 12) × (result.handshake ≤ 12) × (result.application ≤ 12) }
{
    let saved = f[SAVED] as usize;
    let mut d = Survey {
        tail: from,
        plaintext: 0,
        handshake: 0,
        application: 0,
    };
    for i in 0..saved {
        d = resend::surveyed_with(d, mtu, epoch, flight_words::entry_of(f, i));
    }
    d
}

// Whether one of the three epochs has too few numbers left.
#[tactic(auto, unfolding(base::specs::Choose::choose))]
fn any_spent(w: &[u64; WORDS], epoch: u16, d: Survey) -> bool
    requires { (d.plaintext ≤ 12) × (d.handshake ≤ 12) × (d.application ≤ 12) }
    ensures { result ≡ choose (is_over (next_of (state_of w.now).keys 0) d.plaintext) true (choose (is_over (next_of (state_of w.now).keys 2) d.handshake) true (is_over (next_of (state_of w.now).keys epoch) d.application)) }
{
    resend::is_over(send_steps::next_of(w, 0), d.plaintext)
        || resend::is_over(send_steps::next_of(w, 2), d.handshake)
        || resend::is_over(send_steps::next_of(w, epoch), d.application)
}

// The queue's end, closed to further records.
fn closed_tail(w: &[u64; WORDS]) -> Tail
    requires { InRange (queue_of w.now) }
    ensures { (result ≡ tail_of (closed_state (state_of w.now)).queue) × Tailed result × (result.count ≤ 16) }
{
    let t = send_steps::tail_of(w);
    Tail {
        used: t.used,
        joinable: false,
        count: t.count,
    }
}

// Whether a new datagram beyond the limit is needed, or a number that is spent.
fn fit_answer(w: &[u64; WORDS], f: &[u64; flight_words::WORDS]) -> Result<(), SendError>
    requires { InRange (queue_of w.now) × (get_or f.now saved-at 0 ≤ 12) × ((n : List ℕ) → Fitting (get_or w.now mtu-at 0) (flight_of f.now n)) }
    ensures { (n : List ℕ) → result ≡ fit_answer (closed_state (state_of w.now)) (flight_of f.now n) }
{
    let epoch = words::low(w[APPLICATION]);
    let d = survey_all(w[MTU] as usize, epoch, closed_tail(w), f);
    let t = d.tail;
    if (w[LIMIT] as usize) < t.count {
        return Err(SendError::QueueFull);
    }
    if any_spent(w, epoch, d) {
        return Err(SendError::NumbersSpent);
    }
    Ok(())
}

// Whether every saved record that is not acknowledged can be sent again, or why not.
pub fn resend_answer(
    w: &[u64; WORDS],
    f: &[u64; flight_words::WORDS],
    room: usize,
    kept: usize,
) -> Result<(), SendError>
    ensures { (n : List ℕ) → result ≡ resend_answer (state_of w.now) (flight_of f.now n) room kept }
{
    if !send_steps::is_ready(w, room) {
        return Err(SendError::OutOfRange);
    }
    if !flight::has_room(f[SAVED] as usize, w[MTU] as usize, kept) {
        return Err(SendError::OutOfRange);
    }
    refused_by(all_passed(w, f))?;
    fit_answer(w, f)
}

// ---- sent again

// The last datagram closed to further records.
pub fn close(w: &mut [u64; WORDS])
    ensures { Partly (closed_state (state_of w.old)) w.old w.new }
{
    w[CLOSED] = 1;
}

// The i-th saved record sent again under a new number, unless it is acknowledged.
fn again(
    w: &mut [u64; WORDS],
    f: &mut [u64; flight_words::WORDS],
    numbers: &mut [u64; NUMBERS],
    kept: &[u8],
    memory: &mut [u8],
    i: usize,
)
    requires { InRange (queue_of w.old) × (i < 12) }
    ensures { Relaid (again_at kept.now i) w.old f.old numbers.old memory.old w.new f.new numbers.new memory.new }
{
    let e = flight_words::entry_of(f, i);
    if e.marked {
        return;
    }
    let number = send_steps::next_of(w, e.epoch);
    let content = base::fragment(kept, i * (w[MTU] as usize), e.length);
    let a = send_steps::send(w, e.epoch, e.content_type, content, memory);
    let t = resend::renew_if(a, e, numbers, i, number);
    flight_words::put_numbers(f, i, t.number, t.remembered);
}

// The saved records that are not acknowledged, sent again one after the other.
pub fn resend_all(
    w: &mut [u64; WORDS],
    f: &mut [u64; flight_words::WORDS],
    numbers: &mut [u64; NUMBERS],
    kept: &[u8],
    memory: &mut [u8],
)
    requires { InRange (queue_of w.old) × (get_or f.old saved-at 0 ≤ 12) }
    ensures { Relaid (λ l. again_after kept.now l l.flight.saved) w.old f.old numbers.old memory.old w.new f.new numbers.new memory.new }
{
    let saved = f[SAVED] as usize;
    for i in 0..saved {
        again(w, f, numbers, kept, memory, i);
    }
}
