// A flight sent again, after `flight_resend` of engine.rs: every saved record that is not acknowledged, under a new number.
#![tactic(auto)]

ghost use Rattle.std.specs.Prelude.{true, false, ◌≡◌, ◌+◌, ◌≤◌, ◌<◌, length};
ghost use Rattle.std.proofs.Math.Dec as tests;
ghost use Rattle.base.specs.Choose.{choose};
ghost use Rattle.queue.specs.Queue.{Tailed};
ghost use Rattle.resend.specs.Tests.{remembers, has_room, joined, surveyed_with, is_over, Joins};
ghost use Rattle.resend.specs.Resend.{can_remember, new_entry, new_table, sent_entry, sent_table};

use flight::{Entry, NUMBERS, REMEMBERED};
use queue::Tail;
use record::{HANDSHAKE, LAST_NUMBER};
use send_keys::SendError;

// The tests of a saved record, and whether all records pass each.
#[derive(Clone, Copy)]
pub struct Passed {
    pub usable: bool,
    pub allowed: bool,
    pub keyed: bool,
    pub room: bool,
}

// A dry run: the queue's end, and how many numbers of each epoch are used.
#[derive(Clone, Copy)]
pub struct Survey {
    pub tail: Tail,
    pub plaintext: usize,
    pub handshake: usize,
    pub application: usize,
}

// Whether a record's earlier numbers are remembered: a handshake record of epoch 2 or above.
#[tactic(auto, unfolding(crate::specs::Tests::remembers, base::specs::Choose::both))]
fn remembers(e: Entry) -> bool
    ensures { result ≡ remembers e }
{
    e.content_type == HANDSHAKE && 2 <= e.epoch
}

// Whether its present number can be remembered besides, if it is to be.
#[tactic(auto, unfolding(crate::specs::Tests::has_room, base::specs::Choose::choose))]
pub fn has_room(e: Entry) -> bool
    ensures { result ≡ has_room e }
{
    !remembers(e) || e.remembered < REMEMBERED
}

// The queue's end with a saved record sent again.
fn join(mtu: usize, t: Tail, e: Entry) -> Tail
    requires { (mtu ≤ 1500) × Tailed t × (t.count ≤ 64) × Joins mtu e }
    ensures { result ≡ joined mtu t e }
{
    if e.marked {
        return t;
    }
    let n = queue::record_len(e.epoch, e.length);
    let p = queue::place_of(mtu, t, n);
    Tail {
        used: p.offset + n,
        joinable: true,
        count: p.datagram + 1,
    }
}

#[tactic(auto, unfolding(base::specs::Choose::choose))]
fn one_if(e: Entry, epoch: u16) -> usize
    ensures { (result ≡ choose e.marked 0 (choose (tests.eqb e.epoch epoch) 1 0)) × (result ≤ 1) }
{
    usize::from(!e.marked && e.epoch == epoch)
}

// A record more.
#[tactic(auto, unfolding(crate::specs::Tests::surveyed_with))]
pub fn surveyed_with(d: Survey, mtu: usize, epoch: u16, e: Entry) -> Survey
    requires { (mtu ≤ 1500) × Tailed d.tail × (d.tail.count ≤ 64) × Joins mtu e × (d.plaintext ≤ 64) × (d.handshake ≤ 64) × (d.application ≤ 64) }
    ensures { (result ≡ surveyed_with d mtu epoch e) × (result.plaintext ≤ d.plaintext + 1) × (result.handshake ≤ d.handshake + 1) × (result.application ≤ d.application + 1) }
{
    Survey {
        tail: join(mtu, d.tail, e),
        plaintext: d.plaintext + one_if(e, 0),
        handshake: d.handshake + one_if(e, 2),
        application: d.application + one_if(e, epoch),
    }
}

// Whether so many numbers from one on would use 2^48 - 1.
#[tactic(auto, unfolding(crate::specs::Tests::is_over, base::specs::Choose::choose))]
pub fn is_over(next: u64, count: usize) -> bool
    requires { count ≤ 12 }
    ensures { result ≡ is_over next count }
{
    count != 0 && LAST_NUMBER < next.saturating_add(count as u64)
}

// Whether a record's present number is to be remembered, and a cell is free for it.
#[tactic(auto, unfolding(crate::specs::Resend::can_remember, base::specs::Choose::both))]
fn can_remember(e: Entry) -> bool
    ensures { result ≡ can_remember e }
{
    remembers(e) && e.remembered < REMEMBERED
}

// The i-th saved record has a new number; its old one is remembered where numbers are.
#[tactic(auto, unfolding(crate::specs::Resend::new_entry, crate::specs::Resend::new_table, crate::specs::Resend::with_number, base::specs::Choose::choose))]
fn renew(e: Entry, numbers: &mut [u64; NUMBERS], i: usize, number: u64) -> Entry
    requires { i < 12 }
    ensures { (result ≡ new_entry e number) × (numbers.new ≡ new_table e i numbers.old) }
{
    if can_remember(e) {
        let at = i * REMEMBERED + e.remembered;
        numbers[at] = e.number;
        return Entry {
            number,
            remembered: e.remembered + 1,
            ..e
        };
    }
    Entry { number, ..e }
}

#[tactic(auto, unfolding(crate::specs::Resend::sent_entry, crate::specs::Resend::sent_table, base::specs::Choose::choose))]
pub fn renew_if(
    a: Result<(), SendError>,
    e: Entry,
    numbers: &mut [u64; NUMBERS],
    i: usize,
    number: u64,
) -> Entry
    requires { i < 12 }
    ensures { (result ≡ sent_entry a e number) × (numbers.new ≡ sent_table a e i numbers.old) }
{
    match a {
        Ok(()) => renew(e, numbers, i, number),
        Err(_) => e,
    }
}
