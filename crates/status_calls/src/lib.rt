// What a host asks of its words without reading one: how much is saved and not acknowledged, how much is queued and waits to be sealed.
// A call changes nothing.
#![tactic(auto)]

ghost use Rattle.std.specs.Prelude.{List, ◌≡◌, ℕ, ◌+◌, ◌-◌, ◌≤◌, min};
ghost use Rattle.base.specs.Choose.{choose};
ghost use Rattle.flight.specs.Status.{unmarked_after};
ghost use Rattle.flight_words.specs.Words.{flight_of};
ghost use Rattle.status_calls.specs.Calls.{most, no_saved, no_queued, FlightStatusCall, SendingStatusCall};

use flight::RECORDS;
use flight_words::SAVED;
use send_words::{APPLICATION_NEXT, APPLICATION_SEALED, COUNT, HANDSHAKE_NEXT, HANDSHAKE_SEALED};

// How many records are saved, and how many of them no ACK has named.
#[repr(C)]
#[derive(Clone, Copy)]
pub struct HuskSaved {
    pub refusal: u8,
    pub saved: u8,
    pub unacknowledged: u8,
}

// How many datagrams are queued, and how many records wait to be sealed.
#[repr(C)]
#[derive(Clone, Copy)]
pub struct HuskQueued {
    pub refusal: u8,
    pub queued: u8,
    pub waiting: usize,
}

// ---- answers

fn no_saved() -> HuskSaved
    ensures { result ≡ no_saved }
{
    HuskSaved {
        refusal: 12,
        saved: 0,
        unacknowledged: 0,
    }
}

fn no_queued() -> HuskQueued
    ensures { result ≡ no_queued }
{
    HuskQueued {
        refusal: 12,
        queued: 0,
        waiting: 0,
    }
}

// ---- counts

// Of the first n saved records, how many are not acknowledged.
pub fn unmarked(f: &[u64; flight_words::WORDS], n: usize) -> usize
    requires { n ≤ 12 }
    ensures { ((m : List ℕ) → result ≡ unmarked_after (flight_of f.now m) n) × (result ≤ n) }
{
    let mut count: usize = 0;
    for i in 0..n {
        count += !flight_words::entry_of(f, i).marked as usize;
    }
    count
}

// ---- the calls

// How many records are saved, and how many of them are not acknowledged: with none left, nothing is to be sent again.
#[tactic(auto, unfolding(base::specs::Choose::choose, base::specs::Choose::both))]
pub fn flight_status(f: &[u64; flight_words::WORDS]) -> HuskSaved
    ensures { FlightStatusCall result f.now }
{
    let saved = f[SAVED] as usize;
    if flight_words::is_flat(f) && saved <= RECORDS {
        return HuskSaved {
            refusal: 0,
            saved: saved as u8,
            unacknowledged: unmarked(f, saved) as u8,
        };
    }
    no_saved()
}

// How many datagrams are queued, and how many records wait to be sealed.
#[tactic(auto, unfolding(base::specs::Choose::choose, base::specs::Choose::both))]
pub fn sending_status(w: &[u64; send_words::WORDS]) -> HuskQueued
    ensures { SendingStatusCall result w.now }
{
    if send_words::is_flat(w) && send_steps::is_sound(w) {
        let handshake = w[HANDSHAKE_NEXT].saturating_sub(w[HANDSHAKE_SEALED]);
        let application = w[APPLICATION_NEXT].saturating_sub(w[APPLICATION_SEALED]);
        return HuskQueued {
            refusal: 0,
            queued: w[COUNT] as u8,
            waiting: handshake.saturating_add(application) as usize,
        };
    }
    no_queued()
}
