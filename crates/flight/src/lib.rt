// The records of a flight, saved until they are acknowledged, after `flight_saved_records` of engine.rs.
#![tactic(auto)]

ghost use Rattle.std.specs.Prelude.{◌≡◌, ◌*◌, ◌≤◌, ◌<◌, length};
ghost use Rattle.flight.specs.Flight.{counted, is_kept};

use outgoing::Sending;
use send_keys::SendError;

// A saved record: its content type, epoch, number and length; whether it was acknowledged; how many earlier numbers it remembers.
#[derive(Clone, Copy)]
pub struct Entry {
    pub content_type: u8,
    pub epoch: u16,
    pub number: u64,
    pub length: usize,
    pub marked: bool,
    pub remembered: usize,
}

// How many records are saved at most, how many numbers of each are remembered, and the cells of the table of these.
pub const RECORDS: usize = 12;

pub const REMEMBERED: usize = 32;

pub const NUMBERS: usize = RECORDS * REMEMBERED;

// The records saved, in order, and 32 remembered numbers for each of 12.
#[derive(Clone, Copy)]
pub struct Flight {
    pub entries: [Entry; RECORDS],
    pub saved: usize,
    pub numbers: [u64; NUMBERS],
}

// A flight without its table: what saving, cutting and marking change.
#[derive(Clone, Copy)]
pub struct SavedRecords {
    pub entries: [Entry; RECORDS],
    pub saved: usize,
}

// What a call that changes the flight alone answers and leaves.
#[derive(Clone, Copy)]
pub struct Acted {
    pub answer: Result<(), SendError>,
    pub flight: Flight,
}

// What a call that saves or sends again answers and leaves.
#[derive(Clone, Copy)]
pub struct Saved {
    pub answer: Result<(), SendError>,
    pub state: Sending,
    pub flight: Flight,
}

// Whether so many saved records are in range and the buffer for them is long enough.
#[tactic(auto, unfolding(crate::specs::Flight::is_kept, base::specs::Choose::both))]
pub fn has_room(saved: usize, mtu: usize, room: usize) -> bool
    requires { mtu ≤ 1500 }
    ensures { result ≡ is_kept (counted saved) mtu room }
{
    saved <= RECORDS && RECORDS * mtu <= room
}
