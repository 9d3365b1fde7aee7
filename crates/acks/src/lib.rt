// The records noted for the outgoing ACK, and sending it, after `send_ack` of engine.rs.
#![tactic(auto)]

ghost use Rattle.std.specs.Prelude.{◌≡◌, ◌+◌, ◌≤◌, length};
ghost use Rattle.base.specs.Bytes.{be};
ghost use Rattle.base.specs.Parts.{splice};
ghost use Rattle.acks.specs.Acks.{pair_of};

use outgoing::Sending;
use record::RECORD_NUMBER_LEN;
use send_keys::SendError;

// How many records are noted at most, and the bytes of an ACK of as many.
pub const MOST_NOTED: usize = 32;

pub const MOST_CONTENT: usize = 2 + MOST_NOTED * RECORD_NUMBER_LEN;

// Epochs and numbers of the records noted, in the order of noting.
#[derive(Clone, Copy)]
pub struct Notes {
    pub count: usize,
    pub epochs: [u64; MOST_NOTED],
    pub numbers: [u64; MOST_NOTED],
}

// More than 32 noted: a count out of its range.
#[derive(Clone, Copy, Debug, PartialEq, Eq)]
pub struct OutOfRange;

// Whether a record is noted. Where 32 are noted already it is not, and nothing changes.
#[derive(Clone, Copy)]
pub struct Noting {
    pub answer: Result<bool, OutOfRange>,
    pub notes: Notes,
}

// What sending the ACK leaves; with none noted nothing is sent.
#[derive(Clone, Copy)]
pub struct AckSent {
    pub answer: Result<(), SendError>,
    pub sent: bool,
    pub state: Sending,
    pub notes: Notes,
}

// A noted record written from a place on: its epoch, then its number, eight bytes each.
pub fn write_pair(d: &mut [u8], at: usize, epoch: u64, number: u64)
    requires { at + 16 ≤ length d.old }
    ensures { d.new ≡ splice at (pair_of epoch number) d.old }
{
    let middle = at + 8;
    let end = middle + 8;
    d[at..middle].copy_from_slice(&epoch.to_be_bytes());
    d[middle..end].copy_from_slice(&number.to_be_bytes());
}

// The length of what follows, in two bytes.
pub fn write_length(d: &mut [u8], n: usize)
    requires { 2 ≤ length d.old }
    ensures { d.new ≡ splice 0 (be 2 n) d.old }
{
    d[..2].copy_from_slice(&n.to_be_bytes()[6..]);
}
