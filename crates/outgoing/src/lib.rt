// The sending side of an endpoint, after engine.rs: numbers, queue, packing; one record sent, wholly or not at all.
#![tactic(auto)]

ghost use Rattle.std.specs.Prelude.{◌≡◌, ◌<◌, length};
ghost use Rattle.send_keys.specs.declared.SendKeys.{SendKeys};
ghost use Rattle.outgoing.specs.State.{no_waiting, is_content_type, is_allowed};

use queue::Queue;
use send_keys::{SendError, SendKeys};

// The oldest record that waits for its sealing, if any: its slot, where it starts there, the length of what is to be sealed, its
// epoch and number.
#[derive(Clone, Copy)]
pub struct Waiting {
    pub any: bool,
    pub slot: usize,
    pub start: usize,
    pub length: usize,
    pub epoch: u16,
    pub number: u64,
}

#[derive(Clone, Copy)]
pub struct Sending {
    pub queue: Queue,
    pub waiting: Waiting,
    pub keys: SendKeys,
    pub message_seq: u16,
}

// What a call of the sending side answers and leaves.
#[derive(Clone, Copy)]
pub struct Sent {
    pub answer: Result<(), SendError>,
    pub state: Sending,
}

#[tactic(auto, unfolding(crate::specs::State::no_waiting))]
pub fn no_waiting() -> Waiting
    ensures { result ≡ no_waiting }
{
    Waiting {
        any: false,
        slot: 0,
        start: 0,
        length: 0,
        epoch: 0,
        number: 0,
    }
}

// Whether a record of this type may be sent in an epoch: application data is never in plaintext.
#[tactic(auto, unfolding(crate::specs::State::is_content_type, base::specs::Choose::choose, base::specs::Choose::either))]
fn is_content_type(epoch: u16, t: u8) -> bool
    ensures { result ≡ is_content_type epoch t }
{
    if record::is_type(t) {
        return true;
    }
    if epoch == 0 {
        return false;
    }
    t == record::APPLICATION_DATA
}

// Whether type and length are allowed.
#[tactic(auto, unfolding(crate::specs::State::is_allowed, base::specs::Choose::both))]
pub fn is_allowed(mtu: usize, epoch: u16, t: u8, n: usize) -> bool
    ensures { result ≡ is_allowed mtu epoch t n }
{
    if is_content_type(epoch, t) {
        if n <= record::MAX_BODY {
            return queue::record_len(epoch, n) <= mtu;
        }
    }
    false
}
