// The front datagram, taken when it is wholly sealed, after `poll_packet_tx` of engine.rs.
#![tactic(auto)]

ghost use Rattle.std.specs.Prelude.{◌≡◌, ◌≤◌};
ghost use Rattle.taking.specs.Take.{next_slot};

use outgoing::Sending;

// Why the front datagram is not taken.
#[derive(Clone, Copy, Debug, PartialEq, Eq)]
pub enum TakeError {
    OutOfRange,
    // The front datagram is not wholly sealed.
    Unsealed,
    // The buffer is too short; so many bytes are needed.
    Short(usize),
}

// A datagram of so many bytes, or none where the queue is empty, and the state behind it.
#[derive(Clone, Copy)]
pub struct Take {
    pub answer: Result<Option<usize>, TakeError>,
    pub state: Sending,
}

// The slot behind one. Not by `queue::slot_of`: that asks for a first slot below the limit.
#[tactic(auto, unfolding(crate::specs::Take::next_slot, base::specs::Choose::choose))]
pub fn next_slot(first: usize, limit: usize) -> usize
    requires { first ≤ 16 }
    ensures { result ≡ next_slot first limit }
{
    if first + 1 < limit {
        return first + 1;
    }
    0
}
