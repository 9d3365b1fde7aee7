// What a reply to an opening question may say; what removing an epoch does to its question.
#![tactic(auto)]

ghost use Rattle.std.specs.Prelude.{◌≡◌, ◌+◌, ◌≤◌};
ghost use Rattle.opening_reply.specs.Opening.{cancelled_ask};

use datagram::{Ask, Datagram, Question, Step};
use recv_keys::RecvKeys;

// A step with the keys behind it.
#[derive(Clone, Copy)]
pub struct Marked {
    pub step: Step,
    pub keys: RecvKeys,
}

// The datagram behind the removal of an epoch, and whether the record at its cursor is dropped.
#[derive(Clone, Copy)]
pub struct Cancelled {
    pub dropped: bool,
    pub datagram: Datagram,
}

// The epoch of a question removed.
#[tactic(auto, unfolding(crate::specs::Opening::cancelled_ask, base::specs::Choose::choose))]
pub fn cancel_ask(a: Ask, b: Datagram, epoch: u16) -> Cancelled
    requires { b.at + a.header_len + a.length ≤ 16384 }
    ensures { result ≡ cancelled_ask a b epoch }
{
    if a.epoch == epoch {
        return Cancelled {
            dropped: true,
            datagram: Datagram {
                size: b.size,
                at: b.at + a.header_len + a.length,
                readings: b.readings,
                question: Question::Nothing,
            },
        };
    }
    Cancelled {
        dropped: false,
        datagram: b,
    }
}
