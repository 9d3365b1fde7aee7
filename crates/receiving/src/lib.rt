// The receive side of a link: its state, and what its calls answer (specs/Receiving.antt says which call does what).
#![tactic(auto)]

ghost use Rattle.std.specs.Prelude.{◌≡◌};
ghost use Rattle.receiving.specs.Receiving.{refusal_number};

use datagram::{Datagram, Reading};
use recv_keys::RecvKeys;

#[derive(Clone, Copy)]
pub struct Receiving {
    pub keys: RecvKeys,
    pub datagram: Datagram,
}

// What a call that reads nothing has done: what was asked for, or that and the record at the cursor is dropped with its epoch (6).
#[derive(Clone, Copy)]
pub enum Done {
    Asked,
    Dropped,
}

// Why it is refused: a field out of range (12), a datagram too long (1), an epoch that cannot be keyed or is not (13), no place for an
// epoch (23).
#[derive(Clone, Copy)]
pub enum Refusal {
    Setting,
    TooLong,
    Unusable,
    Full,
}

// The number of a refusal.
impl From<Refusal> for u8 {
    fn from(r: Refusal) -> u8
        ensures { result ≡ refusal_number r }
    {
        match r {
            Refusal::Setting => 12,
            Refusal::TooLong => 1,
            Refusal::Unusable => 13,
            Refusal::Full => 23,
        }
    }
}

#[derive(Clone, Copy)]
pub struct Kept {
    pub answer: Result<Done, Refusal>,
    pub state: Receiving,
}

// What a call that reads answers; the nonce belongs to an opening question, and is zeros else.
#[derive(Clone, Copy)]
pub struct Read {
    pub reading: Reading,
    pub nonce: [u8; 12],
    pub state: Receiving,
}
