// What a call says of the next piece of a handshake record.
#![tactic(auto)]

ghost use Rattle.std.specs.Prelude.{◌≡◌};
ghost use Rattle.assembly.specs.Numbers.{piece_number};

#[derive(Clone, Copy, Debug, PartialEq, Eq)]
pub enum Piece {
    // The record is over.
    End,
    // Of another message, whose number is told; the same as one held.
    Passed {
        number: u16,
    },
    Same,
    // Held; held, and with it the whole message, at the start of the buffer.
    Held,
    Message {
        msg_type: u8,
        number: u16,
        length: usize,
    },
}

// Why a call is refused.
#[derive(Clone, Copy, Debug, PartialEq, Eq)]
pub enum PieceError {
    // The buffer is shorter than a message may be (16), a word is out of its range (12), the content is not as long as the record begun
    // (15): nothing has changed.
    Short,
    Setting,
    Reply,
    // Refused by 24, by 28 and by 25: the record is over.
    Malformed,
    Disagrees,
    TooMany,
}

// The number of a refusal.
impl From<PieceError> for u8 {
    fn from(e: PieceError) -> u8
        ensures { result ≡ piece_number e }
    {
        match e {
            PieceError::Short => 16,
            PieceError::Setting => 12,
            PieceError::Reply => 15,
            PieceError::Malformed => 24,
            PieceError::Disagrees => 28,
            PieceError::TooMany => 25,
        }
    }
}
