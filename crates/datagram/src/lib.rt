// The begun datagram, after incoming.rs: the cursor, the readings made, the question that waits, and where a record leads.
#![tactic(auto)]

ghost use Rattle.std.specs.Prelude.{◌≡◌};
ghost use Rattle.datagram.specs.Datagram.{ask_sound, told, moved, ended, passed, counted};

// The sealed record at the cursor that a question is about: its epoch, whether its number has two bytes, and how long header and
// protected part are.
#[derive(Clone, Copy)]
pub struct Ask {
    pub epoch: u16,
    pub s_flag: bool,
    pub header_len: usize,
    pub length: usize,
}

// The question that waits: for the mask, or for the opening under a number.
#[derive(Clone, Copy)]
pub enum Question {
    Nothing,
    Mask(Ask),
    Opening(Ask, u64),
}

// The begun datagram: its length, the cursor, the readings made, the question that waits.
#[derive(Clone, Copy)]
pub struct Datagram {
    pub size: usize,
    pub at: usize,
    pub readings: usize,
    pub question: Question,
}

// Why a record is dropped: refusals 4 to 9, 26, 10 and 11, in the order of their tests.
#[derive(Clone, Copy)]
pub enum Reason {
    Invalid,
    EarlyBits,
    NoKeys,
    TooShort,
    TooHigh,
    Seen,
    TooOld,
    NotOpened,
    NoContentType,
}

// What a call says of the record at the cursor. Each start is a place in the datagram.
#[derive(Clone, Copy)]
pub enum Reading {
    // A field out of range (12), a reply or a datagram that answers no question (15): nothing has changed.
    Setting,
    Reply,
    // The end of the datagram, without a fault, by a cut header or length (2), or by a seventeenth reading (3).
    End,
    Incomplete,
    TooMany,
    Dropped(Reason),
    Plaintext {
        content_type: u8,
        number: u64,
        start: usize,
        length: usize,
    },
    // Sealed, unopened: the peer's encryption is off.
    Unopened {
        epoch_bits: u8,
        number: u64,
        start: usize,
        length: usize,
    },
    Opened {
        epoch: u16,
        number: u64,
        content_type: u8,
        start: usize,
        length: usize,
    },
    // The mask of the 16 bytes from a place on is asked for.
    Mask {
        epoch: u16,
        start: usize,
    },
    // The opening of the record that starts at a place is asked for.
    Opening {
        epoch: u16,
        number: u64,
        start: usize,
        header_len: usize,
        length: usize,
    },
}

// A reading with the next cursor; the nonce belongs to an opening question, and is zeros else.
#[derive(Clone, Copy)]
pub struct Step {
    pub reading: Reading,
    pub nonce: [u8; 12],
    pub datagram: Datagram,
}

// ---- ranges

#[tactic(auto, unfolding(crate::specs::Datagram::ask_sound, base::specs::Choose::both))]
pub fn ask_sound(a: Ask, room: usize) -> bool
    ensures { result ≡ ask_sound a room }
{
    let head = a.header_len;
    let length = a.length;
    if head < 2 {
        return false;
    }
    if room < head {
        return false;
    }
    if length < 16 {
        return false;
    }
    length <= room - head
}

// ---- where a record leads

// The same datagram.
pub fn tell(b: Datagram, r: Reading) -> Step
    ensures { result ≡ told b r }
{
    Step {
        reading: r,
        nonce: [0u8; 12],
        datagram: b,
    }
}

// The cursor moved, no question left.
fn move_to(b: Datagram, at: usize, readings: usize) -> Datagram
    ensures { result ≡ moved b at readings }
{
    Datagram {
        size: b.size,
        at: at,
        readings: readings,
        question: Question::Nothing,
    }
}

// The datagram ends.
pub fn end(b: Datagram, r: Reading) -> Step
    ensures { result ≡ ended b r }
{
    tell(move_to(b, b.size, b.readings), r)
}

// A record is dropped.
pub fn pass(b: Datagram, next: usize, r: Reason) -> Step
    ensures { result ≡ passed b next r }
{
    tell(move_to(b, next, b.readings), Reading::Dropped(r))
}

// A reading, or one too many.
#[tactic(auto, unfolding(crate::specs::Datagram::counted, base::specs::Choose::choose))]
pub fn count(b: Datagram, next: usize, r: Reading) -> Step
    ensures { result ≡ counted b next r }
{
    let n = b.readings;
    let full = 16 <= n;
    if full {
        return end(b, Reading::TooMany);
    }
    tell(move_to(b, next, n + 1), r)
}
