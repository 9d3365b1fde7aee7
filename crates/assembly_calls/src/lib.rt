// Whole handshake messages as a host calls for them. The state is words that the host keeps and lends with the buffer; a call changes both in
// place. Whatever stands in them, a call ends with an answer.
#![tactic(auto)]

ghost use Rattle.std.specs.Prelude.{◌≡◌};
ghost use Rattle.assembly.specs.Assembly.{outcome, taken};
ghost use Rattle.assembly_calls.specs.Calls.{told, flat_piece, number_of, FreshCall, BeginCall, TakeCall};

use assembly::{Piece, PieceError};
use assembly_steps::{EXPECTED, HEADER_LENGTH, MOST_TOTAL, PLACE, SIZE, WORDS};

// What a call says of the next piece of a record. Kind 0 is refused: by 12, 15 or 16, and nothing has changed, length for 16 being what the buffer
// needs; or by 24, 28 or 25, and the record is over. 1 the record is over; 2 a piece of another message, of that number; 3 the same as one held; 4 held; 5 a message:
// its type, number and length. The C interface has numbers.
#[repr(C)]
#[derive(Clone, Copy)]
pub struct HuskPiece {
    pub kind: u8,
    pub refusal: u8,
    pub msg_type: u8,
    pub number: u16,
    pub length: usize,
}

// ---- answers

fn told(kind: u8, refusal: u8, number: u16, length: usize) -> HuskPiece
    ensures { result ≡ told kind refusal number length }
{
    HuskPiece {
        kind,
        refusal,
        msg_type: 0,
        number,
        length,
    }
}

fn flat_piece(p: Result<Piece, PieceError>) -> HuskPiece
    ensures { result ≡ flat_piece p }
{
    match p {
        Err(PieceError::Short) => told(0, 16, 0, MOST_TOTAL as usize),
        Err(e) => told(0, u8::from(e), 0, 0),
        Ok(Piece::End) => told(1, 0, 0, 0),
        Ok(Piece::Passed { number }) => told(2, 0, number, 0),
        Ok(Piece::Same) => told(3, 0, 0, 0),
        Ok(Piece::Held) => told(4, 0, 0, 0),
        Ok(
            Piece::Message {
                msg_type,
                number,
                length,
            },
        ) => HuskPiece {
            kind: 5,
            refusal: 0,
            msg_type,
            number,
            length,
        },
    }
}

// ---- the calls

// Number 0 is expected and nothing is held, whatever stood in the words.
pub fn fresh(w: &mut [u64; WORDS])
    ensures { FreshCall w.new }
{
    *w = [0u64; WORDS];
}

// Begins a record whose content has n bytes. What was left of an earlier record is left out; the pieces held stay.
#[tactic(auto, unfolding(base::specs::Choose::choose))]
pub fn begin(w: &mut [u64; WORDS], n: usize) -> Result<(), PieceError>
    ensures { BeginCall (number_of result) w.new w.old n }
{
    if !assembly_steps::is_sound(w) {
        return Err(PieceError::Setting);
    }
    w[SIZE] = n as u64;
    w[PLACE] = 0;
    Ok(())
}

// The next piece of the record begun, whose content is c, and the message in the buffer d.
#[tactic(auto, unfolding(assembly::specs::Assembly::taken, assembly::specs::Assembly::read_at, base::specs::Choose::choose))]
pub fn next_piece(w: &mut [u64; WORDS], c: &[u8], d: &mut [u8]) -> Result<Piece, PieceError>
    ensures { outcome result w.new d.new ≡ taken w.old c.now d.old }
{
    if d.len() < MOST_TOTAL as usize {
        return Err(PieceError::Short);
    }
    if !assembly_steps::is_sound(w) {
        return Err(PieceError::Setting);
    }
    if c.len() as u64 != w[SIZE] {
        return Err(PieceError::Reply);
    }
    let at = w[PLACE] as usize;
    if c.len() <= at {
        return Ok(Piece::End);
    }
    let Some(h) = assembly_steps::piece_at(c, at) else {
        w[PLACE] = w[SIZE];
        return Err(PieceError::Malformed);
    };
    let start = at + HEADER_LENGTH;
    let next = start + h.fragment_length as usize;
    if h.message_seq as u64 != w[EXPECTED] {
        w[PLACE] = next as u64;
        return Ok(Piece::Passed {
            number: h.message_seq,
        });
    }
    assembly_steps::offer(w, h, &c[start..next], next, d)
}

pub fn take_piece(w: &mut [u64; WORDS], c: &[u8], d: &mut [u8]) -> HuskPiece
    ensures { TakeCall result w.new w.old c.now d.new d.old }
{
    flat_piece(next_piece(w, c, d))
}
