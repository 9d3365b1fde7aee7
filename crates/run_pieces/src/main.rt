// Replays a fixed list of pieces of handshake messages: one line of input, a letter and hex bytes, is one step and gives one line of output.
// What is expected stands in the file stdout. expected.py writes both files from the wording of 02, 2 and 7, and says what each letter means; none of
// this code takes part.
// The state is the words and the buffer that a host keeps, and the content of a record, which is laid piece by piece.
#![tactic(auto)]

use assembly::PieceError;
use assembly_calls::HuskPiece;
use assembly_steps::{COUNT, EXPECTED, HEADER_LENGTH, TOTAL, TYPE, WORDS};
use run_lines::{front, u16_at, u32_at, u64_at};
use std::io;
use std::io::Read;

// How many bytes of a message's buffer are watched.
const MESSAGE_ROOM: usize = 16384;

// How many bytes the content of a record may have; more are left out.
const CONTENT_ROOM: usize = 20480;

// What a host keeps: the words, the content of a record as far as it is laid, and a message's buffer.
#[derive(Drop)]
struct Host {
    w: [u64; WORDS],
    content: [u8; CONTENT_ROOM],
    laid: usize,
    message: [u8; 16640],
}

// The low four bytes of a number.
fn low4(v: u64) -> [u8; 4] {
    ((v % 0x1_0000_0000) as u32).to_be_bytes()
}

// ---- the answer to a step

// The Adler-32 of bytes (RFC 1950, 8.2): a message of 16,384 bytes would be a long line. What is added is reduced before, so that no sum is too
// large for a word.
fn checksum(d: &[u8]) -> u64 {
    let mut low: u64 = 1;
    let mut high: u64 = 0;
    for b in d {
        low = (low % 65521 + u64::from(*b)) % 65521;
        high = (high % 65521 + low % 65521) % 65521;
    }
    high % 65521 * 0x1_0000 + low % 65521
}

// The checksum of a message's body; 0 where none is told. The C interface has numbers for the kinds.
fn body_checksum(p: HuskPiece, d: &[u8]) -> u64 {
    if p.kind == 5 {
        return checksum(base::fragment(d, 0, p.length));
    }
    0
}

fn bare(refusal: u8) -> HuskPiece {
    HuskPiece {
        kind: 0,
        refusal,
        msg_type: 0,
        number: 0,
        length: 0,
    }
}

// The fields of an answer, the checksum of a message's body and that of the whole buffer.
fn lay(p: HuskPiece, d: &[u8], out: &mut [u8]) -> usize {
    let mut n = run_lines::push_all(out, 0, &[p.kind, p.refusal, p.msg_type]);
    n = run_lines::push_all(out, n, &p.number.to_be_bytes());
    n = run_lines::push_all(out, n, &low4(p.length as u64));
    n = run_lines::push_all(out, n, &low4(body_checksum(p, d)));
    run_lines::push_all(out, n, &low4(checksum(base::fragment(d, 0, MESSAGE_ROOM))))
}

// A line has a number: that of a refusal, or 0.
fn begun(a: Result<(), PieceError>) -> HuskPiece {
    match a {
        Ok(()) => bare(0),
        Err(e) => bare(u8::from(e)),
    }
}

// ---- steps

// The byte at offset + i of a message. The salt tells pieces apart that bring the same byte.
fn body_byte(offset: u64, i: usize, salt: u8) -> u8 {
    let at = (offset % 0x100_0000) + (i as u64) % 0x100_0000;
    ((at * 7 + at / 256 + u64::from(salt)) % 256) as u8
}

impl Host {
    fn new() -> Host {
        Host {
            w: [0; WORDS],
            content: [0; CONTENT_ROOM],
            laid: 0,
            message: [0; 16640],
        }
    }

    // Bytes behind what is laid.
    fn lay(&mut self, d: &[u8]) {
        self.laid = run_lines::push_all(&mut self.content, self.laid, d);
    }

    // A piece behind what is laid: its header as it is given, and as many bytes of the body as the header says.
    fn lay_piece(&mut self, input: &[u8]) {
        self.lay(base::fragment(input, 0, HEADER_LENGTH));
        let offset = u32_at(input, 6) as u64 / 256;
        let length = (u32_at(input, 8) % 0x100_0000) as usize;
        let salt = run_lines::get1(input, HEADER_LENGTH);
        for i in 0..length.min(CONTENT_ROOM) {
            self.lay(&[body_byte(offset, i, salt)]);
        }
    }

    fn fresh(&mut self) {
        self.message = [0xEE; 16640];
        assembly_calls::fresh(&mut self.w);
    }

    // A word set, to come to message numbers that would take 65,535 messages, and out of range.
    fn set_word(&mut self, i: usize, v: u64) {
        if i < WORDS {
            self.w[i] = v;
        }
    }

    // The next piece, with so many bytes of the message's buffer lent.
    fn take(&mut self, lent: usize) -> HuskPiece {
        let d = front(&mut self.message, lent);
        assembly_calls::take_piece(&mut self.w, base::fragment(&self.content, 0, self.laid), d)
    }

    // The number expected and, in the place of the refusal, how many pieces are held; with one, type and total of the first.
    fn view(&self) -> HuskPiece {
        let mut p = bare(0);
        p.number = (self.w[EXPECTED] % 65536) as u16;
        if self.w[COUNT] != 0 {
            p.refusal = (self.w[COUNT] % 256) as u8;
            p.msg_type = (self.w[TYPE] % 256) as u8;
            p.length = (self.w[TOTAL] % 0x1_0000_0000) as usize;
        }
        p
    }

    // A step that lays content, is a call, or shows or sets what calls keep.
    fn step(&mut self, letter: u8, input: &[u8]) -> HuskPiece {
        match letter {
            b'e' => self.laid = 0,
            b'p' => self.lay_piece(input),
            b'x' => self.lay(input),
            b's' => self.laid = self.laid.min(u16_at(input, 0) as usize),
            b'f' => self.fresh(),
            b'w' => self.set_word(run_lines::get1(input, 0) as usize, u64_at(input, 1)),
            b'b' => return begun(assembly_calls::begin(&mut self.w, self.laid)),
            b'n' => return begun(assembly_calls::begin(&mut self.w, u64_at(input, 0) as usize)),
            b't' => return self.take(u16_at(input, 0) as usize),
            b'v' => return self.view(),
            _ => {}
        }
        bare(0)
    }
}

// Each line of input is answered on standard output. The buffers are fixed: no input is refused for want of memory.
fn main(rt: HostRuntime) -> io::Result<()> {
    let mut host = Host::new();
    let mut text = [0; 65536];
    let mut room: &mut [u8] = &mut text;
    let n = io::copy(&mut rt.reader().take(65536), &mut room)?;
    let mut space = [0; 256];
    let mut found = [0; 32];
    for line in base::fragment(&text, 0, n as usize).split_inclusive(|b| *b == b'\n') {
        let (letter, input) = run_lines::read(line, &mut space);
        let p = host.step(letter, input);
        let k = lay(p, &host.message, &mut found);
        rt.write_all(run_lines::line(letter, base::fragment(&found, 0, k), &mut [0; 128]))?;
    }
    Ok(())
}
