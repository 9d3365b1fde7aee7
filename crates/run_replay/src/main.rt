// Replays a recorded list of inputs through the leaves: one line of input, a letter and hex bytes, gives one line of output. What is
// expected stands in the file stdout, written from the Rust's answers and, where 02 changes them, from 02's rule (compare/README.md says
// how, which lines these are, and what each letter means).
#![tactic(auto)]

use handshake::Header;
use incoming::Inner;
use record::Parsed;
use run_lines::{u16_at, u32_at, u64_at};
use std::io;
use std::io::Read;
use window::{ReplayWindow, Verdict};

fn verdict_number(v: Verdict) -> u8 {
    match v {
        Verdict::Fresh => 0,
        Verdict::Seen => 1,
        Verdict::TooOld => 2,
    }
}

// A script of steps over a new window, nine bytes each: 1 marks a number, 0 asks for the verdict on it. How many bytes the verdicts have.
fn windows(d: &[u8], out: &mut [u8]) -> usize {
    let mut w = ReplayWindow::new();
    let mut n = 0;
    for step in d.chunks_exact(9) {
        let seqno = u64_at(step, 1);
        if run_lines::get1(step, 0) == 1 {
            w = w.update(seqno);
        } else {
            n = run_lines::push(out, n, verdict_number(w.check(seqno)));
        }
    }
    n
}

fn sequences(d: &[u8]) -> [u8; 8] {
    let s_flag = run_lines::get1(d, 0) == 1;
    sequence::reconstruct_sequence(u64_at(d, 1), u64_at(d, 9), s_flag).to_be_bytes()
}

fn nonces(d: &[u8]) -> [u8; 12] {
    dtls_aead::nonce_xor(run_lines::bytes_at(d, 0), u64_at(d, 12))
}

// What stands in an answer about a record: kind, content type, epoch bits, S flag, number, length of the header, length of the content.
#[derive(Clone, Copy)]
struct Summary {
    kind: u8,
    content_type: u8,
    bits: u8,
    s_flag: bool,
    number: u64,
    head: usize,
    length: usize,
}

fn bare(kind: u8, head: usize, length: usize) -> Summary {
    Summary {
        kind,
        content_type: 0,
        bits: 0,
        s_flag: false,
        number: 0,
        head,
        length,
    }
}

impl From<Parsed> for Summary {
    fn from(p: Parsed) -> Summary {
        match p {
            Parsed::End => bare(0, 0, 0),
            Parsed::Incomplete => bare(1, 0, 0),
            Parsed::Invalid(n) => bare(2, 13, n),
            Parsed::Plaintext(r) => Summary {
                kind: 3,
                content_type: r.content_type,
                bits: 0,
                s_flag: false,
                number: r.sequence_number,
                head: 13,
                length: r.length,
            },
            Parsed::Ciphertext(r) => Summary {
                kind: 4,
                content_type: 0,
                bits: r.epoch_bits,
                s_flag: r.s_flag,
                number: r.sequence_number,
                head: r.header_len,
                length: r.length,
            },
        }
    }
}

fn records(d: &[u8], out: &mut [u8]) -> usize {
    let t = Summary::from(record::parse(d));
    let mut n = run_lines::push_all(out, 0, &[t.kind, t.content_type, t.bits, t.s_flag as u8]);
    n = run_lines::push_all(out, n, &t.number.to_be_bytes());
    n = run_lines::push_all(out, n, &((t.head % 0x1_0000) as u16).to_be_bytes());
    run_lines::push_all(out, n, &((t.length % 0x1_0000) as u16).to_be_bytes())
}

fn plaintext_headers(d: &[u8]) -> [u8; 13] {
    headers::plaintext_header(run_lines::get1(d, 0), u64_at(d, 1), u16_at(d, 9))
}

fn unified_headers(d: &[u8]) -> [u8; 5] {
    headers::unified_header(u16_at(d, 0), u64_at(d, 2), u16_at(d, 10))
}

fn handshake_headers(d: &[u8]) -> [u8; 12] {
    let header = Header {
        msg_type: run_lines::get1(d, 0),
        length: u32_at(d, 1),
        message_seq: u16_at(d, 5),
        fragment_offset: u32_at(d, 7),
        fragment_length: u32_at(d, 11),
    };
    header.serialize()
}

// A header as an answer has it: three bytes of each length and of the offset, two of the number.
fn header_bytes(h: Header) -> [u8; 13] {
    let [_, length_2, length_1, length_0] = h.length.to_be_bytes();
    let [number_1, number_0] = h.message_seq.to_be_bytes();
    let [_, offset_2, offset_1, offset_0] = h.fragment_offset.to_be_bytes();
    let [_, part_2, part_1, part_0] = h.fragment_length.to_be_bytes();
    [
        1, h.msg_type, length_2, length_1, length_0, number_1, number_0, offset_2, offset_1,
        offset_0, part_2, part_1, part_0,
    ]
}

fn header_told(p: Option<Header>) -> [u8; 13] {
    match p {
        None => [0; 13],
        Some(h) => header_bytes(h),
    }
}

fn inner_told(p: Option<Inner>) -> [u8; 4] {
    match p {
        None => [0; 4],
        Some(i) => {
            let [length_1, length_0] = ((i.length % 0x1_0000) as u16).to_be_bytes();
            [1, i.content_type, length_1, length_0]
        }
    }
}

// The answer of the leaf that a letter names, in a lent buffer, and its length.
fn answer(letter: u8, d: &[u8], out: &mut [u8]) -> usize {
    match letter {
        b'w' => windows(d, out),
        b's' => run_lines::push_all(out, 0, &sequences(d)),
        b'n' => run_lines::push_all(out, 0, &nonces(d)),
        b'p' => records(d, out),
        b'q' => run_lines::push_all(out, 0, &plaintext_headers(d)),
        b'u' => run_lines::push_all(out, 0, &unified_headers(d)),
        b'h' => run_lines::push_all(out, 0, &handshake_headers(d)),
        b'g' => run_lines::push_all(out, 0, &header_told(Header::parse_header(d))),
        b't' => run_lines::push_all(out, 0, &inner_told(incoming::recover_inner_content_type(d))),
        _ => 0,
    }
}

// Each line of input is answered on standard output. The buffers are fixed: no input is refused for want of memory.
fn main(rt: HostRuntime) -> io::Result<()> {
    let mut input = [0; 65536];
    let mut room: &mut [u8] = &mut input;
    let n = io::copy(&mut rt.reader().take(65536), &mut room)?;
    let mut space = [0; 32768];
    let mut found = [0; 4096];
    let mut text = [0; 16384];
    for line in base::fragment(&input, 0, n as usize).split_inclusive(|b| *b == b'\n') {
        let (letter, d) = run_lines::read(line, &mut space);
        let k = answer(letter, d, &mut found);
        rt.write_all(run_lines::line(letter, base::fragment(&found, 0, k), &mut text))?;
    }
    Ok(())
}
