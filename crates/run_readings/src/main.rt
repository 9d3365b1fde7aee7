// Replays histories of receiving: one line of input, a letter and hex bytes, is one step and gives one line of output. What is
// expected stands in the file stdout, written from the Rust's answers and, where 02 changes them, from 02's rule (compare/README.md says
// how, which lines these are, and what each letter means).
// The state is the words that a host keeps, and each step is a call of recv_calls.
#![tactic(auto)]

use datagram::{Datagram, Question};
use receiving::Refusal;
use recv_calls::HuskReading;
use recv_words::{COUNT, WORDS};
use std::io;
use std::io::Read;

// ---- the answer to a step

fn bare(kind: u8, refusal: u8) -> HuskReading {
    HuskReading {
        kind,
        refusal,
        content_type: 0,
        epoch: 0,
        number: 0,
        start: 0,
        header_len: 0,
        length: 0,
        nonce: [0u8; 12],
    }
}

// A call that reads nothing shows no reading, but removing an epoch may drop a record.
fn answered(a: u8) -> HuskReading {
    if a == 6 {
        return bare(2, 6);
    }
    bare(0, a)
}

// A line has a number: that of a refusal, or 0.
fn number_of(a: Result<(), Refusal>) -> u8 {
    match a {
        Ok(()) => 0,
        Err(r) => u8::from(r),
    }
}

// The C interface has numbers for kinds and refusals. The kinds of a line: an end is told by its refusal, 1 where there is none.
fn line_kind(r: HuskReading) -> u8 {
    match r.kind {
        1 if r.refusal == 0 => 1,
        1 => r.refusal,
        k @ 2..=7 => k + 2,
        _ => 0,
    }
}

// Why a record is dropped stands apart from a refusal.
fn line_refusal(r: HuskReading) -> u8 {
    if r.kind == 2 {
        return 0;
    }
    r.refusal
}

fn line_reason(r: HuskReading) -> u8 {
    if r.kind == 2 {
        return r.refusal;
    }
    0
}

// The 30 bytes before the bytes shown, of which the last two are their number, then these.
fn lay(r: HuskReading, shown: &[u8], out: &mut [u8]) -> usize {
    let mut n = run_lines::push_all(out, 0, &[line_refusal(r), line_kind(r), line_reason(r)]);
    n = run_lines::push_all(out, n, &r.epoch.to_be_bytes());
    n = run_lines::push_all(out, n, &r.number.to_be_bytes());
    n = run_lines::push(out, n, r.content_type);
    n = run_lines::push_all(out, n, &((r.start % 0x1_0000) as u16).to_be_bytes());
    n = run_lines::push_all(out, n, &r.nonce);
    n = run_lines::push_all(out, n, &((shown.len() % 0x1_0000) as u16).to_be_bytes());
    run_lines::push_all(out, n, shown)
}

// An answer on standard output.
fn say(rt: &impl Print, letter: u8, r: HuskReading, shown: &[u8]) -> io::Result<()> {
    let mut found = [0; 16640];
    let mut text = [0; 33536];
    let n = lay(r, shown, &mut found);
    rt.write_all(run_lines::line(letter, base::fragment(&found, 0, n), &mut text))
}

// The bytes that a reading names in the datagram: of an opening question, the header.
fn shown(d: &[u8], r: HuskReading) -> &[u8] {
    if r.kind == 7 {
        return base::fragment(d, r.start, r.header_len);
    }
    base::fragment(d, r.start, r.length)
}

// ---- the steps

// A number marked in the window of an epoch, as opening a record does.
fn mark(w: &mut [u64; WORDS], epoch: u16, number: u64) {
    let count = w[COUNT] as usize;
    if 5 < count {
        return;
    }
    let f = recv_words::find_epoch(w, count, epoch);
    match f {
        None => {}
        Some(i) => {
            if i < 5 {
                let v = recv_words::window_at(w, i);
                recv_words::put_window(w, i, v.update(number));
            }
        }
    }
}

fn marked(w: &mut [u64; WORDS], input: &[u8]) -> u8 {
    mark(w, run_lines::u16_at(input, 0), run_lines::u64_at(input, 2));
    0
}

fn keyed(w: &mut [u64; WORDS], input: &[u8]) -> Result<(), Refusal> {
    let iv = run_lines::bytes_at(input, 2);
    recv_calls::key_receive(w, run_lines::u16_at(input, 0), &iv)
}

// A record dropped with its epoch is written as 6.
fn removed(w: &mut [u64; WORDS], input: &[u8]) -> u8 {
    let a = recv_calls::remove_receive(w, run_lines::u16_at(input, 0));
    if a.told == 1 {
        return 6;
    }
    a.refusal
}

// A step that takes no datagram. A letter that names no call changes nothing.
fn host_step(w: &mut [u64; WORDS], letter: u8, input: &[u8]) -> u8 {
    match letter {
        b'f' => number_of(recv_calls::fresh(w, run_lines::get1(input, 0) as usize)),
        b'k' => number_of(keyed(w, input)),
        b'x' => removed(w, input),
        b'e' => number_of(recv_calls::enable_peer_encryption(w)),
        b'l' => number_of(recv_calls::release_application_data(w)),
        b'w' => marked(w, input),
        _ => 0,
    }
}

// The protected part that an opening question names.
#[derive(Clone, Copy)]
struct Part {
    start: usize,
    length: usize,
}

fn protected(b: Datagram) -> Part {
    let q = b.question;
    match q {
        Question::Opening(a, _) => {
            if b.at <= 16384 {
                if a.header_len <= 5 {
                    return Part {
                        start: b.at + a.header_len,
                        length: a.length,
                    };
                }
            }
            Part {
                start: 0,
                length: 0,
            }
        }
        _ => Part {
            start: 0,
            length: 0,
        },
    }
}

// The plaintext of the cipher's yes, at the start of the protected part, which is 16 bytes longer; how long it is.
fn plaintext(p: Part, input: &[u8], d: &mut [u8]) -> usize {
    if p.length < 16 {
        return 0;
    }
    let n = p.length - 16;
    run_lines::push_all(d, p.start, base::fragment(input, 0, n));
    n
}

fn opening(p: Part, opened: u8, input: &[u8], d: &mut [u8]) -> usize {
    if opened == 1 {
        return plaintext(p, input, d);
    }
    0
}

// What a host keeps between calls: the words and the last datagram.
#[derive(Drop)]
struct Host {
    w: [u64; WORDS],
    d: [u8; 16385],
}

impl Host {
    fn new() -> Host {
        let mut w = [0u64; WORDS];
        let _ = recv_calls::fresh(&mut w, 16);
        Host { w, d: [0; 16385] }
    }

    fn size(&self) -> usize {
        recv_words::datagram_of(&self.w).size
    }

    // A datagram that is too long does not take the place of the one before.
    fn begin(&mut self, input: &[u8]) -> u8 {
        if input.len() <= 16384 {
            run_lines::push_all(&mut self.d, 0, input);
        }
        number_of(recv_calls::begin(&mut self.w, input.len()))
    }

    // The mask over the datagram.
    fn mask(&mut self, input: &[u8]) -> HuskReading {
        let size = self.size();
        recv_calls::mask(
            &mut self.w,
            run_lines::get1(input, 0),
            run_lines::get1(input, 1),
            run_lines::front(&mut self.d, size),
        )
    }

    fn open(&mut self, input: &[u8]) -> HuskReading {
        let size = self.size();
        let part = protected(recv_words::datagram_of(&self.w));
        let yes = (run_lines::get1(input, 0) == 1) as u8;
        let n = opening(part, yes, base::behind(input, 1), &mut self.d);
        recv_calls::opened(&mut self.w, yes, n, base::fragment(&self.d, 0, size))
    }

    fn read(&mut self) -> HuskReading {
        let size = self.size();
        recv_calls::read(&mut self.w, base::fragment(&self.d, 0, size))
    }

    // A step that reads on or replies to a question.
    fn reading(&mut self, letter: u8, input: &[u8]) -> HuskReading {
        match letter {
            b'm' => self.mask(input),
            b'o' => self.open(input),
            _ => self.read(),
        }
    }

    // The letter d shows the datagram as it lies.
    fn step(&mut self, rt: &impl Print, letter: u8, input: &[u8]) -> io::Result<()> {
        let size = self.size();
        match letter {
            b'm' | b'o' | b'r' => {
                let r = self.reading(letter, input);
                let d = base::fragment(&self.d, 0, size);
                say(rt, letter, r, shown(d, r))
            }
            b'd' => say(rt, letter, bare(0, 0), base::fragment(&self.d, 0, size)),
            b'b' => say(rt, letter, answered(self.begin(input)), b""),
            _ => say(
                rt,
                letter,
                answered(host_step(&mut self.w, letter, input)),
                b"",
            ),
        }
    }
}

// Of each line of input 16,640 bytes are read. The buffers are fixed: no input is refused for want of memory.
fn main(rt: HostRuntime) -> io::Result<()> {
    let mut host = Host::new();
    let mut text = [0; 65536];
    let mut room: &mut [u8] = &mut text;
    let n = io::copy(&mut rt.reader().take(65536), &mut room)?;
    let mut space = [0; 16640];
    for line in base::fragment(&text, 0, n as usize).split_inclusive(|b| *b == b'\n') {
        let (letter, input) = run_lines::read(line, &mut space);
        host.step(&rt, letter, input)?;
    }
    Ok(())
}
