// Replays histories of sending: one line of input, a letter and hex bytes, is one step and gives one line of output. What is
// expected stands in the file stdout, written from the Rust's answers (compare/README.md says how, and what each letter means).
// The state is the words that a host keeps, and each step is a call of send_calls, flight_calls or ack_calls.
#![tactic(auto)]

use run_lines::{front, u16_at, u64_at};
use send_calls::HuskSealing;
use send_words::{
    APPLICATION, APPLICATION_NEXT, APPLICATION_SEALED, CLOSED, COUNT, FIRST, HANDSHAKE_NEXT,
    HANDSHAKE_SEALED, LIMIT, MESSAGE, MTU, PLAINTEXT_NEXT, WORDS,
};
use std::io;
use std::io::Read;

// What a host keeps between calls: the words of each part, the records noted for an acknowledgement, and the buffers, of which so many bytes are lent.
#[derive(Drop)]
struct Host {
    w: [u64; WORDS],
    f: [u64; flight_words::WORDS],
    numbers: [u64; 384],
    count: [u64; 1],
    epochs: [u64; 32],
    noted: [u64; 32],
    queue: [u8; 24064],
    queue_lent: usize,
    kept: [u8; 18064],
    kept_lent: usize,
}

// The low two bytes of a number.
fn low2(v: u64) -> [u8; 2] {
    ((v % 0x1_0000) as u16).to_be_bytes()
}

// ---- the answer to a step

// 01's number or 0, and the kind: 1 none, 2 a datagram, 3 a question; the length that a taking tells.
fn bare(refusal: u8, kind: u8, length: usize) -> HuskSealing {
    HuskSealing {
        kind,
        refusal,
        epoch: 0,
        number: 0,
        start: 0,
        length,
        nonce: [0u8; 12],
        header: [0u8; 5],
    }
}

// The 35 bytes before the bytes shown, of which the last two are their number, then these.
fn lay(t: HuskSealing, shown: &[u8], out: &mut [u8]) -> usize {
    let mut n = run_lines::push_all(out, 0, &[t.refusal, t.kind]);
    n = run_lines::push_all(out, n, &t.epoch.to_be_bytes());
    n = run_lines::push_all(out, n, &t.number.to_be_bytes());
    n = run_lines::push_all(out, n, &low2(t.start as u64));
    n = run_lines::push_all(out, n, &low2(t.length as u64));
    n = run_lines::push_all(out, n, &t.nonce);
    n = run_lines::push_all(out, n, &t.header);
    n = run_lines::push_all(out, n, &low2(shown.len() as u64));
    run_lines::push_all(out, n, shown)
}

// An answer on standard output, of 2,048 bytes at most.
fn say(rt: &impl Print, letter: u8, t: HuskSealing, shown: &[u8]) -> io::Result<()> {
    let mut found = [0; 2048];
    let mut text = [0; 4352];
    let n = lay(t, shown, &mut found);
    rt.write_all(run_lines::line(letter, base::fragment(&found, 0, n), &mut text))
}

// ---- the parts that steps show

// The length of a datagram in the queue, counted from the front.
fn length_at(w: &[u64; WORDS], i: usize) -> u64 {
    let limit = w[LIMIT] as usize;
    let first = w[FIRST] as usize;
    if limit <= 16 && first < limit && i < limit {
        return send_steps::length_at(w, queue::slot_of(first, limit, i)) as u64;
    }
    0
}

fn lay_keys(w: &[u64; WORDS], out: &mut [u8]) -> usize {
    let mut n = run_lines::push_all(out, 0, &w[PLAINTEXT_NEXT].to_be_bytes());
    n = run_lines::push_all(out, n, &w[HANDSHAKE_NEXT].to_be_bytes());
    n = run_lines::push_all(out, n, &low2(w[APPLICATION]));
    n = run_lines::push_all(out, n, &w[APPLICATION_NEXT].to_be_bytes());
    run_lines::push_all(out, n, &low2(w[MESSAGE]))
}

// A number that a saved record remembers.
fn remembered(numbers: &[u64; 384], i: usize, k: usize) -> u64 {
    if i < 12 && k < 32 {
        return numbers[32 * i + k];
    }
    0
}

// Where a saved record's content begins.
fn content_start(mtu: usize, i: usize) -> usize {
    if mtu <= 1500 && i < 12 {
        return i * mtu;
    }
    0
}

// ---- steps

impl Host {
    // A host whose buffers lend nothing yet.
    fn new() -> Host {
        let mut w = [0u64; WORDS];
        let _ = send_calls::fresh(&mut w, 576, 1);
        Host {
            w,
            f: [0; flight_words::WORDS],
            numbers: [0; 384],
            count: [0; 1],
            epochs: [0; 32],
            noted: [0; 32],
            queue: [0; 24064],
            queue_lent: 0,
            kept: [0; 18064],
            kept_lent: 0,
        }
    }

    // A fresh state, with so many bytes lent for the queue and for the saved contents.
    fn fresh(&mut self, input: &[u8]) -> u8 {
        flight_calls::fresh(&mut self.f, &mut self.numbers);
        self.count[0] = 0;
        self.queue_lent = u16_at(input, 3) as usize;
        self.kept_lent = u16_at(input, 5) as usize;
        let mtu = u16_at(input, 0) as usize;
        send_keys::refusal(send_calls::fresh(&mut self.w, mtu, run_lines::get1(input, 2) as usize))
    }

    fn key(&mut self, input: &[u8]) -> u8 {
        let iv = run_lines::bytes_at(input, 2);
        send_keys::refusal(send_calls::key_send(&mut self.w, u16_at(input, 0), &iv))
    }

    // The next number of an epoch, as if the ones before had been used; nothing of it waits.
    fn set_number(&mut self, epoch: u16, number: u64) -> u8 {
        match epoch {
            0 => self.w[PLAINTEXT_NEXT] = number,
            2 => {
                self.w[HANDSHAKE_NEXT] = number;
                self.w[HANDSHAKE_SEALED] = number;
            }
            _ => {
                self.w[APPLICATION_NEXT] = number;
                self.w[APPLICATION_SEALED] = number;
            }
        }
        0
    }

    // The next message number, as if the ones before had been used.
    fn set_message(&mut self, number: u16) -> u8 {
        self.w[MESSAGE] = number as u64;
        0
    }

    // A letter that names no call changes nothing.
    fn host_step(&mut self, letter: u8, input: &[u8]) -> u8 {
        match letter {
            b'k' => self.key(input),
            b'u' => self.set_number(u16_at(input, 0), u64_at(input, 2)),
            b'g' => self.set_message(u16_at(input, 0)),
            b'b' => send_keys::refusal(flight_calls::begin_flight(&mut self.f)),
            b'a' => ack_calls::process_ack(&mut self.f, &mut self.numbers, input).refusal,
            _ => 0,
        }
    }

    fn send(&mut self, input: &[u8]) -> u8 {
        let queue = front(&mut self.queue, self.queue_lent);
        send_keys::refusal(send_calls::send(
            &mut self.w,
            u16_at(input, 0),
            run_lines::get1(input, 2),
            base::behind(input, 5),
            queue,
        ))
    }

    // Sealed bytes are written to the part that the question names.
    fn reply(&mut self, input: &[u8]) -> u8 {
        let queue = front(&mut self.queue, self.queue_lent);
        let q = send_calls::sealing(&self.w);
        let sealed = base::fragment(base::behind(input, 4), 0, q.length);
        let length = u16_at(input, 2) as usize;
        let mask_0 = run_lines::get1(input, 0);
        run_lines::push_all(seal_steps::part(&self.w, queue), 0, sealed);
        sealing::refusal(send_calls::sealed(
            &mut self.w,
            length,
            mask_0,
            run_lines::get1(input, 1),
            queue,
        ))
    }

    fn save(&mut self, input: &[u8]) -> u8 {
        send_keys::refusal(flight_calls::send_saved(
            &mut self.w,
            &mut self.f,
            &mut self.numbers,
            u16_at(input, 0),
            run_lines::get1(input, 2),
            base::behind(input, 5),
            front(&mut self.queue, self.queue_lent),
            front(&mut self.kept, self.kept_lent),
        ))
    }

    fn handshake(&mut self, input: &[u8]) -> u8 {
        send_keys::refusal(flight_calls::create_handshake(
            &mut self.w,
            &mut self.f,
            &mut self.numbers,
            run_lines::get1(input, 0),
            base::behind(input, 3),
            front(&mut self.queue, self.queue_lent),
            front(&mut self.kept, self.kept_lent),
        ))
    }

    fn resend(&mut self) -> u8 {
        ack_calls::resend(
            &mut self.w,
            &mut self.f,
            &mut self.numbers,
            front(&mut self.kept, self.kept_lent),
            front(&mut self.queue, self.queue_lent),
        )
        .refusal
    }

    fn call(&mut self, letter: u8, input: &[u8]) -> u8 {
        match letter {
            b'f' => self.fresh(input),
            b'd' => self.send(input),
            b's' => self.reply(input),
            b'p' => self.save(input),
            b'h' => self.handshake(input),
            b'r' => self.resend(),
            _ => self.host_step(letter, input),
        }
    }

    // With 32 noted, nothing is noted any more.
    fn note(&mut self, input: &[u8]) -> HuskSealing {
        let epoch = u64_at(input, 0);
        let number = u64_at(input, 8);
        let a = ack_calls::note(
            &mut self.count,
            &mut self.epochs,
            &mut self.noted,
            epoch,
            number,
        );
        bare(a.refusal, (a.refusal == 0 && a.told == 0) as u8, 0)
    }

    // With none noted, nothing is sent.
    fn send_ack(&mut self) -> HuskSealing {
        let a = ack_calls::send_ack(
            &mut self.w,
            &mut self.count,
            &mut self.epochs,
            &mut self.noted,
            front(&mut self.queue, self.queue_lent),
        );
        bare(a.refusal, (a.refusal == 0 && a.told == 0) as u8, 0)
    }

    fn take(&mut self, rt: &impl Print, input: &[u8]) -> io::Result<()> {
        let mut buffer = [0xEEu8; 1600];
        let n = u16_at(input, 0) as usize;
        let queue = front(&mut self.queue, self.queue_lent);
        let r = send_calls::take(&mut self.w, front(&mut buffer, n), queue);
        let t = bare(r.refusal, r.kind, r.length);
        say(rt, b't', t, base::fragment(&buffer, 0, n))
    }

    fn question(&self, rt: &impl Print) -> io::Result<()> {
        let mut q = send_calls::sealing(&self.w);
        if q.kind == 2 {
            q.kind = 3;
        }
        let queue = base::fragment(&self.queue, 0, self.queue_lent);
        say(rt, b'q', q, base::fragment(queue, q.start, q.length))
    }

    // The next numbers, the queue's lengths, how many records are saved and noted.
    fn view(&self, rt: &impl Print) -> io::Result<()> {
        let w = &self.w;
        let mut out = [0; 128];
        let mut n = lay_keys(w, &mut out);
        n = run_lines::push_all(&mut out, n, &low2(w[COUNT]));
        n = run_lines::push_all(&mut out, n, &low2(w[CLOSED]));
        for i in 0..w[COUNT] as usize {
            n = run_lines::push_all(&mut out, n, &low2(length_at(w, i)));
        }
        n = run_lines::push_all(&mut out, n, &low2(self.f[flight_words::SAVED]));
        n = run_lines::push_all(&mut out, n, &low2(self.count[0]));
        say(rt, b'v', bare(0, 0, 0), base::fragment(&out, 0, n))
    }

    // A saved record: type, epoch, number, whether it was acknowledged, what it remembers, its content.
    fn entry(&self, rt: &impl Print, i: usize) -> io::Result<()> {
        if 12 <= i {
            return Ok(());
        }
        let e = flight_words::entry_of(&self.f, i);
        let start = content_start(self.w[MTU] as usize, i);
        let kept = base::fragment(&self.kept, 0, self.kept_lent);
        let mut out = [0; 2000];
        let mut n = run_lines::push_all(&mut out, 0, &[0, e.marked as u8]);
        n = run_lines::push_all(&mut out, n, &low2(e.remembered as u64));
        for k in 0..e.remembered {
            n = run_lines::push_all(&mut out, n, &remembered(&self.numbers, i, k).to_be_bytes());
        }
        n = run_lines::push_all(&mut out, n, base::fragment(kept, start, e.length));
        let mut t = bare(0, e.content_type, e.length);
        t.epoch = e.epoch;
        t.number = e.number;
        say(rt, b'e', t, base::fragment(&out, 0, n))
    }

    fn step(&mut self, rt: &impl Print, letter: u8, input: &[u8]) -> io::Result<()> {
        match letter {
            b'n' => say(rt, letter, self.note(input), b""),
            b'c' => say(rt, letter, self.send_ack(), b""),
            b't' => self.take(rt, input),
            b'q' => self.question(rt),
            b'v' => self.view(rt),
            b'e' => self.entry(rt, run_lines::get1(input, 0) as usize),
            _ => say(rt, letter, bare(self.call(letter, input), 0, 0), b""),
        }
    }
}

// ---- lines

fn pattern_at(d: &[u8], i: usize) -> u8 {
    if d.is_empty() {
        return 0;
    }
    d[i % d.len()]
}

// The bytes before a content, the last two of which are its length; then the content, of which a pattern is given.
fn fill(input: &[u8], head: usize, n: u16, out: &mut [u8]) -> usize {
    let pattern = base::behind(input, head);
    let mut m = run_lines::push_all(out, 0, base::fragment(input, 0, head));
    for i in 0..n as usize {
        m = run_lines::push(out, m, pattern_at(pattern, i));
    }
    m
}

// A line's bytes with its content whole.
fn expand(letter: u8, input: &[u8], out: &mut [u8]) -> usize {
    match letter {
        b'd' | b'p' => fill(input, 5, u16_at(input, 3), out),
        b'h' => fill(input, 3, u16_at(input, 1), out),
        b's' => fill(input, 4, u16_at(input, 2), out),
        _ => run_lines::push_all(out, 0, input),
    }
}

// Of each line of input 16,640 bytes are read, and as many with its content whole. The buffers are fixed: no input is refused for want of memory.
fn main(rt: HostRuntime) -> io::Result<()> {
    let mut host = Host::new();
    let mut text = [0; 65536];
    let mut room: &mut [u8] = &mut text;
    let n = io::copy(&mut rt.reader().take(65536), &mut room)?;
    let mut space = [0; 16640];
    let mut whole = [0; 16640];
    for line in base::fragment(&text, 0, n as usize).split_inclusive(|b| *b == b'\n') {
        let (letter, d) = run_lines::read(line, &mut space);
        let m = expand(letter, d, &mut whole);
        host.step(&rt, letter, base::fragment(&whole, 0, m))?;
    }
    Ok(())
}
