// The leaves as C functions over flat structs: a static library for hosts and for comparing with the Rust.
#![tactic(auto)]

ghost use Rattle.std.specs.Prelude.{◌≡◌, get_or};
ghost use Rattle.window.specs.Window.{unmarked, verdict, marking};
ghost use Rattle.sequence.specs.Sequence.{block_of, nearest};
ghost use Rattle.dtls_aead.specs.Nonce.{nonce_of};
ghost use Rattle.chacha.specs.Chacha.{mask_of, sample_words};
ghost use Rattle.record.specs.Record.{parsed, plaintext_header, unified_header};
ghost use Rattle.handshake.specs.Header.{header_bytes, parse_header};
ghost use Rattle.incoming.specs.Inner.{inner_of};
ghost use Rattle.leaves.specs.Flat.{window_of, flat_window, verdict_number, bare, flat_plaintext, flat_ciphertext, flat_parsed, flat_header, flat_inner};

use handshake::Header;
use incoming::Inner;
use record::{Ciphertext, PLAINTEXT_HEADER_LEN, Parsed, Plaintext};
use window::{ReplayWindow, Verdict};

#[repr(C)]
#[derive(Clone, Copy)]
pub struct LeavesWindow {
    pub max_seq: u64,
    pub window: u64,
}

#[repr(C)]
#[derive(Clone, Copy)]
pub struct LeavesNonce {
    pub bytes: [u8; 12],
}

// kind: 0 the datagram ends, 1 refusal 2, 2 refusal 4, 3 plaintext, 4 sealed. Fields that a kind does not use are zeros.
#[repr(C)]
#[derive(Clone, Copy)]
pub struct LeavesParsed {
    pub kind: u8,
    pub content_type: u8,
    pub epoch_bits: u8,
    pub s_flag: bool,
    pub sequence_number: u64,
    pub header_len: usize,
    pub length: usize,
}

#[repr(C)]
#[derive(Clone, Copy)]
pub struct LeavesPlain {
    pub bytes: [u8; 13],
}

#[repr(C)]
#[derive(Clone, Copy)]
pub struct LeavesUnified {
    pub bytes: [u8; 5],
}

#[repr(C)]
#[derive(Clone, Copy)]
pub struct LeavesHandshake {
    pub bytes: [u8; 12],
}

#[repr(C)]
#[derive(Clone, Copy)]
pub struct LeavesHeader {
    pub found: bool,
    pub msg_type: u8,
    pub length: u32,
    pub message_seq: u16,
    pub fragment_offset: u32,
    pub fragment_length: u32,
}

#[repr(C)]
#[derive(Clone, Copy)]
pub struct LeavesInner {
    pub found: bool,
    pub content_type: u8,
    pub length: usize,
}

impl From<ReplayWindow> for LeavesWindow {
    ghost from_gives = { λ w r. r ≡ flat_window w };

    fn from(w: ReplayWindow) -> LeavesWindow {
        LeavesWindow {
            max_seq: w.max_seq,
            window: w.window,
        }
    }
}

impl From<LeavesWindow> for ReplayWindow {
    ghost from_gives = { λ w r. r ≡ window_of w };

    fn from(w: LeavesWindow) -> ReplayWindow {
        ReplayWindow {
            max_seq: w.max_seq,
            window: w.window,
        }
    }
}

#[unsafe(no_mangle)]
pub extern "C" fn leaves_window_new() -> LeavesWindow
    ensures { result ≡ flat_window unmarked }
{
    LeavesWindow::from(ReplayWindow::new())
}

// 0 fresh, 1 seen, 2 too old.
fn verdict_number(v: Verdict) -> u8
    ensures { result ≡ verdict_number v }
{
    match v {
        Verdict::Fresh => 0,
        Verdict::Seen => 1,
        Verdict::TooOld => 2,
    }
}

#[unsafe(no_mangle)]
pub extern "C" fn leaves_window_check(w: LeavesWindow, seqno: u64) -> u8
    ensures { result ≡ verdict_number (verdict (window_of w) seqno) }
{
    verdict_number(ReplayWindow::from(w).check(seqno))
}

#[unsafe(no_mangle)]
pub extern "C" fn leaves_window_update(w: LeavesWindow, seqno: u64) -> LeavesWindow
    ensures { result ≡ flat_window (marking (window_of w) seqno) }
{
    let v = ReplayWindow::from(w);
    LeavesWindow::from(v.update(seqno))
}

#[unsafe(no_mangle)]
pub extern "C" fn leaves_reconstruct_sequence(partial: u64, expected: u64, s_flag: bool) -> u64
    ensures { result ≡ nearest (block_of s_flag) partial expected }
{
    sequence::reconstruct_sequence(partial, expected, s_flag)
}

#[unsafe(no_mangle)]
pub extern "C" fn leaves_nonce_xor(iv: LeavesNonce, seq: u64) -> LeavesNonce
    ensures { result.bytes ≡ nonce_of iv.bytes seq }
{
    LeavesNonce {
        bytes: dtls_aead::nonce_xor(iv.bytes, seq),
    }
}

// An answer without a record: the header's length and the length where it has them.
fn bare(kind: u8, header_len: usize, length: usize) -> LeavesParsed
    ensures { result ≡ bare kind header_len length }
{
    LeavesParsed {
        kind,
        content_type: 0,
        epoch_bits: 0,
        s_flag: false,
        sequence_number: 0,
        header_len,
        length,
    }
}

impl From<Plaintext> for LeavesParsed {
    ghost from_gives = { λ p r. r ≡ flat_plaintext p };

    fn from(p: Plaintext) -> LeavesParsed {
        LeavesParsed {
            kind: 3,
            content_type: p.content_type,
            epoch_bits: 0,
            s_flag: false,
            sequence_number: p.sequence_number,
            header_len: PLAINTEXT_HEADER_LEN,
            length: p.length,
        }
    }
}

impl From<Ciphertext> for LeavesParsed {
    ghost from_gives = { λ c r. r ≡ flat_ciphertext c };

    fn from(c: Ciphertext) -> LeavesParsed {
        LeavesParsed {
            kind: 4,
            content_type: 0,
            epoch_bits: c.epoch_bits,
            s_flag: c.s_flag,
            sequence_number: c.sequence_number,
            header_len: c.header_len,
            length: c.length,
        }
    }
}

// The answer flat: one struct for every kind.
impl From<Parsed> for LeavesParsed {
    ghost from_gives = { λ p r. r ≡ flat_parsed p };

    fn from(p: Parsed) -> LeavesParsed {
        match p {
            Parsed::End => bare(0, 0, 0),
            Parsed::Incomplete => bare(1, 0, 0),
            Parsed::Invalid(n) => bare(2, PLAINTEXT_HEADER_LEN, n),
            Parsed::Plaintext(r) => LeavesParsed::from(r),
            Parsed::Ciphertext(r) => LeavesParsed::from(r),
        }
    }
}

#[unsafe(no_mangle)]
pub extern "C" fn leaves_parse(d: &[u8]) -> LeavesParsed
    ensures { result ≡ flat_parsed (parsed d.now) }
{
    LeavesParsed::from(record::parse(d))
}

#[unsafe(no_mangle)]
pub extern "C" fn leaves_plaintext_header(
    content_type: u8,
    sequence_number: u64,
    length: u16,
) -> LeavesPlain
    ensures { result.bytes ≡ plaintext_header content_type sequence_number length }
{
    LeavesPlain {
        bytes: headers::plaintext_header(content_type, sequence_number, length),
    }
}

#[unsafe(no_mangle)]
pub extern "C" fn leaves_unified_header(
    epoch: u16,
    sequence_number: u64,
    length: u16,
) -> LeavesUnified
    ensures { result.bytes ≡ unified_header epoch sequence_number length }
{
    LeavesUnified {
        bytes: headers::unified_header(epoch, sequence_number, length),
    }
}

#[unsafe(no_mangle)]
pub extern "C" fn leaves_handshake_header(
    msg_type: u8,
    length: u32,
    message_seq: u16,
    fragment_offset: u32,
    fragment_length: u32,
) -> LeavesHandshake
    ensures { result.bytes ≡ header_bytes (record {
      msg_type = msg_type;
      length = length;
      message_seq = message_seq;
      fragment_offset = fragment_offset;
      fragment_length = fragment_length;
    }) }
{
    let h = Header {
        msg_type,
        length,
        message_seq,
        fragment_offset,
        fragment_length,
    };
    LeavesHandshake {
        bytes: h.serialize(),
    }
}

impl From<Option<Header>> for LeavesHeader {
    ghost from_gives = { λ p r. r ≡ flat_header p };

    fn from(p: Option<Header>) -> LeavesHeader {
        match p {
            None => LeavesHeader {
                found: false,
                msg_type: 0,
                length: 0,
                message_seq: 0,
                fragment_offset: 0,
                fragment_length: 0,
            },
            Some(h) => LeavesHeader {
                found: true,
                msg_type: h.msg_type,
                length: h.length,
                message_seq: h.message_seq,
                fragment_offset: h.fragment_offset,
                fragment_length: h.fragment_length,
            },
        }
    }
}

#[unsafe(no_mangle)]
pub extern "C" fn leaves_parse_handshake_header(d: &[u8]) -> LeavesHeader
    ensures { result ≡ flat_header (parse_header d.now) }
{
    LeavesHeader::from(Header::parse_header(d))
}

impl From<Option<Inner>> for LeavesInner {
    ghost from_gives = { λ p r. r ≡ flat_inner p };

    fn from(p: Option<Inner>) -> LeavesInner {
        match p {
            None => LeavesInner {
                found: false,
                content_type: 0,
                length: 0,
            },
            Some(i) => LeavesInner {
                found: true,
                content_type: i.content_type,
                length: i.length,
            },
        }
    }
}

#[unsafe(no_mangle)]
pub extern "C" fn leaves_recover_inner_content_type(d: &[u8]) -> LeavesInner
    ensures { result ≡ flat_inner (inner_of d.now) }
{
    LeavesInner::from(incoming::recover_inner_content_type(d))
}

#[unsafe(no_mangle)]
pub extern "C" fn leaves_chacha_mask(key: &[u8; 32], sample: &[u8; 16], out: &mut [u8; 2])
    ensures { out.new ≡ mask_of key.now sample.now }
{
    *out = chacha::mask(*key, *sample);
}

// Word k of the mask's block; beyond its sixteen words 0.
#[unsafe(no_mangle)]
pub extern "C" fn leaves_chacha_block_word(key: &[u8; 32], sample: &[u8; 16], k: usize) -> u32
    ensures { result ≡ get_or (sample_words key.now sample.now) k 0 }
{
    if k >= chacha::BLOCK_WORDS {
        return 0;
    }
    chacha::block_word(*key, *sample, k)
}
