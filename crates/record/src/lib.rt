// Record headers read, after record.rs, and the cut of a datagram into records, after `Records::parse_records` of
// incoming.rs.
#![tactic(auto)]

ghost use Rattle.std.specs.Prelude.{◌≡◌, ◌+◌, ◌-◌, ◌≤◌, ◌<◌, length};
ghost use Rattle.record.specs.Record.{
  header_length,
  fragment_len,
  partial_of,
  is_type,
  is_version,
  is_plaintext,
  number_of,
  parse_ciphertext,
  parse_plaintext,
  parsed,
};

// The versions that a plaintext header may carry; the second is written.
const DTLS1_0: [u8; 2] = [0xFE, 0xFF];

pub const DTLS1_2: [u8; 2] = [0xFE, 0xFD];

// Bytes of a plaintext header: type 1, version 2, epoch 2, number 6, length 2.
pub const PLAINTEXT_HEADER_LEN: usize = 13;
// A sealed header as it is written: flags, two number bytes, two length bytes.
pub const SEALED_HEADER_LEN: usize = 5;

pub const TAG_LEN: usize = 16;
// What a sealed record has behind its content: the type and the tag.
pub const SEALED_TAIL_LEN: usize = 1 + TAG_LEN;
// What sealing adds to a content.
pub const SEALED_OVERHEAD: usize = SEALED_HEADER_LEN + SEALED_TAIL_LEN;
// The largest body.
pub const MAX_BODY: usize = 16384;
// 2^48 - 1: no record is sent under it.
pub const LAST_NUMBER: u64 = 281474976710655;

pub const ALERT: u8 = 21;

pub const HANDSHAKE: u8 = 22;

pub const APPLICATION_DATA: u8 = 23;

pub const ACK: u8 = 26;
// The bytes of an epoch and a number that an ACK names.
pub const RECORD_NUMBER_LEN: usize = 16;

#[derive(Clone, Copy)]
pub struct Plaintext {
    pub content_type: u8,
    pub sequence_number: u64,
    pub length: usize,
}

// A sealed record: the low bits of its epoch, whether its number has two bytes, these bytes as they lie, and how long header and
// protected part are.
#[derive(Clone, Copy)]
pub struct Ciphertext {
    pub epoch_bits: u8,
    pub s_flag: bool,
    pub sequence_number: u64,
    pub header_len: usize,
    pub length: usize,
}

// What begins the rest of a datagram.
#[derive(Clone, Copy)]
pub enum Parsed {
    // Nothing more, or a header with a connection ID: the datagram ends here.
    End,
    // A header or a length beyond its bytes (refusal 2).
    Incomplete,
    // A plaintext record of so many bytes whose type, version or epoch is not allowed (refusal 4).
    Invalid(usize),
    Plaintext(Plaintext),
    Ciphertext(Ciphertext),
}

// Bytes of a unified header, by its flags.
#[tactic(auto, unfolding(crate::specs::Record::header_length))]
fn header_len(flags: u8) -> usize
    ensures { (result ≡ header_length flags) × (2 ≤ result) × (result ≤ 5) }
{
    let s = flags / 8 % 2;
    let l = flags / 4 % 2;
    (2 + s + l * 2) as usize
}

// The length field of a unified header, its last two bytes; without one the record runs to the end.
#[tactic(auto, unfolding(crate::specs::Record::fragment_len, base::specs::Choose::choose))]
fn fragment_len(d: &[u8], flags: u8, head: usize) -> usize
    requires { (head ≡ header_length flags) × (2 ≤ head) × (head ≤ length d.now) }
    ensures { result ≡ fragment_len d.now flags }
{
    if flags / 4 % 2 == 1 {
        return base::be::<2>(d, head - 2) as usize;
    }
    d.len() - head
}

// The number bytes of a unified header, as they lie.
#[tactic(auto, unfolding(crate::specs::Record::partial_of, base::specs::Choose::choose))]
pub fn partial(d: &[u8], s_flag: bool) -> u64
    ensures { result ≡ partial_of d.now s_flag }
{
    if s_flag {
        return base::byte_or_zero(d, 1) * 256 + base::byte_or_zero(d, 2);
    }
    base::byte_or_zero(d, 1)
}

#[tactic(auto, unfolding(crate::specs::Record::parse_ciphertext, base::specs::Choose::choose))]
fn parse_ciphertext(d: &[u8], flags: u8) -> Parsed
    ensures { result ≡ parse_ciphertext d.now flags }
{
    let n = d.len();
    let head = header_len(flags);
    if n < head {
        return Parsed::Incomplete;
    }
    let length = fragment_len(d, flags, head);
    if n - head < length {
        return Parsed::Incomplete;
    }
    let s_flag = flags / 8 % 2 == 1;
    Parsed::Ciphertext(Ciphertext {
        epoch_bits: flags % 4,
        s_flag,
        sequence_number: partial(d, s_flag),
        header_len: head,
        length,
    })
}

// The types that a plaintext record may have.
#[tactic(auto, unfolding(crate::specs::Record::is_type, base::specs::Choose::either))]
pub fn is_type(t: u8) -> bool
    ensures { result ≡ is_type t }
{
    matches!(t, ALERT | HANDSHAKE | ACK)
}

#[tactic(auto, unfolding(crate::specs::Record::is_version, base::specs::Choose::either, base::specs::Choose::both))]
fn is_version(a: u8, b: u8) -> bool
    ensures { result ≡ is_version a b }
{
    [a, b] == DTLS1_0 || [a, b] == DTLS1_2
}

// Whether type, version and epoch of a plaintext header are allowed.
#[tactic(auto, unfolding(crate::specs::Record::is_plaintext, base::specs::Choose::both))]
fn is_plaintext(d: &[u8]) -> bool
    requires { 13 ≤ length d.now }
    ensures { result ≡ is_plaintext d.now }
{
    is_type(d[0]) && is_version(d[1], d[2]) && base::be::<2>(d, 3) == 0
}

// The six bytes of a plaintext header's number.
fn number(d: &[u8]) -> u64
    requires { 13 ≤ length d.now }
    ensures { result ≡ number_of d.now }
{
    base::be::<6>(d, 5)
}

#[tactic(auto, unfolding(crate::specs::Record::parse_plaintext, base::specs::Choose::choose))]
fn parse_plaintext(d: &[u8]) -> Parsed
    ensures { result ≡ parse_plaintext d.now }
{
    let n = d.len();
    if n < PLAINTEXT_HEADER_LEN {
        return Parsed::Incomplete;
    }
    let length = base::be::<2>(d, 11) as usize;
    if n - PLAINTEXT_HEADER_LEN < length {
        return Parsed::Incomplete;
    }
    if is_plaintext(d) {
        return Parsed::Plaintext(Plaintext {
            content_type: d[0],
            sequence_number: number(d),
            length,
        });
    }
    Parsed::Invalid(length)
}

// What begins the rest of a datagram.
#[tactic(auto, unfolding(crate::specs::Record::parsed, base::specs::Choose::choose))]
pub fn parse(d: &[u8]) -> Parsed
    ensures { result ≡ parsed d.now }
{
    if d.is_empty() {
        return Parsed::End;
    }
    let flags = d[0];
    if flags / 32 == 1 {
        if flags / 16 % 2 == 1 {
            return Parsed::End;
        }
        return parse_ciphertext(d, flags);
    }
    parse_plaintext(d)
}
