// The sending side's state in words that the host keeps (specs/Words.antt says what they stand for), read and written.
#![tactic(auto)]

ghost use Rattle.std.specs.Prelude.{◌≡◌, ◌≤◌, ◌<◌, length};
ghost use Rattle.words.specs.Packed.{LowIv};
ghost use Rattle.send_words.specs.Words.{words, application-at, application-iv-at, waiting_of, is_flat, put_waiting, put_epoch};

use outgoing::Waiting;
use send_keys::SendEpoch;

// ---- which word is which

pub const WORDS: usize = 39;
// The MTU, the queue's limit, the ring's first slot, how many datagrams wait, whether the last is closed.
pub const MTU: usize = 0;

pub const LIMIT: usize = 1;

pub const FIRST: usize = 2;

pub const COUNT: usize = 3;

pub const CLOSED: usize = 4;
// The oldest sealing: whether one waits, its slot, where it starts there, the length of what is to be sealed, its epoch, its number.
pub const SEALING: usize = 5;

pub const SEALING_SLOT: usize = 6;

pub const SEALING_START: usize = 7;

pub const SEALING_LENGTH: usize = 8;

const SEALING_EPOCH: usize = 9;

const SEALING_NUMBER: usize = 10;

pub const PLAINTEXT_NEXT: usize = 11;
// Three words of epoch 2 and three of the application epoch: the epoch once keyed, its next number, and the number from which on its
// records may wait.
const NEXT: usize = 1;

const SEALED: usize = 2;

pub const HANDSHAKE: usize = 12;

pub const HANDSHAKE_NEXT: usize = HANDSHAKE + NEXT;

pub const HANDSHAKE_SEALED: usize = HANDSHAKE + SEALED;

pub const APPLICATION: usize = 15;

pub const APPLICATION_NEXT: usize = APPLICATION + NEXT;

pub const APPLICATION_SEALED: usize = APPLICATION + SEALED;
// The next message number.
pub const MESSAGE: usize = 18;
// The length of the datagram in each of 16 slots.
pub const LENGTHS: usize = 19;
// Two words of each epoch's IV: the first four bytes, and the other eight.
const BACK: usize = 1;

pub const HANDSHAKE_IV: usize = 35;

pub const HANDSHAKE_IV_BACK: usize = HANDSHAKE_IV + BACK;

pub const APPLICATION_IV: usize = 37;

pub const APPLICATION_IV_BACK: usize = APPLICATION_IV + BACK;

// ---- read

// The oldest sealing that waits.
pub fn waiting_of(w: &[u64; WORDS]) -> Waiting
    ensures { result ≡ waiting_of w.now }
{
    Waiting {
        any: w[SEALING] == 1,
        slot: w[SEALING_SLOT] as usize,
        start: w[SEALING_START] as usize,
        length: w[SEALING_LENGTH] as usize,
        epoch: (w[SEALING_EPOCH] % 65536) as u16,
        number: w[SEALING_NUMBER],
    }
}

// Whether the words stand for a state: flags are 0 or 1.
#[tactic(auto, unfolding(crate::specs::Words::is_flat, base::specs::Choose::both))]
pub fn is_flat(w: &[u64; WORDS]) -> bool
    ensures { result ≡ is_flat w.now }
{
    w[CLOSED] <= 1 && w[SEALING] <= 1
}

// ---- written

pub fn put_waiting(w: &mut [u64; WORDS], x: Waiting)
    ensures { (w.new ≡ put_waiting x w.old) × (x.epoch ≤ 65535) }
{
    w[SEALING] = x.any as u64;
    w[SEALING_SLOT] = x.slot as u64;
    w[SEALING_START] = x.start as u64;
    w[SEALING_LENGTH] = x.length as u64;
    w[SEALING_EPOCH] = u64::from(x.epoch);
    w[SEALING_NUMBER] = x.number;
}

pub fn put_epoch(w: &mut [u64; WORDS], b: usize, at: usize, e: SendEpoch)
    requires { (b ≤ application-at) × (at ≤ application-iv-at) }
    ensures { (w.new ≡ put_epoch b at e w.old) × (e.epoch ≤ 65535) × LowIv e.iv }
{
    let next = b + NEXT;
    let sealed = b + SEALED;
    let back = at + BACK;
    w[b] = u64::from(e.epoch);
    w[next] = e.next;
    w[sealed] = e.sealed;
    words::put_iv(w, at, back, e.iv);
}
