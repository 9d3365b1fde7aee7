// The sending side of a link as a host calls it. The state is words that the host keeps and lends, and the queue a buffer of its own.
// Whatever stands in the words, a call ends with an answer.
#![tactic(auto)]

ghost use Rattle.std.specs.Prelude.{◌≡◌};
ghost use Rattle.sealing.specs.Sealing as sealings;
ghost use Rattle.send_keys.specs.Answer.{refusal};
ghost use Rattle.take_steps.specs.Front.{told, begins};
ghost use Rattle.send_calls.specs.Calls.{
  flat_sealing,
  no_sealing,
  flat_take,
  no_take,
  flat_part,
  no_part,
  FreshCall,
  KeySendCall,
  SendCall,
  SealingCall,
  SealedCall,
  TakeCall,
  TakeInPlaceCall,
};

use sealing::{Seal, SealError};
use send_keys::SendError;
use send_words::{LIMIT, MTU, WORDS};
use take_steps::Front;
use taking::TakeError;

// The sealing that is asked for, by kind: 0 refused by 12, 1 none waits, 2 a record's full epoch and number, nonce, header with its
// number not masked, and the place in the queue of what is to be sealed.
// The C interface has numbers.
#[repr(C)]
#[derive(Clone, Copy)]
pub struct HuskSealing {
    pub kind: u8,
    pub refusal: u8,
    pub epoch: u16,
    pub number: u64,
    pub start: usize,
    pub length: usize,
    pub nonce: [u8; 12],
    pub header: [u8; 5],
}

// A datagram taken, by kind: 0 refused by 12, 16 or 23, 1 the queue is empty, 2 a datagram of so many bytes. For 16 the length is
// what is needed.
// The C interface has numbers.
#[repr(C)]
#[derive(Clone, Copy)]
pub struct HuskTake {
    pub kind: u8,
    pub refusal: u8,
    pub length: usize,
}

// A datagram taken where it lies in the queue, by kind: 0 refused by 12 or 23, 1 the queue is empty, 2 a datagram of so many bytes from a
// place of the queue on.
// The C interface has numbers.
#[repr(C)]
#[derive(Clone, Copy)]
pub struct HuskPart {
    pub kind: u8,
    pub refusal: u8,
    pub start: usize,
    pub length: usize,
}

// ---- answers flat: the C interface has numbers. One maker for each of its structs, since a trait over the three is no plainer.

fn no_sealing(kind: u8, refusal: u8) -> HuskSealing
    ensures { result ≡ no_sealing kind refusal }
{
    HuskSealing {
        kind: kind,
        refusal: refusal,
        epoch: 0,
        number: 0,
        start: 0,
        length: 0,
        nonce: [0u8; 12],
        header: [0u8; 5],
    }
}

fn flat_sealing(q: Result<Option<Seal>, SealError>) -> HuskSealing
    ensures { result ≡ flat_sealing q }
{
    match q {
        Ok(Some(seal)) => {
            let nonce = seal.nonce;
            let header = seal.header;
            HuskSealing {
                kind: 2,
                refusal: 0,
                epoch: seal.epoch,
                number: seal.number,
                start: seal.start,
                length: seal.length,
                nonce,
                header,
            }
        }
        Ok(None) => no_sealing(1, 0),
        Err(e) => no_sealing(0, sealing::refusal(Err(e))),
    }
}

fn no_take(kind: u8, refusal: u8, length: usize) -> HuskTake
    ensures { result ≡ no_take kind refusal length }
{
    HuskTake {
        kind: kind,
        refusal: refusal,
        length: length,
    }
}

fn flat_take(a: Result<Option<usize>, TakeError>) -> HuskTake
    ensures { result ≡ flat_take a }
{
    match a {
        Ok(Some(n)) => no_take(2, 0, n),
        Ok(None) => no_take(1, 0, 0),
        Err(TakeError::OutOfRange) => no_take(0, 12, 0),
        Err(TakeError::Unsealed) => no_take(0, 23, 0),
        Err(TakeError::Short(n)) => no_take(0, 16, n),
    }
}

fn no_part(kind: u8, refusal: u8) -> HuskPart
    ensures { result ≡ no_part kind refusal }
{
    HuskPart {
        kind: kind,
        refusal: refusal,
        start: 0,
        length: 0,
    }
}

fn flat_part(a: Result<Option<Front>, TakeError>) -> HuskPart
    ensures { result ≡ flat_part (told a) (begins a) }
{
    match a {
        Ok(Some(front)) => HuskPart {
            kind: 2,
            refusal: 0,
            start: front.start,
            length: front.length,
        },
        Ok(None) => no_part(1, 0),
        Err(TakeError::OutOfRange) => no_part(0, 12),
        Err(TakeError::Unsealed) => no_part(0, 23),
        Err(TakeError::Short(_)) => no_part(0, 16),
    }
}

// ---- the calls

// Nothing keyed, nothing queued, whatever stood in the words. MTU 576 to 1,500, at most 1 to 16 datagrams.
pub fn fresh(w: &mut [u64; WORDS], mtu: usize, limit: usize) -> Result<(), SendError>
    ensures { FreshCall (refusal result) w.new mtu limit }
{
    *w = [0u64; WORDS];
    w[MTU] = mtu as u64;
    w[LIMIT] = limit as u64;
    if queue::is_setting(mtu, limit) {
        return Ok(());
    }
    Err(SendError::OutOfRange)
}

// Keys an epoch to send, with its IV.
#[tactic(auto, unfolding(outgoing::specs::State::keying_state, base::specs::Choose::choose))]
pub fn key_send(w: &mut [u64; WORDS], epoch: u16, iv: &[u8; 12]) -> Result<(), SendError>
    ensures { KeySendCall (refusal result) w.new w.old epoch iv.now }
{
    if send_words::is_flat(w) {
        return send_key_steps::key_send(w, epoch, *iv);
    }
    Err(SendError::OutOfRange)
}

// A record that is not saved: in plaintext in epoch 0, else to be sealed.
#[tactic(auto, unfolding(outgoing::specs::Send::send_state, base::specs::Choose::choose))]
pub fn send(
    w: &mut [u64; WORDS],
    epoch: u16,
    content_type: u8,
    content: &[u8],
    queue: &mut [u8],
) -> Result<(), SendError>
    ensures { SendCall (refusal result) w.new w.old epoch content_type content.now queue.new queue.old }
{
    if send_words::is_flat(w) {
        return send_steps::send(w, epoch, content_type, content, queue);
    }
    Err(SendError::OutOfRange)
}

// The oldest sealing that waits.
#[tactic(auto, unfolding(base::specs::Choose::choose))]
pub fn sealing(w: &[u64; WORDS]) -> HuskSealing
    ensures { SealingCall result w.now }
{
    if send_words::is_flat(w) {
        return flat_sealing(seal_steps::question(w));
    }
    no_sealing(0, 12)
}

// The host has sealed so many bytes in place, and this is the mask of the two number bytes.
#[tactic(auto, unfolding(sealing::specs::Sealing::sealed_state, base::specs::Choose::choose))]
pub fn sealed(
    w: &mut [u64; WORDS],
    length: usize,
    mask_0: u8,
    mask_1: u8,
    queue: &mut [u8],
) -> Result<(), SealError>
    ensures { SealedCall (sealings.refusal result) w.new w.old length mask_0 mask_1 queue.new queue.old }
{
    if send_words::is_flat(w) {
        return seal_steps::sealed(w, length, [mask_0, mask_1], queue);
    }
    Err(SealError::OutOfRange)
}

// The front datagram, if it is wholly sealed, copied to the start of a buffer.
#[tactic(auto, unfolding(taking::specs::Take::take_state, base::specs::Choose::choose))]
pub fn take(w: &mut [u64; WORDS], buffer: &mut [u8], queue: &[u8]) -> HuskTake
    ensures { TakeCall result w.new w.old buffer.new buffer.old queue.now }
{
    if send_words::is_flat(w) {
        return flat_take(take_steps::take(w, buffer, queue));
    }
    no_take(0, 12, 0)
}

// The front datagram, if it is wholly sealed, taken where it lies in the queue. A length of 16 bits fits a buffer of 65,535.
pub fn take_in_place(w: &mut [u64; WORDS], queue: &[u8]) -> HuskPart
    ensures { TakeInPlaceCall result w.new w.old queue.now }
{
    if send_words::is_flat(w) {
        return flat_part(take_steps::take_front(w, queue.len(), 65535));
    }
    no_part(0, 12)
}
