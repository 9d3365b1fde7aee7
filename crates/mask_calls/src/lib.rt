// The calls that mask keys change, as a host makes them (02, 6). Beside the words of each side the host lends slots for mask keys: an epoch may be
// keyed with one, and then its masks are made here. The host is asked for none, and a sealing reply brings none.
#![tactic(auto)]

ghost use Rattle.std.specs.Prelude.{true, Err, List, ◌≡◌, ℕ, ◌<◌, length};
ghost use Rattle.base.specs.Choose.{choose};
ghost use Rattle.recv_keys.specs.Keys.{most_epochs};
ghost use Rattle.recv_keys.specs.Laws.{Under};
ghost use Rattle.receiving.specs.Receiving.{key_of, refusal_number};
ghost use Rattle.recv_words.specs.Words.{keys_of, is_flat};
ghost use Rattle.recv_key_steps.specs.Kept.{state_of};
ghost use Rattle.recv_calls.specs.Flat.{answer_of, number_of};
ghost use Rattle.mask_calls.specs.declared.MaskedKeyError.TheVariants.{Refused};
ghost use Rattle.send_words.specs.Words as sendWords;
ghost use Rattle.outgoing.specs.State.{keying_state};
ghost use Rattle.sealing.specs.Sealing as sealings;
ghost use Rattle.send_keys.specs.Answer as sendAnswers;
ghost use Rattle.send_keys.specs.Answer.{refusal};
ghost use Rattle.mask_keys.specs.Keys.{key_size, send_slots, filled, emptied, entry_of, send_slot};
ghost use Rattle.mask_calls.specs.Calls.{
  KeyReceiveCall,
  length_as,
  masked_number,
  KeyReceiveMaskedCall,
  MovesUp,
  RemoveReceiveCall,
  Held,
  asked_key,
  GoesOn,
  ReadCall,
  BeginReadCall,
  FreshCall,
  FreshSendCall,
  KeySendCall,
  IsMaskedNumber,
  KeySendMaskedCall,
  seal_mask,
  SealedCall,
};

use answers::HuskTold;
use classify_calls::PENDING;
use mask_keys::{KEY, RECEIVE, SEND};
use receiving::Refusal;
use recv_calls::HuskReading;
use recv_keys::EPOCHS;
use recv_words::{COUNT, HIGHEST, WORDS};
use sealing::SealError;
use send_keys::SendError;

// Refusals of keying.
const OUT_OF_RANGE: u8 = 12;

const BAD_EPOCH: u8 = 13;

const BAD_MASK_KEY: u8 = 27;

// The kind of a reading that asks for a mask, and of a sealing that is asked.
const MASK: u8 = 6;

const SEAL: u8 = 2;

// ---- the slots for receiving

// Slot i of the epochs keyed to receive filled.
fn fill_entry(k: &mut [u8; RECEIVE], i: u64, key: &[u8])
    requires { length key.now ≡ key_size }
    ensures { k.new ≡ filled most_epochs i key.now k.old }
{
    if i < EPOCHS as u64 {
        mask_keys::fill(k, i as usize, key);
    }
}

// Or emptied.
fn empty_entry(k: &mut [u8; RECEIVE], i: u64)
    ensures { k.new ≡ emptied most_epochs i k.old }
{
    if i < EPOCHS as u64 {
        mask_keys::empty(k, i as usize);
    }
}

// The entry of an epoch keyed to receive.
fn entry_of(w: &[u64; WORDS], epoch: u16) -> Option<usize>
    ensures { result ≡ entry_of (keys_of w.now) epoch }
{
    let count = w[COUNT];
    if count <= EPOCHS as u64 {
        return recv_words::find_epoch(w, count as usize, epoch);
    }
    None
}

// ---- keying and removing

// `recv_calls::key_receive`, with no mask key.
pub fn key_receive(
    w: &mut [u64; WORDS],
    k: &mut [u8; RECEIVE],
    epoch: u16,
    iv: &[u8; 12],
) -> Result<(), Refusal>
    ensures { KeyReceiveCall (number_of result) w.new w.old k.new k.old epoch iv.now }
{
    let count = w[COUNT];
    recv_calls::key_receive(w, epoch, iv)?;
    empty_entry(k, count);
    Ok(())
}

// Why an epoch is not keyed with a mask key: as with none, or the mask key has another length.
#[derive(Clone, Copy, Debug, PartialEq, Eq)]
pub enum MaskedKeyError<E> {
    Refused(E),
    BadMaskKey,
}

impl<E> From<E> for MaskedKeyError<E> {
    ghost from_gives = { λ e r. r ≡ Refused e };

    fn from(e: E) -> MaskedKeyError<E> {
        MaskedKeyError::Refused(e)
    }
}

// Why an epoch cannot be keyed to receive with a mask key of another length.
fn bad_length(w: &[u64; WORDS], epoch: u16) -> MaskedKeyError<Refusal>
    ensures { (iv : List ℕ) → masked_number refusal_number (Err result) ≡ choose (is_flat w.now) (length_as (answer_of (key_of (state_of w.now) epoch iv).answer)) 12 }
{
    if recv_words::is_flat(w) {
        if recv_words::words_sound(w) {
            if epoch < 2 {
                return MaskedKeyError::Refused(Refusal::Unusable);
            }
            if epoch <= words::low(w[HIGHEST]) {
                return MaskedKeyError::Refused(Refusal::Unusable);
            }
            return MaskedKeyError::BadMaskKey;
        }
        return MaskedKeyError::Refused(Refusal::Setting);
    }
    MaskedKeyError::Refused(Refusal::Setting)
}

// `recv_calls::key_receive`, with a mask key.
pub fn key_receive_masked(
    w: &mut [u64; WORDS],
    k: &mut [u8; RECEIVE],
    epoch: u16,
    iv: &[u8; 12],
    key: &[u8],
) -> Result<(), MaskedKeyError<Refusal>>
    ensures { KeyReceiveMaskedCall (masked_number refusal_number result) w.new w.old k.new k.old epoch iv.now key.now }
{
    if key.len() != KEY {
        return Err(bad_length(w, epoch));
    }
    let count = w[COUNT];
    recv_calls::key_receive(w, epoch, iv)?;
    fill_entry(k, count, key);
    Ok(())
}

// The slot of an entry goes, and those behind it move up.
fn leave(k: &mut [u8; RECEIVE], f: Option<usize>)
    requires { Under most_epochs f }
    ensures { MovesUp f k.new k.old }
{
    match f {
        Some(i) => mask_keys::move_up(k, i),
        None => {}
    }
}

// `recv_calls::remove_receive`; its mask key goes with the epoch.
pub fn remove_receive(w: &mut [u64; WORDS], k: &mut [u8; RECEIVE], epoch: u16) -> HuskTold
    ensures { RemoveReceiveCall result w.new w.old k.new k.old epoch }
{
    let f = entry_of(w, epoch);
    let r = recv_calls::remove_receive(w, epoch);
    let removed = r.refusal == 0;
    if removed {
        leave(k, f);
        return r;
    }
    r
}

// ---- reading

// `classify_calls::fresh`, with no mask key.
pub fn fresh(
    w: &mut [u64; WORDS],
    x: &mut [u64; PENDING],
    k: &mut [u8; RECEIVE],
    min_protected: usize,
) -> Result<(), Refusal>
    ensures { FreshCall (number_of result) w.new x.new k.new min_protected }
{
    *k = [0u8; RECEIVE];
    classify_calls::fresh(w, x, min_protected)
}

// The entry of an epoch, if it has a mask key.
fn keyed_entry(w: &[u64; WORDS], k: &[u8; RECEIVE], epoch: u16) -> Option<usize>
    ensures { Held k.now (entry_of (keys_of w.now) epoch) result }
{
    match entry_of(w, epoch) {
        Some(i) => {
            if mask_keys::has_key(k, i) {
                return Some(i);
            }
            None
        }
        None => None,
    }
}

// A mask asked for is made here, where its epoch has a mask key.
fn go_on(w: &mut [u64; WORDS], k: &[u8; RECEIVE], a: HuskReading, d: &mut [u8]) -> HuskReading
    requires { a.kind ≡ 6 }
    ensures { GoesOn (asked_key a w.old k.now) result w.new a w.old d.new d.old }
{
    match keyed_entry(w, k, a.epoch) {
        Some(i) => {
            let m = mask_keys::mask_at(k, i, d, a.start);
            recv_calls::mask(w, m[0], m[1], d)
        }
        None => a,
    }
}

// `classify_calls::read`, and the mask where it can be made here.
pub fn read(
    w: &mut [u64; WORDS],
    x: &mut [u64; PENDING],
    k: &[u8; RECEIVE],
    d: &mut [u8],
) -> HuskReading
    ensures { ReadCall result w.new w.old x.new x.old k.now d.new d.old }
{
    let a = classify_calls::read(w, x, d);
    if a.kind == MASK {
        return go_on(w, k, a, d);
    }
    a
}

// `classify_calls::begin_read`, and the mask where it can be made here.
pub fn begin_read(
    w: &mut [u64; WORDS],
    x: &mut [u64; PENDING],
    k: &[u8; RECEIVE],
    d: &mut [u8],
) -> HuskReading
    ensures { BeginReadCall result w.new w.old x.new x.old k.now d.new d.old }
{
    let a = classify_calls::begin_read(w, x, d);
    if a.kind == MASK {
        return go_on(w, k, a, d);
    }
    a
}

// ---- sending

// `send_calls::fresh`, with no mask key.
pub fn fresh_sending(
    w: &mut [u64; send_words::WORDS],
    k: &mut [u8; SEND],
    mtu: usize,
    limit: usize,
) -> Result<(), SendError>
    ensures { FreshSendCall (refusal result) w.new k.new mtu limit }
{
    *k = [0u8; SEND];
    send_calls::fresh(w, mtu, limit)
}

// Epoch 2 has the first slot, the application epoch the second.
fn send_slot(epoch: u16) -> usize
    ensures { (result ≡ send_slot epoch) × (result < send_slots) }
{
    let handshake = epoch == 2;
    if handshake {
        return 0;
    }
    1
}

// `send_calls::key_send`, with no mask key.
pub fn key_send(
    w: &mut [u64; send_words::WORDS],
    k: &mut [u8; SEND],
    epoch: u16,
    iv: &[u8; 12],
) -> Result<(), SendError>
    ensures { KeySendCall (refusal result) w.new w.old k.new k.old epoch iv.now }
{
    send_calls::key_send(w, epoch, iv)?;
    mask_keys::empty(k, send_slot(epoch));
    Ok(())
}

// The number of an answer where a mask key is given; 0 where the epoch is keyed.
pub fn masked_number<E: Into<u8>>(a: Result<(), MaskedKeyError<E>>) -> u8
    ensures { IsMaskedNumber E.converts a result }
{
    match a {
        Ok(()) => 0,
        Err(MaskedKeyError::Refused(e)) => e.into(),
        Err(MaskedKeyError::BadMaskKey) => 27,
    }
}

// Why an epoch cannot be keyed to send with a mask key of another length.
fn bad_send_length(w: &[u64; send_words::WORDS], epoch: u16) -> MaskedKeyError<SendError>
    ensures { (iv : List ℕ) → masked_number sendAnswers.number_of (Err result) ≡ choose (sendWords.is_flat w.now) (length_as (refusal (keying_state (sendWords.state_of w.now) epoch iv).answer)) 12 }
{
    if send_words::is_flat(w) {
        return match send_key_steps::key_answer(w, epoch) {
            Ok(()) => MaskedKeyError::BadMaskKey,
            Err(e) => match e {
                SendError::OutOfRange | SendError::BadEpoch => MaskedKeyError::Refused(e),
                _ => MaskedKeyError::BadMaskKey,
            },
        };
    }
    MaskedKeyError::Refused(SendError::OutOfRange)
}

// `send_calls::key_send`, with a mask key.
pub fn key_send_masked(
    w: &mut [u64; send_words::WORDS],
    k: &mut [u8; SEND],
    epoch: u16,
    iv: &[u8; 12],
    key: &[u8],
) -> Result<(), MaskedKeyError<SendError>>
    ensures { KeySendMaskedCall (masked_number sendAnswers.number_of result) w.new w.old k.new k.old epoch iv.now key.now }
{
    if key.len() == KEY {
        send_calls::key_send(w, epoch, iv)?;
        mask_keys::fill(k, send_slot(epoch), key);
        return Ok(());
    }
    Err(bad_send_length(w, epoch))
}

// The mask of the sealing that is asked: the key's where its epoch has one, else what the reply brings.
fn asked_mask(
    w: &[u64; send_words::WORDS],
    k: &[u8; SEND],
    mask_0: u8,
    mask_1: u8,
    queue: &[u8],
) -> [u8; 2]
    ensures { sendWords.is_flat w.now ≡ true → result ≡ seal_mask w.now k.now queue.now mask_0 mask_1 }
{
    let q = send_calls::sealing(w);
    if q.kind == SEAL {
        let i = send_slot(q.epoch);
        if mask_keys::has_key(k, i) {
            return mask_keys::mask_at(k, i, queue, q.start);
        }
        return [mask_0, mask_1];
    }
    [mask_0, mask_1]
}

// The same; with no key in either slot the question is not looked at.
fn seal_mask(
    w: &[u64; send_words::WORDS],
    k: &[u8; SEND],
    mask_0: u8,
    mask_1: u8,
    queue: &[u8],
) -> [u8; 2]
    ensures { sendWords.is_flat w.now ≡ true → result ≡ seal_mask w.now k.now queue.now mask_0 mask_1 }
{
    if mask_keys::has_key(k, 0) {
        return asked_mask(w, k, mask_0, mask_1, queue);
    }
    if mask_keys::has_key(k, 1) {
        return asked_mask(w, k, mask_0, mask_1, queue);
    }
    [mask_0, mask_1]
}

// `send_calls::sealed`, the mask made here where its epoch has a mask key.
pub fn sealed(
    w: &mut [u64; send_words::WORDS],
    k: &[u8; SEND],
    length: usize,
    mask_0: u8,
    mask_1: u8,
    queue: &mut [u8],
) -> Result<(), SealError>
    ensures { SealedCall (sealings.refusal result) w.new w.old k.now length mask_0 mask_1 queue.new queue.old }
{
    let m = seal_mask(w, k, mask_0, mask_1, queue);
    send_calls::sealed(w, length, m[0], m[1], queue)
}
