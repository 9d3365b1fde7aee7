// The receive side of a link as a host calls it. The state is words that the host keeps and lends; a call changes them in place and
// copies none of them. Whatever stands in them, a call ends with an answer.
#![tactic(auto)]

ghost use Rattle.std.specs.Prelude.{◌≡◌, ◌<◌, length, true, Some};
ghost use Rattle.incoming.specs.Inner.{holding};
ghost use Rattle.mask_reply.specs.Mask.{judged, masked_at, masked_by, mask_step};
ghost use Rattle.opening_reply.specs.Opening.{typed, opened_at, opened_by, opened_step};
ghost use Rattle.recv_keys.specs.Keys.{most_epochs, entry_at, find};
ghost use Rattle.recv_words.specs.Words.{entries_of, keys_of, ask_of, ask_number, datagram_of, is_flat};
ghost use Rattle.recv_words.specs.Laws.{Lies, skipped, opening};
ghost use Rattle.records.specs.Records.{read_step};
ghost use Rattle.recv_steps.specs.Goes.{Goes};
ghost use Rattle.recv_calls.specs.Replies.{MaskWaits, OpeningWaits, Fits, laid, asked_at, Marked-as};
ghost use Rattle.recv_calls.specs.Flat.{number_of, reason_of, bare, shown, asked, flat_reading, opening_of};
ghost use Rattle.recv_calls.specs.Removed.{removed_told};
ghost use Rattle.recv_calls.specs.Calls.{
  Stepped,
  FreshCall,
  KeyReceiveCall,
  RemoveReceiveCall,
  EnablePeerEncryptionCall,
  ReleaseApplicationDataCall,
  BeginCall,
  ReadCall,
  BeginReadCall,
  MaskCall,
  OpenedCall,
};

use answers::HuskTold;
use datagram::{Datagram, Question, Reading, Reason, Step};
use incoming::Inner;
use receiving::{Done, Refusal};
use record::TAG_LEN;
use recv_keys::MOST_LEAST;
use recv_words::{
    ASK_EPOCH, ASK_FLAG, ASK_NUMBER, COUNT, CURSOR, IV_BACK, IV_FRONT, QUESTION, READINGS, SIZE,
    WORDS,
};
use window::Verdict;

// What a call says of the record at the cursor, by kind:
//   0 refused by 1, 12 or 15, and nothing has changed;
//   1 the datagram ends, without a fault or by 2 or 3;
//   2 a record is dropped by 4 to 11 or 26;
//   3 a plaintext record: type, number, and where its content is;
//   4 a sealed record, unopened: epoch bits in place of the epoch, number, and where its protected part is;
//   5 an opened record: epoch, number, type, and where its content is;
//   6 the mask is asked for: epoch, and where the 16 bytes are;
//   7 the opening is asked for: epoch, number, nonce, where the record starts, how long its header and its protected part are.
// Fields that a kind does not use are zeros. The C interface has numbers.
#[repr(C)]
#[derive(Clone, Copy)]
pub struct HuskReading {
    pub kind: u8,
    pub refusal: u8,
    pub content_type: u8,
    pub epoch: u16,
    pub number: u64,
    pub start: usize,
    pub header_len: usize,
    pub length: usize,
    pub nonce: [u8; 12],
}

// ---- answers

// What removing an epoch tells: 1 where a record is dropped with it, which is no refusal. The C interface has numbers.
fn removed_told(a: Result<Done, Refusal>) -> HuskTold
    ensures { result ≡ removed_told a }
{
    match a {
        Ok(Done::Asked) => answers::told(0, 0),
        Ok(Done::Dropped) => answers::told(0, 1),
        Err(r) => answers::told(u8::from(r), 0),
    }
}

fn reason_of(r: Reason) -> u8
    ensures { result ≡ reason_of r }
{
    match r {
        Reason::Invalid => 4,
        Reason::EarlyBits => 5,
        Reason::NoKeys => 6,
        Reason::TooShort => 7,
        Reason::TooHigh => 8,
        Reason::Seen => 9,
        Reason::TooOld => 26,
        Reason::NotOpened => 10,
        Reason::NoContentType => 11,
    }
}

fn told(kind: u8, refusal: u8) -> HuskReading
    ensures { result ≡ bare kind refusal }
{
    HuskReading {
        kind: kind,
        refusal: refusal,
        content_type: 0,
        epoch: 0,
        number: 0,
        start: 0,
        header_len: 0,
        length: 0,
        nonce: [0u8; 12],
    }
}

// A reading with its place; no refusal.
fn shown(
    kind: u8,
    content_type: u8,
    epoch: u16,
    number: u64,
    start: usize,
    length: usize,
) -> HuskReading
    ensures { result ≡ shown kind content_type epoch number start length }
{
    HuskReading {
        kind: kind,
        refusal: 0,
        content_type: content_type,
        epoch: epoch,
        number: number,
        start: start,
        header_len: 0,
        length: length,
        nonce: [0u8; 12],
    }
}

// An opening asked for: with its header and its nonce.
fn asked(
    epoch: u16,
    number: u64,
    start: usize,
    header_len: usize,
    length: usize,
    nonce: [u8; 12],
) -> HuskReading
    ensures { result ≡ asked epoch number start header_len length nonce }
{
    HuskReading {
        kind: 7,
        refusal: 0,
        content_type: 0,
        epoch: epoch,
        number: number,
        start: start,
        header_len: header_len,
        length: length,
        nonce: nonce,
    }
}

fn flat_reading(r: Reading, nonce: [u8; 12]) -> HuskReading
    ensures { result ≡ flat_reading r nonce }
{
    match r {
        Reading::Setting => told(0, 12),
        Reading::Reply => told(0, 15),
        Reading::End => told(1, 0),
        Reading::Incomplete => told(1, 2),
        Reading::TooMany => told(1, 3),
        Reading::Dropped(why) => told(2, reason_of(why)),
        Reading::Plaintext {
            content_type,
            number,
            start,
            length,
        } => shown(3, content_type, 0, number, start, length),
        Reading::Unopened {
            epoch_bits,
            number,
            start,
            length,
        } => shown(4, 0, epoch_bits as u16, number, start, length),
        Reading::Opened {
            epoch,
            number,
            content_type,
            start,
            length,
        } => shown(5, content_type, epoch, number, start, length),
        Reading::Mask { epoch, start } => shown(6, 0, epoch, 0, start, 16),
        Reading::Opening {
            epoch,
            number,
            start,
            header_len,
            length,
        } => asked(epoch, number, start, header_len, length, nonce),
    }
}

// A step written, and what it says.
fn settle(w: &mut [u64; WORDS], t: Step) -> HuskReading
    requires { is_flat w.old ≡ true }
    ensures { Stepped result w.new w.old t }
{
    let b = t.datagram;
    let r = t.reading;
    let nonce = t.nonce;
    recv_words::put_datagram(w, b);
    flat_reading(r, nonce)
}

// ---- the calls

// A receive side with nothing keyed and no datagram begun, whatever stood in the words. A protected part has at least min_protected
// bytes, 0 to 17.
pub fn fresh(w: &mut [u64; WORDS], min_protected: usize) -> Result<(), Refusal>
    ensures { FreshCall (number_of result) w.new min_protected }
{
    recv_words::put_fresh(w, min_protected);
    if MOST_LEAST < min_protected as u64 {
        return Err(Refusal::Setting);
    }
    Ok(())
}

// Keys an epoch to receive, with its IV.
pub fn key_receive(w: &mut [u64; WORDS], epoch: u16, iv: &[u8; 12]) -> Result<(), Refusal>
    ensures { KeyReceiveCall (number_of result) w.new w.old epoch iv.now }
{
    if !recv_words::is_flat(w) {
        return Err(Refusal::Setting);
    }
    recv_key_steps::key(w, epoch, *iv)?;
    Ok(())
}

// Removes a receive epoch, and the question under it. Told is 1 where a record is dropped with it.
pub fn remove_receive(w: &mut [u64; WORDS], epoch: u16) -> HuskTold
    ensures { RemoveReceiveCall result w.new w.old epoch }
{
    if recv_words::is_flat(w) {
        return removed_told(recv_key_steps::remove(w, epoch));
    }
    answers::told(12, 0)
}

// Peer encryption on, from the next record read.
pub fn enable_peer_encryption(w: &mut [u64; WORDS]) -> Result<(), Refusal>
    ensures { EnablePeerEncryptionCall (number_of result) w.new w.old }
{
    if !recv_words::is_flat(w) {
        return Err(Refusal::Setting);
    }
    recv_key_steps::encrypt(w)?;
    Ok(())
}

// Application data released.
pub fn release_application_data(w: &mut [u64; WORDS]) -> Result<(), Refusal>
    ensures { ReleaseApplicationDataCall (number_of result) w.new w.old }
{
    if !recv_words::is_flat(w) {
        return Err(Refusal::Setting);
    }
    recv_key_steps::release(w)?;
    Ok(())
}

// Begins a datagram of n bytes; a question that waits is cancelled.
pub fn begin(w: &mut [u64; WORDS], n: usize) -> Result<(), Refusal>
    ensures { BeginCall (number_of result) w.new w.old n }
{
    if !recv_words::is_flat(w) {
        return Err(Refusal::Setting);
    }
    recv_key_steps::begin(w, n)?;
    Ok(())
}

// The record at the cursor of a datagram, where no question waits.
fn read_on(w: &mut [u64; WORDS], b: Datagram, d: &[u8]) -> HuskReading
    requires { (is_flat w.old ≡ true) × Goes (keys_of w.old) b (length d.now) }
    ensures { Stepped result w.new w.old (read_step (keys_of w.old) b d.now) }
{
    let t = recv_steps::go_on(w, b, d);
    settle(w, t)
}

// Begins a datagram and reads its first record, in one call. A refused beginning is told by its number, 1 or 12.
pub fn begin_read(w: &mut [u64; WORDS], d: &[u8]) -> HuskReading
    ensures { BeginReadCall result w.new w.old d.now }
{
    if recv_words::is_flat(w) {
        let b = recv_words::datagram_of(w);
        if recv_words::is_sound(w, b) {
            if 16384 < d.len() {
                return told(0, 1);
            }
            let first = Datagram {
                size: d.len(),
                at: 0,
                readings: 0,
                question: Question::Nothing,
            };
            return read_on(w, first, d);
        }
        return told(0, 12);
    }
    told(0, 12)
}

// One record of the datagram begun, or the question that waits again.
pub fn read(w: &mut [u64; WORDS], d: &[u8]) -> HuskReading
    ensures { ReadCall result w.new w.old d.now }
{
    if recv_words::is_flat(w) {
        let b = recv_words::datagram_of(w);
        if recv_steps::goes_on(w, b, d.len()) {
            return read_on(w, b, d);
        }
        let t = recv_steps::wait_step(w, b, d);
        return settle(w, t);
    }
    told(0, 12)
}

// ---- the reply to a mask question

// What the reply to a mask question says: the nonce in two words, the number still to be XORed onto the second.
#[derive(Clone, Copy)]
pub struct Reply {
    pub kind: u8,
    pub refusal: u8,
    pub epoch: u16,
    pub number: u64,
    pub start: usize,
    pub header_len: usize,
    pub length: usize,
    pub front: u64,
    pub back: u64,
}

fn no_reply(kind: u8, refusal: u8) -> Reply
    ensures { laid result ≡ bare kind refusal }
{
    Reply {
        kind: kind,
        refusal: refusal,
        epoch: 0,
        number: 0,
        start: 0,
        header_len: 0,
        length: 0,
        front: 0,
        back: 0,
    }
}

// The opening of the record at the cursor is asked for, under the entry at i.
fn open_question(w: &[u64; WORDS], i: usize, number: u64) -> Reply
    requires { i < most_epochs }
    ensures { laid result ≡ asked_at w.now i number }
{
    let front = IV_FRONT + i;
    let back = IV_BACK + i;
    let a = recv_words::ask_of(w);
    Reply {
        kind: 7,
        refusal: 0,
        epoch: a.epoch,
        number: number,
        start: w[CURSOR] as usize,
        header_len: a.header_len,
        length: a.length,
        front: w[front],
        back: w[back],
    }
}

// The nonce is made here alone, whatever the reply says: made on one way among others, the compiler would carry each of its bytes.
fn lay(r: Reply) -> HuskReading
    ensures { result ≡ laid r }
{
    let iv = words::iv_of(r.front, r.back);
    HuskReading {
        kind: r.kind,
        refusal: r.refusal,
        content_type: 0,
        epoch: r.epoch,
        number: r.number,
        start: r.start,
        header_len: r.header_len,
        length: r.length,
        nonce: dtls_aead::nonce_xor(iv, r.number),
    }
}

// The record at the cursor is dropped.
fn leave(w: &mut [u64; WORDS], refusal: u8) -> Reply
    requires { Fits w.old }
    ensures { (laid result ≡ bare 2 refusal) × Lies (skipped w.old) w.old w.new }
{
    recv_words::skip(w);
    no_reply(2, refusal)
}

// Its opening is asked for, and the question waits.
fn ask(w: &mut [u64; WORDS], i: usize, number: u64) -> Reply
    requires { i < most_epochs }
    ensures { (laid result ≡ asked_at w.old i number) × Lies (opening w.old number) w.old w.new }
{
    let r = open_question(w, i, number);
    recv_words::ask_opening(w, number);
    r
}

// The number, tested between mask and opening.
fn judge(w: &mut [u64; WORDS], i: usize, number: u64) -> Reply
    requires { (i < most_epochs) × (is_flat w.old ≡ true) × Fits w.old }
    ensures { Stepped (laid result) w.new w.old (judged (entry_at (keys_of w.old) i) (datagram_of w.old) (ask_of w.old) number) }
{
    if 0xFFFF_FFFF_FFFF < number {
        return leave(w, 8);
    }
    let v = recv_words::window_at(w, i);
    match v.check(number) {
        Verdict::Fresh => ask(w, i, number),
        Verdict::Seen => leave(w, 9),
        Verdict::TooOld => leave(w, 26),
    }
}

// The mask of a record of the entry at i.
fn mask_at(w: &mut [u64; WORDS], i: usize, mask: [u8; 2], d: &mut [u8]) -> Reply
    requires { MaskWaits w.old × (i < (keys_of w.old).count) × (length d.old ≡ (datagram_of w.old).size) }
    ensures { Stepped (laid result) w.new w.old (masked_at (entry_at (keys_of w.old) i) (datagram_of w.old) (ask_of w.old) mask d.old).0 × (d.new ≡ (masked_at (entry_at (keys_of w.old) i) (datagram_of w.old) (ask_of w.old) mask d.old).1) }
{
    let at = w[CURSOR] as usize;
    let s_flag = w[ASK_FLAG] == 1;
    let v = recv_words::window_at(w, i);
    let number = mask_reply::number_at(v, at, s_flag, mask, d);
    judge(w, i, number)
}

fn mask_by(w: &mut [u64; WORDS], mask: [u8; 2], d: &mut [u8]) -> Reply
    requires { MaskWaits w.old × (length d.old ≡ (datagram_of w.old).size) }
    ensures { Stepped (laid result) w.new w.old (masked_by (find (entries_of w.old) (ask_of w.old).epoch (keys_of w.old).count) (keys_of w.old) (datagram_of w.old) (ask_of w.old) mask d.old).0 × (d.new ≡ (masked_by (find (entries_of w.old) (ask_of w.old).epoch (keys_of w.old).count) (keys_of w.old) (datagram_of w.old) (ask_of w.old) mask d.old).1) }
{
    let count = w[COUNT] as usize;
    let epoch = words::low(w[ASK_EPOCH]);
    let f = recv_words::find_epoch(w, count, epoch);
    match f {
        None => no_reply(0, 12),
        Some(i) => mask_at(w, i, mask, d),
    }
}

fn mask_step(w: &mut [u64; WORDS], mask: [u8; 2], d: &mut [u8]) -> Reply
    requires { is_flat w.old ≡ true }
    ensures { Stepped (laid result) w.new w.old (mask_step (keys_of w.old) (datagram_of w.old) mask d.old).0 × (d.new ≡ (mask_step (keys_of w.old) (datagram_of w.old) mask d.old).1) }
{
    if recv_words::words_sound(w) {
        if d.len() == w[SIZE] as usize {
            if w[QUESTION] == 1 {
                return mask_by(w, mask, d);
            }
            return no_reply(0, 15);
        }
        return no_reply(0, 15);
    }
    no_reply(0, 12)
}

fn reply_mask(w: &mut [u64; WORDS], mask_0: u8, mask_1: u8, d: &mut [u8]) -> Reply
    ensures { MaskCall (laid result) w.new w.old mask_0 mask_1 d.new d.old }
{
    if recv_words::is_flat(w) {
        return mask_step(w, [mask_0, mask_1], d);
    }
    no_reply(0, 12)
}

// The mask that was asked for; the number bytes are unmasked in the datagram.
pub fn mask(w: &mut [u64; WORDS], mask_0: u8, mask_1: u8, d: &mut [u8]) -> HuskReading
    ensures { MaskCall result w.new w.old mask_0 mask_1 d.new d.old }
{
    lay(reply_mask(w, mask_0, mask_1, d))
}

// ---- the reply to an opening question

// An opened record is a reading, or one too many.
fn count(w: &mut [u64; WORDS], content_type: u8, length: usize) -> HuskReading
    requires { (is_flat w.old ≡ true) × Fits w.old }
    ensures { Stepped result w.new w.old (typed (datagram_of w.old) (ask_of w.old) (ask_number w.old) (holding content_type length)) }
{
    let n = w[READINGS] as usize;
    if 16 <= n {
        let size = w[SIZE] as usize;
        recv_words::move_to(w, size, n);
        return told(1, 3);
    }
    let a = recv_words::ask_of(w);
    let number = w[ASK_NUMBER];
    let start = w[CURSOR] as usize + a.header_len;
    recv_words::move_to(w, start + a.length, n + 1);
    shown(5, content_type, a.epoch, number, start, length)
}

// What an opened record holds.
fn type_step(w: &mut [u64; WORDS], inner: Option<Inner>) -> HuskReading
    requires { (is_flat w.old ≡ true) × Fits w.old }
    ensures { Stepped result w.new w.old (typed (datagram_of w.old) (ask_of w.old) (ask_number w.old) inner) }
{
    match inner {
        None => {
            recv_words::skip(w);
            told(2, 11)
        }
        Some(i) => count(w, i.content_type, i.length),
    }
}

// Yes: the number is marked.
fn open_yes(w: &mut [u64; WORDS], i: usize, length: usize, d: &[u8]) -> HuskReading
    requires { OpeningWaits w.old × (i < most_epochs) }
    ensures { Marked-as result w.new (opened_at i (Some length) (keys_of w.old) (datagram_of w.old) (ask_of w.old) (ask_number w.old) d.now) }
{
    let a = recv_words::ask_of(w);
    if length == a.length - TAG_LEN {
        let start = w[CURSOR] as usize + a.header_len;
        let number = w[ASK_NUMBER];
        recv_words::mark(w, i, number);
        let inner = incoming::recover_inner_content_type(base::fragment(d, start, length));
        return type_step(w, inner);
    }
    told(0, 15)
}

fn open_at(w: &mut [u64; WORDS], i: usize, opened: u8, length: usize, d: &[u8]) -> HuskReading
    requires { OpeningWaits w.old × (i < most_epochs) }
    ensures { Marked-as result w.new (opened_at i (opening_of opened length) (keys_of w.old) (datagram_of w.old) (ask_of w.old) (ask_number w.old) d.now) }
{
    if opened == 1 {
        return open_yes(w, i, length, d);
    }
    recv_words::skip(w);
    told(2, 10)
}

fn open_by(w: &mut [u64; WORDS], opened: u8, length: usize, d: &[u8]) -> HuskReading
    requires { OpeningWaits w.old }
    ensures { Marked-as result w.new (opened_by (find (entries_of w.old) (ask_of w.old).epoch (keys_of w.old).count) (opening_of opened length) (keys_of w.old) (datagram_of w.old) (ask_of w.old) (ask_number w.old) d.now) }
{
    let count = w[COUNT] as usize;
    let epoch = words::low(w[ASK_EPOCH]);
    let f = recv_words::find_epoch(w, count, epoch);
    match f {
        None => told(0, 12),
        Some(i) => open_at(w, i, opened, length, d),
    }
}

fn opened_step(w: &mut [u64; WORDS], opened: u8, length: usize, d: &[u8]) -> HuskReading
    requires { is_flat w.old ≡ true }
    ensures { Marked-as result w.new (opened_step (keys_of w.old) (datagram_of w.old) (opening_of opened length) d.now) }
{
    if recv_words::words_sound(w) {
        if d.len() == w[SIZE] as usize {
            if w[QUESTION] == 2 {
                return open_by(w, opened, length, d);
            }
            return told(0, 15);
        }
        return told(0, 15);
    }
    told(0, 12)
}

// Whether the record was opened, 0 or 1; its plaintext, of so many bytes, then stands at the start of the protected part.
pub fn opened(w: &mut [u64; WORDS], opened: u8, length: usize, d: &[u8]) -> HuskReading
    ensures { OpenedCall result w.new w.old opened length d.now }
{
    let wrong = 1 < opened;
    if wrong {
        return told(0, 12);
    }
    if recv_words::is_flat(w) {
        return opened_step(w, opened, length, d);
    }
    told(0, 12)
}
