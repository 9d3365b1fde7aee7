// What is done with each reading, as a host calls it. Beside the words of the receiving side the host lends nine: the reading that waits to be dealt
// with, and the remembered close. The calls that read note the reading there; `classify` deals with it, once. Whatever stands in the words, a call ends
// with an answer.
#![tactic(auto)]

ghost use Rattle.std.specs.Prelude.{List, ◌≡◌, true, ℕ, leb};
ghost use Rattle.base.specs.Choose.{both};
ghost use Rattle.recv_words.specs.Words.{is_flat};
ghost use Rattle.recv_key_steps.specs.Kept.{state_of};
ghost use Rattle.recv_calls.specs.Flat.{number_of};
ghost use Rattle.classify.specs.declared.Class.TheVariants as class;
ghost use Rattle.classify.specs.Classify.{plaintext-kind, opened-kind, is_inside, is_sound, cleared, closing, is_after, is_beyond, is_guarded, alert_as, by_type, class_of, classified, finished};
ghost use Rattle.classify_calls.specs.Calls.{
  noted_by,
  in_range,
  heeded,
  told,
  shown,
  acted_on,
  FreshCall,
  BeginCall,
  ReadCall,
  BeginReadCall,
  OpenedCall,
  Dealt,
  ClassifyCall,
};

use ack_calls::HuskAcked;
use classify::Class;
use receiving::Refusal;
use recv_calls::HuskReading;
use recv_words::{ENCRYPTED, QUESTION, READINGS, SIZE, WORDS};

// ---- which word is which

pub const PENDING: usize = 9;
// The reading that waits: its kind, type, epoch or epoch bits, number, and where its content is.
pub const KIND: usize = 0;

pub const TYPE: usize = 1;

pub const EPOCH: usize = 2;

pub const NUMBER: usize = 3;

pub const START: usize = 4;

pub const LENGTH: usize = 5;
// Whether a close is remembered, and its place.
pub const CLOSED: usize = 6;

pub const CLOSE_EPOCH: usize = 7;

pub const CLOSE_NUMBER: usize = 8;

// Kinds of a reading as the calls that read tell them; 0 where none waits.
const NONE: u64 = 0;

const PLAINTEXT: u64 = 3;

const UNOPENED: u64 = 4;

const OPENED: u64 = 5;

// Content types (RFC 9147, section 4) and alert descriptions (RFC 8446, section 6).
const CHANGE_CIPHER_SPEC: u64 = 20;

const ALERT: u64 = 21;

const HANDSHAKE: u64 = 22;

const APPLICATION_DATA: u64 = 23;

const ACK: u64 = 26;

const CLOSE_NOTIFY: u8 = 0;

const USER_CANCELED: u8 = 90;

// What `classify` says of the reading that waits, by kind:
//   0 refused by 12 or 15, and nothing has changed;
//   1 no reading waits;
//   2 dropped, beyond the close;
//   3 dropped, in plaintext once the peer encrypts;
//   4 ignored;
//   5 an ACK acted on: marked, unacknowledged and saved are those of HuskAcked;
//   6 the first close;
//   7 an alert told: its description, and the datagram is over;
//   8 handshake;
//   9 application data;
//   10 another type;
//   11 unopened.
// Start and length are where its content is, 0 for kinds 0 and 1. Fields that a kind does not use are zeros. The C interface has numbers.
#[repr(C)]
#[derive(Clone, Copy)]
pub struct HuskClass {
    pub kind: u8,
    pub refusal: u8,
    pub description: u8,
    pub marked: u8,
    pub unacknowledged: u8,
    pub saved: u8,
    pub start: usize,
    pub length: usize,
}

// ---- answers

// A kind that has only a refusal, or 0.
fn told(kind: u8, refusal: u8) -> HuskClass
    ensures { result ≡ told kind refusal }
{
    HuskClass {
        kind: kind,
        refusal: refusal,
        description: 0,
        marked: 0,
        unacknowledged: 0,
        saved: 0,
        start: 0,
        length: 0,
    }
}

// The reading that waits, with its place.
fn shown(x: &[u64; PENDING], kind: u8, description: u8) -> HuskClass
    ensures { result ≡ shown kind description x.now }
{
    HuskClass {
        kind: kind,
        refusal: 0,
        description: description,
        marked: 0,
        unacknowledged: 0,
        saved: 0,
        start: x[START] as usize,
        length: x[LENGTH] as usize,
    }
}

// An ACK, and what it did.
fn acted_on(x: &[u64; PENDING], a: HuskAcked) -> HuskClass
    ensures { result ≡ acted_on x.now a }
{
    HuskClass {
        kind: 5,
        refusal: 0,
        description: 0,
        marked: a.marked,
        unacknowledged: a.unacknowledged,
        saved: a.saved,
        start: x[START] as usize,
        length: x[LENGTH] as usize,
    }
}

// ---- ranges

// A kind of reading that brings content, or an unopened record.
fn is_content(kind: u64) -> bool
    ensures { result ≡ both (leb plaintext-kind kind) (leb kind opened-kind) }
{
    if kind < PLAINTEXT {
        return false;
    }
    kind <= OPENED
}

// The content of the reading lies within n bytes.
fn is_inside(x: &[u64; PENDING], n: u64) -> bool
    ensures { result ≡ is_inside n x.now }
{
    let start = x[START];
    if n < start {
        return false;
    }
    x[LENGTH] <= n - start
}

// The reading is of a kind that there is and lies within the datagram of n bytes, or none waits, and the flag of the close is 0 or 1.
fn is_sound(x: &[u64; PENDING], n: u64) -> bool
    ensures { result ≡ is_sound n x.now }
{
    if x[KIND] == NONE {
        return x[CLOSED] <= 1;
    }
    if is_content(x[KIND]) {
        if is_inside(x, n) {
            return x[CLOSED] <= 1;
        }
        return false;
    }
    false
}

// ---- the tests

// By epoch, then by number, the place f m is beyond e n.
fn is_after(e: u64, n: u64, f: u64, m: u64) -> bool
    ensures { result ≡ is_after e n f m }
{
    if e == f {
        return n < m;
    }
    e < f
}

// The place of the reading is beyond the close.
fn is_beyond(x: &[u64; PENDING]) -> bool
    ensures { result ≡ is_beyond x.now }
{
    if x[CLOSED] == 1 {
        return is_after(x[CLOSE_EPOCH], x[CLOSE_NUMBER], x[EPOCH], x[NUMBER]);
    }
    false
}

// Types that are dropped in plaintext once the peer encrypts.
fn is_guarded(t: u64) -> bool
    ensures { result ≡ is_guarded t }
{
    if t == ALERT {
        return true;
    }
    if t == HANDSHAKE {
        return true;
    }
    t == ACK
}

// A guarded type in plaintext, once the peer encrypts.
fn is_unprotected(plain: bool, encrypted: bool, t: u64) -> bool
    ensures { result ≡ both plain (both encrypted (is_guarded t)) }
{
    if plain {
        if encrypted {
            return is_guarded(t);
        }
        return false;
    }
    false
}

// An alert with content c, where a close is remembered or is not.
fn alert_class(closed: bool, c: &[u8]) -> Class
    ensures { result ≡ alert_as closed c.now }
{
    if c.len() < 2 {
        return Class::Ignored;
    }
    let description = c[1];
    if description == CLOSE_NOTIFY {
        if closed {
            return Class::Ignored;
        }
        return Class::Close;
    }
    let cancels = description == USER_CANCELED;
    if cancels {
        return Class::Ignored;
    }
    Class::Alert {
        description: description,
    }
}

// By type; an ACK in plaintext marks nothing.
fn type_class(plain: bool, closed: bool, t: u64, c: &[u8]) -> Class
    ensures { result ≡ by_type plain closed t c.now }
{
    if t == ACK {
        if plain {
            return Class::Ignored;
        }
        return Class::Ack;
    }
    if t == ALERT {
        return alert_class(closed, c);
    }
    if t == HANDSHAKE {
        return Class::Handshake;
    }
    if t == APPLICATION_DATA {
        return Class::ApplicationData;
    }
    if t == CHANGE_CIPHER_SPEC {
        return Class::Ignored;
    }
    Class::Other
}

// The reading that waits, with content c, peer encryption on or off.
fn class_of(x: &[u64; PENDING], encrypted: bool, c: &[u8]) -> Class
    ensures { result ≡ class_of x.now encrypted c.now }
{
    if is_beyond(x) {
        return Class::Beyond;
    }
    let plain = x[KIND] == PLAINTEXT;
    if is_unprotected(plain, encrypted, x[TYPE]) {
        return Class::Unprotected;
    }
    if x[KIND] == UNOPENED {
        return Class::Unopened;
    }
    type_class(plain, x[CLOSED] == 1, x[TYPE], c)
}

// The same of the words, with their ranges tested, and the length of the datagram.
fn class_at(w: &[u64; WORDS], x: &[u64; PENDING], d: &[u8]) -> Class
    ensures { result ≡ classified x.now (state_of w.now) d.now }
{
    if recv_words::words_sound(w) {
        if is_sound(x, w[SIZE]) {
            if d.len() as u64 == w[SIZE] {
                if x[KIND] == NONE {
                    return Class::Nothing;
                }
                let start = x[START] as usize;
                let length = x[LENGTH] as usize;
                return class_of(x, w[ENCRYPTED] == 1, base::fragment(d, start, length));
            }
            return Class::Reply;
        }
        return Class::Setting;
    }
    Class::Setting
}

// ---- what is left behind

// No reading waits; the close stays.
fn clear(x: &mut [u64; PENDING])
    ensures { x.new ≡ cleared x.old }
{
    x[KIND] = NONE;
}

// The reading is told by its kind, and its description where it is an alert, and waits no more.
fn leave(x: &mut [u64; PENDING], kind: u8, description: u8) -> HuskClass
    ensures { (result ≡ shown kind description x.old) × (x.new ≡ cleared x.old) }
{
    let r = shown(x, kind, description);
    clear(x);
    r
}

// The reading is the first close: its place is remembered.
fn remember(x: &mut [u64; PENDING]) -> HuskClass
    ensures { (result ≡ shown 6 0 x.old) × (x.new ≡ closing x.old) }
{
    let r = shown(x, 6, 0);
    let epoch = x[EPOCH];
    let number = x[NUMBER];
    x[CLOSED] = 1;
    x[CLOSE_EPOCH] = epoch;
    x[CLOSE_NUMBER] = number;
    clear(x);
    r
}

// The datagram is over: the cursor at its end, unless a question waits.
fn finish(w: &mut [u64; WORDS])
    requires { is_flat w.old ≡ true }
    ensures { (state_of w.new ≡ finished (state_of w.old)) × (is_flat w.new ≡ is_flat w.old) }
{
    if w[QUESTION] != 0 {
        return;
    }
    let size = w[SIZE] as usize;
    let readings = w[READINGS] as usize;
    recv_words::move_to(w, size, readings);
}

// Acts on the ACK that waits; refused over a flight out of its range, and then nothing changes.
fn act(
    x: &mut [u64; PENDING],
    f: &mut [u64; flight_words::WORDS],
    numbers: &mut [u64; 384],
    d: &[u8],
) -> HuskClass
    ensures { (w : List ℕ) → Dealt result w w x.new x.old f.new f.old numbers.new numbers.old d.now (heeded class.Ack (in_range f.old)) }
{
    let start = x[START] as usize;
    let length = x[LENGTH] as usize;
    let a = ack_calls::process_ack(f, numbers, base::fragment(d, start, length));
    if a.refusal == 0 {
        let r = acted_on(x, a);
        clear(x);
        return r;
    }
    told(0, 12)
}

// Deals with a reading of this class.
fn deal(
    w: &mut [u64; WORDS],
    x: &mut [u64; PENDING],
    f: &mut [u64; flight_words::WORDS],
    numbers: &mut [u64; 384],
    d: &[u8],
    k: Class,
) -> HuskClass
    requires { is_flat w.old ≡ true }
    ensures { Dealt result w.new w.old x.new x.old f.new f.old numbers.new numbers.old d.now (heeded k (in_range f.old)) }
{
    match k {
        Class::Setting => told(0, 12),
        Class::Reply => told(0, 15),
        Class::Nothing => told(1, 0),
        Class::Beyond => leave(x, 2, 0),
        Class::Unprotected => leave(x, 3, 0),
        Class::Ignored => leave(x, 4, 0),
        Class::Ack => act(x, f, numbers, d),
        Class::Close => remember(x),
        Class::Alert { description } => {
            finish(w);
            leave(x, 7, description)
        }
        Class::Handshake => leave(x, 8, 0),
        Class::ApplicationData => leave(x, 9, 0),
        Class::Other => leave(x, 10, 0),
        Class::Unopened => leave(x, 11, 0),
    }
}

// What a call that reads has told is noted: content and an unopened record wait; another answer leaves none waiting, and a refusal changes nothing.
fn note(x: &mut [u64; PENDING], r: HuskReading)
    ensures { x.new ≡ noted_by r x.old }
{
    let kind = u64::from(r.kind);
    if kind == 0 {
        return;
    }
    if is_content(kind) {
        x[KIND] = kind;
        x[TYPE] = u64::from(r.content_type);
        x[EPOCH] = u64::from(r.epoch);
        x[NUMBER] = r.number;
        x[START] = r.start as u64;
        x[LENGTH] = r.length as u64;
        return;
    }
    clear(x);
}

// ---- the calls

// `recv_calls::fresh`; no reading waits and no close is remembered, whatever stood in the words.
pub fn fresh(
    w: &mut [u64; WORDS],
    x: &mut [u64; PENDING],
    min_protected: usize,
) -> Result<(), Refusal>
    ensures { FreshCall (number_of result) w.new x.new min_protected }
{
    *x = [0u64; PENDING];
    recv_calls::fresh(w, min_protected)
}

// `recv_calls::begin`; with a datagram begun no reading waits.
pub fn begin(w: &mut [u64; WORDS], x: &mut [u64; PENDING], n: usize) -> Result<(), Refusal>
    ensures { BeginCall (number_of result) w.new w.old x.new x.old n }
{
    recv_calls::begin(w, n)?;
    clear(x);
    Ok(())
}

// `recv_calls::read`, noted.
pub fn read(w: &mut [u64; WORDS], x: &mut [u64; PENDING], d: &[u8]) -> HuskReading
    ensures { ReadCall result w.new w.old x.new x.old d.now }
{
    let r = recv_calls::read(w, d);
    note(x, r);
    r
}

// `recv_calls::begin_read`, noted.
pub fn begin_read(w: &mut [u64; WORDS], x: &mut [u64; PENDING], d: &[u8]) -> HuskReading
    ensures { BeginReadCall result w.new w.old x.new x.old d.now }
{
    let r = recv_calls::begin_read(w, d);
    note(x, r);
    r
}

// `recv_calls::opened`, noted.
pub fn opened(
    w: &mut [u64; WORDS],
    x: &mut [u64; PENDING],
    opened: u8,
    length: usize,
    d: &[u8],
) -> HuskReading
    ensures { OpenedCall result w.new w.old x.new x.old opened length d.now }
{
    let r = recv_calls::opened(w, opened, length, d);
    note(x, r);
    r
}

// Deals with the reading that waits, once: drops, ignores or acts on it, or hands it on.
pub fn classify(
    w: &mut [u64; WORDS],
    x: &mut [u64; PENDING],
    f: &mut [u64; flight_words::WORDS],
    numbers: &mut [u64; 384],
    d: &[u8],
) -> HuskClass
    ensures { ClassifyCall result w.new w.old x.new x.old f.new f.old numbers.new numbers.old d.now }
{
    if recv_words::is_flat(w) {
        let k = class_at(w, x, d);
        return deal(w, x, f, numbers, d, k);
    }
    told(0, 12)
}
