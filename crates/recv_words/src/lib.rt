// The receive side's state in words that the host keeps (specs/Words.antt says what they stand for), read and written in place: no
// call copies the table of epochs.
#![tactic(auto)]

ghost use Rattle.std.specs.Prelude.{◌≡◌, ◌≤◌, ◌<◌, leb, length, get_or};
ghost use Rattle.recv_keys.specs.Keys.{most_epochs, no_entry, last_fit, find, two, resolve, is_keyed, apps, windows_sound, keys_sound, installed, left_at, left};
ghost use Rattle.datagram.specs.Datagram.{ask_keyed, question_sound, is_sound, moved, end_asked};
ghost use Rattle.recv_words.specs.Words.{
  words,
  iv_at,
  entries_of,
  keys_of,
  ask_of,
  question_of,
  datagram_of,
  is_flat,
  put_ask,
  put_window,
};
ghost use Rattle.recv_words.specs.Laws.{Put, Marks, Lies, skipped, opening};
ghost use Rattle.recv_words.specs.Entries.{Written, Beside, fresh_words};

use datagram::{Ask, Datagram, Question};
use recv_keys::{APPS, EPOCHS, MOST_LEAST, RecvEpochEntry};
use window::ReplayWindow;

// ---- which word is which

pub const WORDS: usize = 39;
// The epochs are the first five words; then five each of the highest numbers and of the marks of their windows.
const HIGHEST_NUMBER: usize = 5;

const MARKS: usize = 10;
// Epochs keyed, the highest ever keyed, peer encryption, application data released, the least length of a protected part.
pub const COUNT: usize = 15;

pub const HIGHEST: usize = 16;

pub const ENCRYPTED: usize = 17;

pub const RELEASED: usize = 18;

pub const LEAST: usize = 19;
// The begun datagram, and the question that waits.
pub const SIZE: usize = 20;

pub const CURSOR: usize = 21;

pub const READINGS: usize = 22;

pub const QUESTION: usize = 23;

pub const ASK_EPOCH: usize = 24;

pub const ASK_FLAG: usize = 25;

const ASK_HEADER: usize = 26;

const ASK_LENGTH: usize = 27;

pub const ASK_NUMBER: usize = 28;
// Five words with the first four bytes of the IVs, five with the other eight.
pub const IV_FRONT: usize = 29;

pub const IV_BACK: usize = 34;

// ---- the keys

// Which key is a number below 5, no type of its own: loops count it, and a type would be made in each round from the same bound.
pub fn epoch_at(w: &[u64; WORDS], i: usize) -> u16
    requires { i < most_epochs }
    ensures { result ≡ (get_or (entries_of w.now) i no_entry).epoch }
{
    words::low(w[i])
}

pub fn iv_at(w: &[u64; WORDS], i: usize) -> [u8; 12]
    requires { i < most_epochs }
    ensures { result ≡ iv_at w.now i }
{
    let f = IV_FRONT + i;
    let b = IV_BACK + i;
    words::iv_of(w[f], w[b])
}

pub fn window_at(w: &[u64; WORDS], i: usize) -> ReplayWindow
    requires { i < most_epochs }
    ensures { result ≡ (get_or (entries_of w.now) i no_entry).replay }
{
    let m = HIGHEST_NUMBER + i;
    let v = MARKS + i;
    ReplayWindow {
        max_seq: w[m],
        window: w[v],
    }
}

pub fn entry_at(w: &[u64; WORDS], i: usize) -> RecvEpochEntry
    requires { i < most_epochs }
    ensures { result ≡ get_or (entries_of w.now) i no_entry }
{
    let iv = iv_at(w, i);
    let v = window_at(w, i);
    RecvEpochEntry {
        epoch: words::low(w[i]),
        iv: iv,
        replay: v,
    }
}

// The last application epoch with these bits.
fn last_fit(w: &[u64; WORDS], count: usize, bits: u8) -> Option<usize>
    requires { count ≤ most_epochs }
    ensures { result ≡ last_fit (entries_of w.now) bits count }
{
    for i in (0..count).rev() {
        if recv_keys::fits_bits(epoch_at(w, i), bits) {
            return Some(i);
        }
    }
    None
}

// Where an epoch is.
pub fn find_epoch(w: &[u64; WORDS], count: usize, epoch: u16) -> Option<usize>
    requires { count ≤ most_epochs }
    ensures { result ≡ find (entries_of w.now) epoch count }
{
    for i in (0..count).rev() {
        if epoch_at(w, i) == epoch {
            return Some(i);
        }
    }
    None
}

// Epoch 2, for bits 2.
#[tactic(auto, unfolding(recv_keys::specs::Keys::two, base::specs::Choose::choose))]
fn epoch_two(w: &[u64; WORDS], count: usize, bits: u8) -> Option<usize>
    requires { (count ≤ most_epochs) × (count ≡ (keys_of w.now).count) }
    ensures { result ≡ two (keys_of w.now) bits }
{
    if bits == 2 {
        return find_epoch(w, count, 2);
    }
    None
}

// The keyed epoch that epoch bits mean: epoch 2 first until application data is released, then last.
#[tactic(auto, unfolding(recv_keys::specs::Keys::resolve, base::specs::Choose::choose))]
pub fn resolve_epoch(w: &[u64; WORDS], bits: u8) -> Option<usize>
    requires { (keys_of w.now).count ≤ most_epochs }
    ensures { result ≡ resolve (keys_of w.now) bits }
{
    let count = w[COUNT] as usize;
    let t = epoch_two(w, count, bits);
    let a = last_fit(w, count, bits);
    if w[RELEASED] == 1 {
        return a.or(t);
    }
    t.or(a)
}

// Whether an epoch is keyed.
#[tactic(auto, unfolding(recv_keys::specs::Keys::is_keyed, recv_keys::specs::Keys::was_found))]
pub fn is_keyed(w: &[u64; WORDS], epoch: u16) -> bool
    requires { (keys_of w.now).count ≤ most_epochs }
    ensures { result ≡ is_keyed (keys_of w.now) epoch }
{
    find_epoch(w, w[COUNT] as usize, epoch).is_some()
}

// ---- ranges

// How many application epochs are keyed.
pub fn count_apps(w: &[u64; WORDS], count: usize) -> usize
    requires { count ≤ most_epochs }
    ensures { result ≡ apps (entries_of w.now) count }
{
    let mut n = 0;
    for i in 0..count {
        n += recv_keys::app_one(epoch_at(w, i));
    }
    n
}

// No window is above the last number of 48 bits.
fn windows_sound(w: &[u64; WORDS], count: usize) -> bool
    requires { count ≤ most_epochs }
    ensures { result ≡ windows_sound (entries_of w.now) count }
{
    for i in (0..count).rev() {
        if 0xFFFF_FFFF_FFFF < window_at(w, i).max_seq {
            return false;
        }
    }
    true
}

// At most four application epochs are keyed; with at most four epochs there is nothing to count.
fn apps_fit(w: &[u64; WORDS], count: usize) -> bool
    requires { count ≤ most_epochs }
    ensures { result ≡ leb (apps (entries_of w.now) count) 4 }
{
    count <= APPS || count_apps(w, count) <= APPS
}

// The fields that a call indexes or adds with are in range.
#[tactic(auto, unfolding(recv_keys::specs::Keys::keys_sound, base::specs::Choose::both))]
fn keys_sound(w: &[u64; WORDS]) -> bool
    ensures { result ≡ keys_sound (keys_of w.now) }
{
    let count = w[COUNT] as usize;
    if EPOCHS < count {
        return false;
    }
    if MOST_LEAST < w[LEAST] {
        return false;
    }
    apps_fit(w, count) && windows_sound(w, count)
}

// Whether the record that a question is about has its place in a room, under an epoch that is keyed.
#[tactic(auto, unfolding(datagram::specs::Datagram::ask_keyed, base::specs::Choose::both))]
fn ask_keyed(w: &[u64; WORDS], room: usize) -> bool
    requires { (keys_of w.now).count ≤ most_epochs }
    ensures { result ≡ ask_keyed (keys_of w.now) (ask_of w.now) room }
{
    let a = ask_of(w);
    datagram::ask_sound(a, room) && is_keyed(w, a.epoch)
}

#[tactic(auto, unfolding(crate::specs::Words::question_of, datagram::specs::Datagram::opening_sound, datagram::specs::Datagram::question_sound, base::specs::Choose::choose, base::specs::Choose::both))]
fn question_sound(w: &[u64; WORDS], room: usize) -> bool
    requires { (keys_of w.now).count ≤ most_epochs }
    ensures { result ≡ question_sound (keys_of w.now) (question_of w.now) room }
{
    let kind = w[QUESTION];
    if kind == 1 {
        return ask_keyed(w, room);
    }
    if kind == 2 {
        return w[ASK_NUMBER] <= 0xFFFF_FFFF_FFFF && ask_keyed(w, room);
    }
    true
}

// The fields that a call indexes or adds with are in range, as the words have them: each is read where it is tested, so that none is
// kept over the tests before it.
pub fn words_sound(w: &[u64; WORDS]) -> bool
    ensures { result ≡ is_sound (keys_of w.now) (datagram_of w.now) }
{
    if keys_sound(w) {
        let size = w[SIZE] as usize;
        let at = w[CURSOR] as usize;
        if 16384 < size {
            return false;
        }
        if size < at {
            return false;
        }
        if 16 < w[READINGS] {
            return false;
        }
        return question_sound(w, size - at);
    }
    false
}

// ---- the begun datagram

pub fn ask_of(w: &[u64; WORDS]) -> Ask
    ensures { result ≡ ask_of w.now }
{
    Ask {
        epoch: words::low(w[ASK_EPOCH]),
        s_flag: w[ASK_FLAG] == 1,
        header_len: w[ASK_HEADER] as usize,
        length: w[ASK_LENGTH] as usize,
    }
}

#[tactic(auto, unfolding(crate::specs::Words::question_of, base::specs::Choose::choose))]
fn question_of(w: &[u64; WORDS]) -> Question
    ensures { result ≡ question_of w.now }
{
    let kind = w[QUESTION];
    let a = ask_of(w);
    if kind == 1 {
        return Question::Mask(a);
    }
    if kind == 2 {
        return Question::Opening(a, w[ASK_NUMBER]);
    }
    Question::Nothing
}

pub fn datagram_of(w: &[u64; WORDS]) -> Datagram
    ensures { result ≡ datagram_of w.now }
{
    let q = question_of(w);
    Datagram {
        size: w[SIZE] as usize,
        at: w[CURSOR] as usize,
        readings: w[READINGS] as usize,
        question: q,
    }
}

// The same of the datagram read off the words; else a call answers 12. The words are tested, so that no caller lends a copy.
pub fn is_sound(w: &[u64; WORDS], b: Datagram) -> bool
    requires { b ≡ datagram_of w.now }
    ensures { result ≡ is_sound (keys_of w.now) b }
{
    words_sound(w)
}

// Whether the words stand for a state: flags are 0 or 1, the question of a kind that there is.
#[tactic(auto, unfolding(crate::specs::Words::is_flat, base::specs::Choose::both))]
pub fn is_flat(w: &[u64; WORDS]) -> bool
    ensures { result ≡ is_flat w.now }
{
    if 1 < w[ENCRYPTED] {
        return false;
    }
    if 1 < w[RELEASED] {
        return false;
    }
    if 2 < w[QUESTION] {
        return false;
    }
    w[ASK_FLAG] <= 1
}

fn put_ask(w: &mut [u64; WORDS], kind: u64, a: Ask, number: u64)
    ensures { (w.new ≡ put_ask kind a number w.old) × (a.epoch ≤ 65535) }
{
    let epoch = u64::from(a.epoch);
    w[QUESTION] = kind;
    w[ASK_EPOCH] = epoch;
    w[ASK_FLAG] = a.s_flag as u64;
    w[ASK_HEADER] = a.header_len as u64;
    w[ASK_LENGTH] = a.length as u64;
    w[ASK_NUMBER] = number;
}

// The begun datagram written.
pub fn put_datagram(w: &mut [u64; WORDS], b: Datagram)
    ensures { Put b w.old w.new }
{
    let q = b.question;
    w[SIZE] = b.size as u64;
    w[CURSOR] = b.at as u64;
    w[READINGS] = b.readings as u64;
    match q {
        Question::Nothing => {
            w[QUESTION] = 0;
        }
        Question::Mask(a) => {
            put_ask(w, 1, a, 0);
        }
        Question::Opening(a, n) => {
            put_ask(w, 2, a, n);
        }
    }
}

// The cursor moved, no question left; the words of the question stay.
pub fn move_to(w: &mut [u64; WORDS], at: usize, readings: usize)
    ensures { Lies (moved (datagram_of w.old) at readings) w.old w.new }
{
    w[CURSOR] = at as u64;
    w[READINGS] = readings as u64;
    w[QUESTION] = 0;
}

// The cursor behind the record of the question.
pub fn skip(w: &mut [u64; WORDS])
    requires { end_asked (datagram_of w.old) (ask_of w.old) ≤ 16384 }
    ensures { Lies (skipped w.old) w.old w.new }
{
    let start = w[CURSOR] as usize + w[ASK_HEADER] as usize;
    let next = start + w[ASK_LENGTH] as usize;
    let readings = w[READINGS] as usize;
    move_to(w, next, readings);
}

// The opening asked for, under a number, of the record whose mask was asked for.
pub fn ask_opening(w: &mut [u64; WORDS], number: u64)
    ensures { Lies (opening w.old number) w.old w.new }
{
    w[QUESTION] = 2;
    w[ASK_NUMBER] = number;
}

// The window of the entry at i written.
pub fn put_window(w: &mut [u64; WORDS], i: usize, v: ReplayWindow)
    requires { i < most_epochs }
    ensures { w.new ≡ put_window i v w.old }
{
    let m = HIGHEST_NUMBER + i;
    let n = MARKS + i;
    w[m] = v.max_seq;
    w[n] = v.window;
}

// A number marked in the window of the entry at i.
pub fn mark(w: &mut [u64; WORDS], i: usize, number: u64)
    requires { i < most_epochs }
    ensures { Marks i number w.old w.new }
{
    let v = window_at(w, i);
    put_window(w, i, v.update(number));
}

// ---- entries written

// The entry at i written.
pub fn put_entry(w: &mut [u64; WORDS], i: usize, e: RecvEpochEntry)
    requires { i < most_epochs }
    ensures { Written i e w.old w.new }
{
    let iv = e.iv;
    let v = e.replay;
    let front = IV_FRONT + i;
    let back = IV_BACK + i;
    w[i] = u64::from(e.epoch);
    put_window(w, i, v);
    words::put_iv(w, front, back, iv);
}

// No epoch keyed, no datagram begun.
pub fn put_fresh(w: &mut [u64; WORDS], min_protected: usize)
    ensures { w.new ≡ fresh_words min_protected }
{
    *w = [0u64; WORDS];
    w[LEAST] = min_protected as u64;
}

// An epoch keyed, behind the others.
pub fn install(w: &mut [u64; WORDS], count: usize, epoch: u16, iv: [u8; 12])
    requires { (count < most_epochs) × ((keys_of w.old).count ≡ count) }
    ensures { (keys_of w.new ≡ installed (keys_of w.old) epoch iv) × Beside w.old w.new }
{
    let v = ReplayWindow::new();
    put_entry(
        w,
        count,
        RecvEpochEntry {
            epoch: epoch,
            iv: iv,
            replay: v,
        },
    );
    w[COUNT] = (count + 1) as u64;
    w[HIGHEST] = u64::from(epoch);
}

// What comes to stand at j when the entry at i goes.
fn shift(w: &mut [u64; WORDS], i: usize, j: usize)
    requires { j < 4 }
    ensures { Written j (left_at (entries_of w.old) i j) w.old w.new }
{
    if i <= j {
        let n = j + 1;
        let e = entry_at(w, n);
        put_entry(w, j, e);
    }
}

// The entry at i removed; later ones keep their order.
pub fn uninstall(w: &mut [u64; WORDS], i: usize)
    requires { 0 < (keys_of w.old).count }
    ensures { (keys_of w.new ≡ left (keys_of w.old) i) × Beside w.old w.new }
{
    for j in 0..EPOCHS - 1 {
        shift(w, i, j);
    }
    w[COUNT] = w[COUNT] - 1;
}
