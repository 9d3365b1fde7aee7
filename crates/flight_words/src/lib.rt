// The flight in words that the host keeps (specs/Words.antt says what they stand for), read and written.
#![tactic(auto)]

ghost use Rattle.std.specs.Prelude.{◌≡◌, ◌≤◌, ◌<◌, length};
ghost use Rattle.flight_words.specs.Words.{words, entry_at, flat_to, put_entry, LowEntry};
ghost use Rattle.flight_words.specs.Entries.{Entered, with_marked, with_numbers};

use flight::{Entry, RECORDS};

// ---- which word is which

pub const WORDS: usize = 73;
// Six words an entry.
const ROW: usize = 6;
// Of an entry, behind its content type: its epoch, its number, the length of its content, whether it is acknowledged, how many earlier
// numbers it remembers.
const EPOCH: usize = 1;

const NUMBER: usize = 2;

const LENGTH: usize = 3;

const MARKED: usize = 4;

const REMEMBERED: usize = 5;
// How many are saved.
pub const SAVED: usize = 72;

// Which saved record is a number below 12, no type of its own: loops count it, and a type would be made in each round from the same bound.
// A saved record.
pub fn entry_of(w: &[u64; WORDS], i: usize) -> Entry
    requires { i < 12 }
    ensures { result ≡ entry_at w.now i }
{
    let row = ROW * i;
    let epoch = row + EPOCH;
    let number = row + NUMBER;
    let length = row + LENGTH;
    let marked = row + MARKED;
    let remembered = row + REMEMBERED;
    Entry {
        content_type: (w[row] % 256) as u8,
        epoch: (w[epoch] % 65536) as u16,
        number: w[number],
        length: w[length] as usize,
        marked: w[marked] == 1,
        remembered: w[remembered] as usize,
    }
}

// Whether the words stand for a flight: marks are 0 or 1.
pub fn is_flat(w: &[u64; WORDS]) -> bool
    ensures { result ≡ flat_to w.now 12 }
{
    (0..RECORDS).all(|i| w[ROW * i + MARKED] <= 1)
}

pub fn put_entry(w: &mut [u64; WORDS], i: usize, e: Entry)
    requires { i < 12 }
    ensures { (w.new ≡ put_entry i e w.old) × LowEntry e }
{
    let row = ROW * i;
    let epoch = row + EPOCH;
    let number = row + NUMBER;
    let length = row + LENGTH;
    let marked = row + MARKED;
    let remembered = row + REMEMBERED;
    w[row] = u64::from(e.content_type);
    w[epoch] = u64::from(e.epoch);
    w[number] = e.number;
    w[length] = e.length as u64;
    w[marked] = e.marked as u64;
    w[remembered] = e.remembered as u64;
}

// ---- one entry, in place

// Whether the i-th entry is acknowledged, written.
pub fn put_mark(w: &mut [u64; WORDS], i: usize, m: bool)
    requires { i < 12 }
    ensures { Entered i (with_marked (entry_at w.old i) m) w.old w.new }
{
    let marked = ROW * i + MARKED;
    w[marked] = m as u64;
}

// The i-th entry's number, and how many earlier ones it remembers, written.
pub fn put_numbers(w: &mut [u64; WORDS], i: usize, number: u64, remembered: usize)
    requires { i < 12 }
    ensures { Entered i (with_numbers (entry_at w.old i) number remembered) w.old w.new }
{
    let at = ROW * i + NUMBER;
    let count = ROW * i + REMEMBERED;
    w[at] = number;
    w[count] = remembered as u64;
}
