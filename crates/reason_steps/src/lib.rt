// Why a record of a receive history was left out (02, 8): a line for each record of the input.
#![tactic(auto)]

ghost use Rattle.std.specs.Prelude.{[], ◌∷◌, ◌≡◌, ◌==◌, position, ℕ, List, ◌+◌, ◌*◌, ◌<◌, ◌≤◌, length, take};
ghost use Rattle.reasons.specs.Met.{most_kept};
ghost use Rattle.reasons.specs.Reasons.{record_size, most_records, records, ends_well, is_well_formed, is_taken, name_of, has_number, only, shown, line_of, printed};
ghost use Rattle.reason_steps.specs.Room.{lines_room, explained};
ghost use Rattle.reason_steps.specs.Writing.{Put};
ghost use Rattle.reason_steps.specs.State.{judged_by, reason_by};
ghost use Rattle.reason_steps.specs.Kept.{with_slot, window_in, FollowsIn, InSlotOf, SteppedIn};

use reasons::{Reason, Told};
use window::{ReplayWindow, Verdict};

// Bytes of a record.
pub const RECORD: usize = 8;
// Records that are read.
pub const MOST_RECORDS: usize = 65536;
// Epochs that are kept.
pub const MOST_KEPT: usize = 4;
// Bytes of all records that are read, and of their lines: 24 at most, five digits, ten digits, a word of six, two spaces and the newline.
pub const INPUT_ROOM: usize = 524288;

pub const LINES_ROOM: usize = 1572864;

// An epoch that is kept, and the window of the numbers taken in it.
#[derive(Clone, Copy)]
struct Slot {
    epoch: u64,
    window: ReplayWindow,
}

// The epochs kept, in the order in which they came: the first `count` slots are in use.
#[derive(Clone, Copy)]
struct Kept {
    slots: [Slot; MOST_KEPT],
    count: usize,
}

// ---- a record's form

// A reply of 0 or 1, and two zero bytes.
#[tactic(auto, unfolding(reasons::specs::Reasons::ends_well, base::specs::Choose::both, base::specs::Choose::choose))]
fn ends_well(r: &[u8]) -> bool
    requires { record_size ≤ length r.now }
    ensures { result ≡ ends_well r.now }
{
    r[3] <= 1 && base::be::<2>(r, 6) == 0
}

// 8 or 16 bits, and under 8 the first byte of the number zero.
#[tactic(auto, unfolding(reasons::specs::Reasons::is_well_formed, base::specs::Choose::both, base::specs::Choose::either, base::specs::Choose::choose))]
fn is_well_formed(r: &[u8]) -> bool
    requires { record_size ≤ length r.now }
    ensures { result ≡ is_well_formed r.now }
{
    (r[2] == 16 || r[2] == 8 && r[4] == 0) && ends_well(r)
}

// ---- epochs and windows

// The reason by the window's verdict and the cipher's reply.
#[tactic(auto, unfolding(base::specs::Choose::choose))]
fn reason_by(v: Verdict, opened: bool) -> Reason
    ensures { result ≡ reason_by v opened }
{
    match v {
        Verdict::TooOld => Reason::Old,
        Verdict::Seen => Reason::Seen,
        Verdict::Fresh if opened => Reason::Taken,
        Verdict::Fresh => Reason::Cipher,
    }
}

fn is_taken(why: Reason) -> bool
    ensures { result ≡ is_taken why }
{
    matches!(why, Reason::Taken)
}

// What is told of a record by the window of its epoch.
#[tactic(auto, unfolding(crate::specs::State::judged_by, crate::specs::State::number_by))]
fn judge(w: ReplayWindow, r: &[u8]) -> Told
    requires { (record_size ≤ length r.now) × (w.max_seq ≤ 281474976710655) }
    ensures { result ≡ judged_by w r.now }
{
    let expected = recv_keys::expected_recv_seq(w);
    let n = sequence::reconstruct_sequence(base::be::<2>(r, 4), expected, r[2] == 16);
    let why = reason_by(w.check(n), r[3] == 1);
    Told {
        epoch: base::be::<2>(r, 0),
        number: n,
        reason: why,
    }
}

// What is told of a record without a number.
fn only(why: Reason) -> Told
    ensures { result ≡ only why }
{
    Told {
        epoch: 0,
        number: 0,
        reason: why,
    }
}

impl Kept {
    // No epoch is kept yet.
    fn new() -> Kept
        ensures { (d : List ℕ) → FollowsIn d 0 result }
    {
        let slot = Slot {
            epoch: 0,
            window: ReplayWindow::new(),
        };
        Kept {
            slots: [slot; MOST_KEPT],
            count: 0,
        }
    }

    // The slot that holds an epoch.
    fn find(&self, e: u64) -> Option<usize>
        requires { self.now.count ≤ most_kept }
        ensures { result ≡ position (λ s. s.epoch == e) (take self.now.count self.now.slots) }
    {
        self.slots[..self.count].iter().position(|s| s.epoch == e)
    }

    // A slot for a new epoch: nothing is taken in it yet.
    fn begin(&mut self, e: u64) -> usize
        requires { self.old.count < most_kept }
        ensures { (result ≡ self.old.count) × (self.new ≡ with_slot self.old e) }
    {
        let s = self.count;
        self.slots[s] = Slot {
            epoch: e,
            window: ReplayWindow::new(),
        };
        self.count = s + 1;
        s
    }

    // A record of an epoch that a slot holds: its number is marked if it is taken.
    fn in_slot(&mut self, s: usize, r: &[u8]) -> Told
        requires { (record_size ≤ length r.now) × (s < most_kept) × ((window_in self.old s).max_seq ≤ 281474976710655) }
        ensures { InSlotOf self.old s r.now result self.new }
    {
        let w = self.slots[s].window;
        let told = judge(w, r);
        if is_taken(told.reason) {
            self.slots[s].window = w.update(told.number);
        }
        told
    }

    // Record i: what is told of it, and what is kept behind it.
    fn tell(&mut self, input: &[u8], i: usize) -> Told
        requires { FollowsIn input.now i self.old × (i < most_records) }
        ensures { SteppedIn input.now i result self.new }
    {
        let r = base::fragment(input, i * RECORD, RECORD);
        if r.len() < RECORD {
            return only(Reason::Short);
        }
        if !is_well_formed(r) {
            return only(Reason::Record);
        }
        let e = base::be::<2>(r, 0);
        match self.find(e) {
            Some(s) => self.in_slot(s, r),
            None if self.count == MOST_KEPT => only(Reason::Epoch),
            None => {
                let s = self.begin(e);
                self.in_slot(s, r)
            }
        }
    }
}

// ---- lines

// A place goes in and the place behind comes out: a struct that held the lent buffer would need clauses on what its borrow leaves.

// A byte at a place; the place behind it.
#[tactic(auto, using(base::specs::Parts::stored))]
fn put_byte(out: &mut [u8], at: usize, b: u8) -> usize
    requires { at < length out.old }
    ensures { Put out.old at (b ∷ []) out.new result }
{
    out[at] = b;
    at + 1
}

// A word at a place; the place behind it.
#[tactic(auto, using(base::specs::Parts::lent))]
fn put_word(out: &mut [u8], at: usize, word: &[u8]) -> usize
    requires { at + length word.now ≤ length out.old }
    ensures { Put out.old at word.now out.new result }
{
    let end = at + word.len();
    out[at..end].copy_from_slice(word);
    end
}

// The reason's word.
fn name_of(why: Reason) -> &'static [u8]
    ensures { result.now ≡ name_of why }
{
    match why {
        Reason::Taken => b"taken",
        Reason::Short => b"short",
        Reason::Record => b"record",
        Reason::Epoch => b"epoch",
        Reason::Old => b"old",
        Reason::Seen => b"seen",
        Reason::Cipher => b"cipher",
    }
}

// The reason's word at a place; the place behind it.
fn put_name(out: &mut [u8], at: usize, why: Reason) -> usize
    requires { at + length (name_of why) ≤ length out.old }
    ensures { Put out.old at (name_of why) out.new result }
{
    put_word(out, at, name_of(why))
}

fn has_number(why: Reason) -> bool
    ensures { result ≡ has_number why }
{
    matches!(
        why,
        Reason::Old | Reason::Seen | Reason::Cipher | Reason::Taken
    )
}

// The number, or a dash, at a place; the place behind it.
#[tactic(auto, unfolding(reasons::specs::Reasons::shown, base::specs::Choose::choose))]
fn put_number(out: &mut [u8], at: usize, why: Reason, n: u64) -> usize
    requires { at + length (shown why n) ≤ length out.old }
    ensures { Put out.old at (shown why n) out.new result }
{
    if has_number(why) {
        return decimal::put_decimal(out, at, n);
    }
    put_byte(out, at, b'-')
}

// The line of record i at a place; the place behind it.
fn put_line(out: &mut [u8], at: usize, i: u64, t: Told) -> usize
    requires { at + length (line_of i t) ≤ length out.old }
    ensures { Put out.old at (line_of i t) out.new result }
{
    let why = t.reason;
    let index = decimal::put_decimal(out, at, i);
    let first = put_byte(out, index, b' ');
    let number = put_number(out, first, why, t.number);
    let second = put_byte(out, number, b' ');
    let name = put_name(out, second, why);
    put_byte(out, name, b'\n')
}

// ---- a history

// How many records are read.
#[tactic(auto, unfolding(reasons::specs::Reasons::records))]
fn count_records(input: &[u8]) -> usize
    ensures { result ≡ records input.now }
{
    input.len().div_ceil(RECORD).min(MOST_RECORDS)
}

// The lines of a receive history, put at the start of a buffer, and their length.
fn put_lines(input: &[u8], out: &mut [u8]) -> usize
    requires { lines_room ≤ length out.old }
    ensures { Put out.old 0 (printed input.now) out.new result }
{
    let n = count_records(input);
    let mut kept = Kept::new();
    let mut at = 0;
    for i in 0..n {
        let told = kept.tell(input, i);
        at = put_line(out, at, i as u64, told);
    }
    at
}

// The first n bytes.
fn front(out: &mut [u8], n: usize) -> &mut [u8]
    requires { n ≤ length out.old }
    ensures { result.now ≡ take n out.old }
{
    &mut out[..n]
}

// The lines of a receive history, in a buffer lent for them; none where it does not hold those of every history.
pub fn explain<'a>(input: &[u8], out: &'a mut [u8]) -> &'a mut [u8]
    ensures { result.now ≡ explained input.now (length out.old) }
{
    if out.len() < LINES_ROOM {
        return front(out, 0);
    }
    let n = put_lines(input, out);
    front(out, n)
}
