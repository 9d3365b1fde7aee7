// Acting on an ACK, after `process_ack` of engine.rs: which saved records it acknowledges, and whether the flight is then done.
#![tactic(auto)]

ghost use Rattle.std.specs.Prelude.{◌≡◌, ◌+◌, ◌*◌, ◌≤◌, ◌<◌, length, is_some, IfSome};
ghost use Rattle.process_ack.specs.Ack.{is_formed, pairs_in, is_pair, is_named, is_remembered, is_acked, tally_with};

use flight::{Entry, NUMBERS, REMEMBERED};
use record::RECORD_NUMBER_LEN;

// Whether records of epoch 2 are saved, and whether one of them is not acknowledged.
#[derive(Clone, Copy)]
pub struct Tally {
    pub any: bool,
    pub unmarked: bool,
}

// Whether the content of an ACK has its form: a length, and as many bytes, in pairs of 16.
#[tactic(auto, unfolding(crate::specs::Ack::is_formed, base::specs::Choose::both, base::specs::Choose::choose))]
pub fn is_formed(d: &[u8]) -> bool
    ensures { result ≡ is_formed d.now }
{
    let n = d.len();
    2 <= n && base::be::<2>(d, 0) as usize == n - 2 && (n - 2) % RECORD_NUMBER_LEN == 0
}

// The pairs that the content of an ACK has behind its length: the epoch and number of a record in each.
#[derive(Clone, Copy)]
pub struct Pairs<'a> {
    pub content: &'a [u8],
    pub count: usize,
    pub ghost inside: { 2 + count * 16 ≤ length content.now },
}

impl<'a> Pairs<'a> {
    // The pairs of a content that has its form.
    pub fn new(content: &'a [u8]) -> Option<Pairs<'a>>
        ensures formed { is_some result ≡ is_formed content.now }
        ensures all { IfSome result (λ p. (p.content.now ≡ content.now) × (p.count ≡ pairs_in content.now)) }
    {
        if !is_formed(content) {
            return None;
        }
        let count = (content.len() - 2) / RECORD_NUMBER_LEN;
        Some(Pairs { content, count })
    }

    // Whether the i-th pair has this epoch and number. The number first: the records of an ACK are mostly of one epoch.
    #[tactic(auto, unfolding(crate::specs::Ack::is_pair, base::specs::Choose::both))]
    fn is_pair(self, i: usize, epoch: u64, number: u64) -> bool
        requires { i < self.count }
        ensures { result ≡ is_pair self.entry.content.now i epoch number }
    {
        let at = 2 + i * RECORD_NUMBER_LEN;
        base::be::<8>(self.content, at + 8) == number && base::be::<8>(self.content, at) == epoch
    }

    // Whether one of the pairs has this epoch and number.
    fn names(self, epoch: u64, number: u64) -> bool
        ensures { result ≡ is_named self.entry.content.now epoch number self.entry.count }
    {
        (0..self.count).any(|i| self.is_pair(i, epoch, number))
    }

    // Whether one of the first k numbers that the i-th saved record remembers is named. The newest first: an ACK that crosses a resend names it.
    fn names_remembered(self, numbers: &[u64; NUMBERS], i: usize, epoch: u64, k: usize) -> bool
        requires { (i < 12) × (k ≤ 32) }
        ensures { result ≡ is_remembered self.entry.content.now self.entry.count numbers.now i epoch k }
    {
        let start = i * REMEMBERED;
        numbers[start..start + k]
            .iter()
            .rev()
            .any(|x| self.names(epoch, *x))
    }

    // Whether the i-th saved record is acknowledged: it was, or a pair has its epoch and one of its numbers.
    #[tactic(auto, unfolding(crate::specs::Ack::is_acked, base::specs::Choose::choose))]
    pub fn acknowledges(self, numbers: &[u64; NUMBERS], i: usize, e: Entry) -> bool
        requires { i < 12 }
        ensures { result ≡ is_acked self.entry.content.now self.entry.count numbers.now i e }
    {
        let epoch = u64::from(e.epoch);
        e.marked
            || self.names(epoch, e.number)
            || self.names_remembered(numbers, i, epoch, e.remembered.min(REMEMBERED))
    }
}

// One saved record more.
#[tactic(auto, unfolding(crate::specs::Ack::tally_with, base::specs::Choose::choose))]
pub fn tallied(t: Tally, e: Entry) -> Tally
    ensures { result ≡ tally_with t e }
{
    if e.epoch == 2 {
        return Tally {
            any: true,
            unmarked: t.unmarked || !e.marked,
        };
    }
    t
}
