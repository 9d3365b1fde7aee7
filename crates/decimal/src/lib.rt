// A number written in decimal: how many digits it has, and the digits.
#![tactic(auto)]

ghost use Rattle.std.specs.Prelude.{◌≡◌, ◌+◌, ◌<◌, ◌≤◌, length};
ghost use Rattle.base.specs.Parts.{splice};
ghost use Rattle.decimal.specs.Decimal.{digits, places_of, decimal};

// How many digits n has, without leading zeros.
#[tactic(auto, using(crate::proofs::Laws::places_reached, crate::proofs::Laws::places_none))]
pub fn places(n: u64) -> usize
    ensures { (result ≡ places_of n) × (0 < result) × (result ≤ 20) }
{
    match n.checked_ilog10() {
        Some(k) => k as usize + 1,
        None => 1,
    }
}

// The last k digits of n, written from place `at` on: the last one first.
pub fn put_digits(out: &mut [u8], at: usize, k: usize, n: u64)
    requires { at + k ≤ length out.old }
    ensures { out.new ≡ splice at (digits k n) out.old }
{
    let mut rest = n;
    for i in (0..k).rev() {
        out[at + i] = b'0' + (rest % 10) as u8;
        rest /= 10;
    }
}

// n in decimal, written from place `at` on; the place behind it.
pub fn put_decimal(out: &mut [u8], at: usize, n: u64) -> usize
    requires { at + length (decimal n) ≤ length out.old }
    ensures { (result ≡ at + length (decimal n)) × (out.new ≡ splice at (decimal n) out.old) }
{
    let k = places(n);
    put_digits(out, at, k, n);
    at + k
}
