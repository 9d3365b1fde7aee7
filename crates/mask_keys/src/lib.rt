// Mask keys by epoch, in slots of bytes that the host keeps, and the mask made of one (02, 6; RFC 9147, section 4.2.3).
#![tactic(auto)]

ghost use Rattle.std.specs.Prelude.{◌≡◌, ℕ, ◌+◌, ◌*◌, ◌≤◌, length, get_or, replicate, ◌∷◌};
ghost use Rattle.base.specs.Parts.{part, splice};
ghost use Rattle.mask_keys.specs.Keys.{key_size, slot_size, sample_size, slot_at, has_key, key_at, moved_up, mask_at};

pub const KEY: usize = 32;

// Whether it holds a key, and the key.
pub const SLOT: usize = 33;

const SAMPLE: usize = 16;

// The slots for the epochs keyed to receive, one for each that there can be; and to send, for epoch 2 and the application epoch.
pub const RECEIVE: usize = 165;

pub const SEND: usize = 66;

// ---- slots

// A slot by its number, in the bytes that the C host lends: a type of the slots would leave the same bound on the number.
// Slot i holds a key.
#[tactic(auto, unfolding(crate::specs::Keys::has_key))]
pub fn has_key(k: &[u8], i: usize) -> bool
    requires { (i + 1) * slot_size ≤ length k.now }
    ensures { result ≡ has_key k.now i }
{
    let at = i * SLOT;
    k[at] == 1
}

// A key put into slot i.
pub fn fill(k: &mut [u8], i: usize, key: &[u8])
    requires { ((i + 1) * slot_size ≤ length k.old) × (length key.now ≡ key_size) }
    ensures { k.new ≡ splice (slot_at i) (1 ∷ key.now) k.old }
{
    let at = i * SLOT;
    k[at] = 1;
    k[at + 1..at + SLOT].copy_from_slice(key);
}

// Slot i left without a key: nothing of one stays in it.
pub fn empty(k: &mut [u8], i: usize)
    requires { (i + 1) * slot_size ≤ length k.old }
    ensures { k.new ≡ splice (slot_at i) (replicate slot_size 0) k.old }
{
    let at = i * SLOT;
    k[at..at + SLOT].fill(0);
}

// Slot i goes, and those behind it move up.
pub fn move_up(k: &mut [u8], i: usize)
    requires { ((i + 1) * slot_size ≤ length k.old) × (length k.old ≤ 1000) }
    ensures { (length k.new ≡ length k.old) × ((n : ℕ) → get_or k.new n 0 ≡ moved_up i k.old n) }
{
    let at = i * SLOT;
    k.copy_within(at + SLOT.., at);
    let last = k.len() - SLOT;
    k[last..].fill(0);
}

// ---- the mask

// The key in slot i.
#[tactic(auto, unfolding(crate::specs::Keys::key_at))]
fn key_at(k: &[u8], i: usize) -> [u8; KEY]
    requires { (i + 1) * slot_size ≤ length k.now }
    ensures { result ≡ key_at k.now i }
{
    let from = i * SLOT + 1;
    let mut key = [0u8; KEY];
    key.copy_from_slice(&k[from..from + KEY]);
    key
}

// The 16 bytes from a place on; zeros beyond the end.
fn sample_at(d: &[u8], at: usize) -> [u8; SAMPLE]
    ensures { (i : ℕ) → get_or result i 0 ≡ get_or (part at sample_size d.now) i 0 }
{
    let s = base::fragment(d, at, SAMPLE);
    let mut sample = [0u8; SAMPLE];
    sample[..s.len()].copy_from_slice(s);
    sample
}

// The mask of the 16 bytes at a place, under the key in slot i.
pub fn mask_at(k: &[u8], i: usize, d: &[u8], at: usize) -> [u8; 2]
    requires { (i + 1) * slot_size ≤ length k.now }
    ensures { result ≡ mask_at (key_at k.now i) d.now at }
{
    chacha::mask(key_at(k, i), sample_at(d, at))
}
