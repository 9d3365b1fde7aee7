// The number of a record whose mask is known, after `Record::parse_buffer` of incoming.rs: unmasked and rebuilt.
#![tactic(auto)]

ghost use Rattle.std.specs.Prelude.{◌≡◌, ◌+◌, ◌≤◌, ◌<◌, length, drop};
ghost use Rattle.record.specs.Record.{partial_of};
ghost use Rattle.mask_reply.specs.Mask.{unmasked, rebuilt};

use window::ReplayWindow;

// The number bytes of the record at a place, unmasked in place.
fn unmask(d: &mut [u8], at: usize, s_flag: bool, mask: [u8; 2])
    requires { (at + 2 < length d.old) × (at ≤ 16384) }
    ensures { d.new ≡ unmasked d.old at s_flag mask }
{
    let i = at + 1;
    let x = d[i] ^ mask[0];
    if s_flag {
        let j = at + 2;
        let y = d[j] ^ mask[1];
        d[i] = x;
        d[j] = y;
        return;
    }
    d[i] = x;
}

#[tactic(auto, unfolding(crate::specs::Mask::rebuilt))]
fn rebuild(w: ReplayWindow, partial: u64, s_flag: bool) -> u64
    requires { w.max_seq ≤ 281474976710655 }
    ensures { result ≡ rebuilt w partial s_flag }
{
    sequence::reconstruct_sequence(partial, recv_keys::expected_recv_seq(w), s_flag)
}

// The number of the record at a place, once its number bytes are unmasked.
pub fn number_at(w: ReplayWindow, at: usize, s_flag: bool, mask: [u8; 2], d: &mut [u8]) -> u64
    requires { (w.max_seq ≤ 281474976710655) × (at + 2 < length d.old) × (at ≤ 16384) }
    ensures { (result ≡ rebuilt w (partial_of (drop at (unmasked d.old at s_flag mask)) s_flag) s_flag) × (d.new ≡ unmasked d.old at s_flag mask) }
{
    unmask(d, at, s_flag, mask);
    let p = record::partial(base::behind(d, at), s_flag);
    rebuild(w, p, s_flag)
}
