// Number rebuilding, after `reconstruct_sequence` of engine.rs.
#![tactic(auto)]

ghost use Rattle.std.specs.Prelude.{◌≡◌, ◌+◌, ◌-◌, ◌%◌, ◌^◌, ◌<◌, ◌≤◌};
ghost use Rattle.sequence.specs.Sequence.{block_of, nearest};

// The number of 0 or more nearest `expected` that is `partial` modulo `block`.
fn in_block(partial: u64, expected: u64, block: u64) -> u64
    requires { (0 < block) × (block ≤ 65536) × (expected - expected % block + block ≤ 2 ^ 64) }
    ensures { result ≡ nearest block partial expected }
{
    let half = block / 2;
    let own = expected - expected % block + partial % block;
    if expected < own {
        if half < own - expected {
            if own < block {
                return own;
            }
            return own - block;
        }
        return own;
    }
    if half < expected - own {
        if own <= 0xFFFF_FFFF_FFFF_FFFF - block {
            return own + block;
        }
    }
    own
}

// The number that the received bits stand for: 16 of them with the S flag set, 8 without.
pub fn reconstruct_sequence(partial: u64, expected: u64, s_flag: bool) -> u64
    ensures { result ≡ nearest (block_of s_flag) partial expected }
{
    if s_flag {
        return in_block(partial, expected, 65536);
    }
    in_block(partial, expected, 256)
}
