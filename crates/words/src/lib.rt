// Bytes packed into words, the first byte highest, and read back.
#![tactic(auto)]

ghost use Rattle.std.specs.Prelude.{◌≡◌, ◌≤◌, ◌<◌, ◌%◌, length};
ghost use Rattle.base.specs.Bytes.{Bytes};
ghost use Rattle.words.specs.Packed.{iv_of, LowIv, put_iv};

// The IV that two words hold.
pub fn iv_of(front: u64, back: u64) -> [u8; 12]
    ensures { result ≡ iv_of front back }
{
    let mut iv = [0u8; 12];
    iv[..4].copy_from_slice(&front.to_be_bytes()[4..]);
    iv[4..].copy_from_slice(&back.to_be_bytes());
    iv
}

// An IV put into two words.
pub fn put_iv(w: &mut [u64], front: usize, back: usize, iv: [u8; 12])
    requires { (front < length w.old) × (back < length w.old) }
    ensures { (w.new ≡ put_iv front back iv w.old) × LowIv iv }
{
    w[front] = base::be::<4>(&iv, 0);
    w[back] = base::be::<8>(&iv, 4);
}

// A value of 16 bits in a word.
pub fn low(x: u64) -> u16
    ensures { result ≡ x % 65536 }
{
    (x % 65536) as u16
}
