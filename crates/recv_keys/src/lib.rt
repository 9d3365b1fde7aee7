// The epochs keyed to receive, after engine.rs: `RecvEpochEntry`; what resolving, keying and removing make of them is in specs/Keys.antt.
#![tactic(auto)]

ghost use Rattle.std.specs.Prelude.{◌≡◌, ◌≤◌};
ghost use Rattle.window.specs.Used.{expected};
ghost use Rattle.recv_keys.specs.Keys.{fits, app_one};

use window::ReplayWindow;

// At most five epochs are keyed: epoch 2, and four of 3 or above.
pub const EPOCHS: usize = 5;

pub const APPS: usize = 4;
// The least length of a protected part is at most 17.
pub const MOST_LEAST: u64 = 17;

// The keys of an epoch: its number, its IV, and the window over the numbers received in it.
#[derive(Clone, Copy)]
pub struct RecvEpochEntry {
    pub epoch: u16,
    pub iv: [u8; 12],
    pub replay: ReplayWindow,
}

// The epochs keyed to receive, in order of keying; the highest ever keyed; whether the peer encrypts and application data is
// released; the least length of a protected part.
#[derive(Clone, Copy)]
pub struct RecvKeys {
    pub entries: [RecvEpochEntry; EPOCHS],
    pub count: usize,
    pub highest: u16,
    pub peer_encryption: bool,
    pub released: bool,
    pub min_protected: usize,
}

// ---- which epoch

// An application epoch with these low bits.
pub fn fits_bits(epoch: u16, bits: u8) -> bool
    ensures { result ≡ fits epoch bits }
{
    3 <= epoch && epoch % 4 == bits as u16
}

// ---- numbers received

// The highest number used plus one, or 0 where none was.
pub fn expected_recv_seq(w: ReplayWindow) -> u64
    requires { w.max_seq ≤ 281474976710655 }
    ensures { result ≡ expected w }
{
    let used = w.window % 2 == 1;
    if used {
        return w.max_seq + 1;
    }
    0
}

// ---- ranges

pub fn app_one(epoch: u16) -> usize
    ensures { (result ≡ app_one epoch) × (result ≤ 1) }
{
    if 3 <= epoch { 1 } else { 0 }
}
