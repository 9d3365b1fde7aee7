// The epochs to send in, after `Keys` of engine.rs: their IVs and the next numbers.
#![tactic(auto)]

ghost use Rattle.send_keys.specs.Answer.{number_of, refusal};
ghost use Rattle.std.specs.Prelude.{◌≡◌};

// A send epoch, 0 where none is keyed: its IV, its next number, and the number from which on its records may wait for their sealing.
#[derive(Clone, Copy)]
pub struct SendEpoch {
    pub epoch: u16,
    pub iv: [u8; 12],
    pub next: u64,
    pub sealed: u64,
}

// The next plaintext number, epoch 2, and the application epoch.
#[derive(Clone, Copy)]
pub struct SendKeys {
    pub plaintext_next: u64,
    pub handshake: SendEpoch,
    pub application: SendEpoch,
}

// Why a call of the sending side is refused. A call has those that its definition names.
#[derive(Clone, Copy, Debug, PartialEq, Eq)]
pub enum SendError {
    // A setting or a field out of its range, or a lent buffer too short.
    OutOfRange,
    // To send in: neither 0 nor 2 nor the application epoch. To key: 0, 1, or not above every earlier one.
    BadEpoch,
    // Type not allowed, body too long, or record over the MTU.
    BadRecord,
    KeysAbsent,
    FlightFull,
    QueueFull,
    NumbersSpent,
    MessagesSpent,
    // A handshake record of epoch 2 or above remembers 32 numbers.
    HistoryFull,
    // A sealing under the application epoch waits.
    SealingWaits,
}

// The number of a refusal.
impl From<SendError> for u8 {
    ghost from_gives = { λ e n. n ≡ number_of e };

    fn from(e: SendError) -> u8 {
        match e {
            SendError::OutOfRange => 12,
            SendError::BadEpoch => 13,
            SendError::BadRecord => 14,
            SendError::KeysAbsent => 17,
            SendError::FlightFull => 18,
            SendError::QueueFull => 19,
            SendError::NumbersSpent => 20,
            SendError::MessagesSpent => 21,
            SendError::HistoryFull => 22,
            SendError::SealingWaits => 23,
        }
    }
}

// The number of an answer; 0 where a call is done.
pub fn refusal(a: Result<(), SendError>) -> u8
    ensures { result ≡ refusal a }
{
    match a {
        Ok(()) => 0,
        Err(e) => u8::from(e),
    }
}
