// An epoch keyed to send, over the words that hold the sending side's state: only its own words are written.
#![tactic(auto)]

ghost use Rattle.std.specs.Prelude.{◌≡◌};
ghost use Rattle.queue.specs.Queue.{is_sound};
ghost use Rattle.send_keys.specs.Keys.{key_answer, keyed};
ghost use Rattle.outgoing.specs.State.{with_keys, keying_state};
ghost use Rattle.send_words.specs.Words.{state_of};
ghost use Rattle.send_words.specs.Partly.{Partly};

use send_keys::{SendEpoch, SendError};
use send_words::{
    APPLICATION, APPLICATION_IV, APPLICATION_NEXT, APPLICATION_SEALED, HANDSHAKE, HANDSHAKE_IV,
    WORDS,
};

// Whether an epoch can be keyed to send, or why not.
pub fn key_answer(w: &[u64; WORDS], epoch: u16) -> Result<(), SendError>
    ensures { result ≡ key_answer (state_of w.now).keys (is_sound (state_of w.now).queue) epoch }
{
    if !send_steps::is_sound(w) {
        return Err(SendError::OutOfRange);
    }
    let application = words::low(w[APPLICATION]);
    if epoch < 2 {
        return Err(SendError::BadEpoch);
    }
    if epoch <= words::low(w[HANDSHAKE]) {
        return Err(SendError::BadEpoch);
    }
    if epoch <= application {
        return Err(SendError::BadEpoch);
    }
    if application == 0 {
        return Ok(());
    }
    if w[APPLICATION_SEALED] < w[APPLICATION_NEXT] {
        return Err(SendError::SealingWaits);
    }
    Ok(())
}

// An epoch keyed: numbers begin at 0; an application epoch takes the place of the one before.
fn put_keyed(w: &mut [u64; WORDS], epoch: u16, iv: [u8; 12])
    ensures { Partly (with_keys (state_of w.old) (keyed (state_of w.old).keys epoch iv)) w.old w.new }
{
    let e = SendEpoch {
        epoch: epoch,
        iv: iv,
        next: 0,
        sealed: 0,
    };
    if epoch == 2 {
        send_words::put_epoch(w, HANDSHAKE, HANDSHAKE_IV, e);
        return;
    }
    send_words::put_epoch(w, APPLICATION, APPLICATION_IV, e);
}

// An epoch keyed to send, with its IV.
pub fn key_send(w: &mut [u64; WORDS], epoch: u16, iv: [u8; 12]) -> Result<(), SendError>
    ensures { (result ≡ (keying_state (state_of w.old) epoch iv).answer) × Partly (keying_state (state_of w.old) epoch iv).state w.old w.new }
{
    key_answer(w, epoch)?;
    put_keyed(w, epoch, iv);
    Ok(())
}
