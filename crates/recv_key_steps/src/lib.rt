// The calls of the receive side that read nothing, over the words that hold its state.
#![tactic(auto)]

ghost use Rattle.std.specs.Prelude.{◌≡◌, true, ◌<◌};
ghost use Rattle.datagram.specs.Datagram.{is_sound};
ghost use Rattle.opening_reply.specs.Opening.{cancelled};
ghost use Rattle.receiving.specs.Receiving.{key_of, leaving, remove_of, encrypt_of, release_of, begin_of};
ghost use Rattle.recv_keys.specs.Keys.{left};
ghost use Rattle.recv_words.specs.Words.{keys_of, is_flat};
ghost use Rattle.recv_key_steps.specs.Kept.{state_of, Kept-as};

use datagram::{Datagram, Question};
use receiving::{Done, Refusal};
use recv_words::{COUNT, ENCRYPTED, HIGHEST, RELEASED, WORDS};

// Keys an epoch to receive, with its IV.
pub fn key(w: &mut [u64; WORDS], epoch: u16, iv: [u8; 12]) -> Result<Done, Refusal>
    ensures { Kept-as result w.new w.old (key_of (state_of w.old) epoch iv) }
{
    let b = recv_words::datagram_of(w);
    if recv_words::is_sound(w, b) {
        if epoch < 2 {
            return Err(Refusal::Unusable);
        }
        if epoch <= words::low(w[HIGHEST]) {
            return Err(Refusal::Unusable);
        }
        if recv_steps::is_full(w, epoch) {
            return Err(Refusal::Full);
        }
        let count = w[COUNT] as usize;
        recv_words::install(w, count, epoch, iv);
        return Ok(Done::Asked);
    }
    Err(Refusal::Setting)
}

// The entry at i removed, with the question under its epoch.
fn leave(w: &mut [u64; WORDS], b: Datagram, i: usize, epoch: u16) -> Result<Done, Refusal>
    requires { (is_sound (keys_of w.old) b ≡ true) × (0 < (keys_of w.old).count) × (is_flat w.old ≡ true) }
    ensures { Kept-as result w.new w.old (leaving (cancelled b.question b epoch) (left (keys_of w.old) i)) }
{
    let c = recv_steps::cancel(w, b, epoch);
    let after = c.datagram;
    recv_words::uninstall(w, i);
    recv_words::put_datagram(w, after);
    if c.dropped {
        return Ok(Done::Dropped);
    }
    Ok(Done::Asked)
}

// Removes a receive epoch, and the question under it.
pub fn remove(w: &mut [u64; WORDS], epoch: u16) -> Result<Done, Refusal>
    requires { is_flat w.old ≡ true }
    ensures { Kept-as result w.new w.old (remove_of (state_of w.old) epoch) }
{
    let b = recv_words::datagram_of(w);
    if recv_words::is_sound(w, b) {
        let count = w[COUNT] as usize;
        let f = recv_words::find_epoch(w, count, epoch);
        return match f {
            None => Err(Refusal::Unusable),
            Some(i) => leave(w, b, i, epoch),
        };
    }
    Err(Refusal::Setting)
}

// Peer encryption on.
pub fn encrypt(w: &mut [u64; WORDS]) -> Result<Done, Refusal>
    requires { is_flat w.old ≡ true }
    ensures { Kept-as result w.new w.old (encrypt_of (state_of w.old)) }
{
    let b = recv_words::datagram_of(w);
    if recv_words::is_sound(w, b) {
        w[ENCRYPTED] = 1;
        return Ok(Done::Asked);
    }
    Err(Refusal::Setting)
}

// Application data released.
pub fn release(w: &mut [u64; WORDS]) -> Result<Done, Refusal>
    requires { is_flat w.old ≡ true }
    ensures { Kept-as result w.new w.old (release_of (state_of w.old)) }
{
    let b = recv_words::datagram_of(w);
    if recv_words::is_sound(w, b) {
        w[RELEASED] = 1;
        return Ok(Done::Asked);
    }
    Err(Refusal::Setting)
}

// Begins a datagram of n bytes.
pub fn begin(w: &mut [u64; WORDS], n: usize) -> Result<Done, Refusal>
    requires { is_flat w.old ≡ true }
    ensures { Kept-as result w.new w.old (begin_of (state_of w.old) n) }
{
    let b = recv_words::datagram_of(w);
    if recv_words::is_sound(w, b) {
        let long = 16384 < n;
        if long {
            return Err(Refusal::TooLong);
        }
        recv_words::put_datagram(
            w,
            Datagram {
                size: n,
                at: 0,
                readings: 0,
                question: Question::Nothing,
            },
        );
        return Ok(Done::Asked);
    }
    Err(Refusal::Setting)
}
