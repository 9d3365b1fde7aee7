// The calls that save records in the flight, as a host makes them. Beside the words of the sending side the host keeps the words of the
// flight, its table of 384 numbers, and a buffer for the saved contents.
#![tactic(auto)]

ghost use Rattle.flight_calls.specs.Calls.{FreshCall, BeginFlightCall, SendSavedCall, CreateHandshakeCall};
ghost use Rattle.send_keys.specs.Answer.{refusal};

use flight_words::SAVED;
use send_keys::SendError;

// Nothing saved, whatever stood in the words.
pub fn fresh(f: &mut [u64; flight_words::WORDS], numbers: &mut [u64; 384])
    ensures { FreshCall f.new numbers.new }
{
    *f = [0u64; flight_words::WORDS];
    *numbers = [0u64; 384];
}

// A new flight: it is empty.
#[tactic(auto, unfolding(flight::specs::Flight::begun, base::specs::Choose::choose))]
pub fn begin_flight(f: &mut [u64; flight_words::WORDS]) -> Result<(), SendError>
    ensures { BeginFlightCall (refusal result) f.new f.old }
{
    let fits = f[SAVED] <= 12;
    if flight_words::is_flat(f) && fits {
        f[SAVED] = 0;
        return Ok(());
    }
    Err(SendError::OutOfRange)
}

// A record sent and saved.
#[tactic(auto, unfolding(base::specs::Choose::choose, base::specs::Choose::both))]
pub fn send_saved(
    w: &mut [u64; send_words::WORDS],
    f: &mut [u64; flight_words::WORDS],
    numbers: &mut [u64; 384],
    epoch: u16,
    content_type: u8,
    content: &[u8],
    queue: &mut [u8],
    kept: &mut [u8],
) -> Result<(), SendError>
    ensures { SendSavedCall (refusal result) w.new w.old f.new f.old numbers.new numbers.old epoch content_type content.now queue.new queue.old kept.new kept.old }
{
    if send_words::is_flat(w) && flight_words::is_flat(f) {
        return save_steps::send_saved(w, f, epoch, content_type, content, queue, kept);
    }
    Err(SendError::OutOfRange)
}

// A handshake message sent and saved, wholly or not at all.
#[tactic(auto, unfolding(base::specs::Choose::choose, base::specs::Choose::both))]
pub fn create_handshake(
    w: &mut [u64; send_words::WORDS],
    f: &mut [u64; flight_words::WORDS],
    numbers: &mut [u64; 384],
    kind: u8,
    body: &[u8],
    queue: &mut [u8],
    kept: &mut [u8],
) -> Result<(), SendError>
    ensures { CreateHandshakeCall (refusal result) w.new w.old f.new f.old numbers.new numbers.old kind body.now queue.new queue.old kept.new kept.old }
{
    if send_words::is_flat(w) && flight_words::is_flat(f) {
        return message_steps::create_handshake(w, f, kind, body, queue, kept);
    }
    Err(SendError::OutOfRange)
}
