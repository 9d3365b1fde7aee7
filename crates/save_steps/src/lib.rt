// A record sent and saved, over the words that hold the sending side's state and the flight: a test reads, and a record saved writes, only
// the words it needs.
#![tactic(auto)]

ghost use Rattle.std.specs.Prelude.{◌≡◌, ◌<◌, length, get_or};
ghost use Rattle.send_keys.specs.Keys.{next_of};
ghost use Rattle.outgoing.specs.Send.{spot_of, laid_state, laid_memory, Clear};
ghost use Rattle.flight.specs.Flight.{counted};
ghost use Rattle.flight.specs.Save.{save_answer};
ghost use Rattle.send_words.specs.Words.{state_of};
ghost use Rattle.send_words.specs.Partly.{Partly};
ghost use Rattle.send_steps.specs.Steps.{placed};
ghost use Rattle.flight_words.specs.Words as flights;
ghost use Rattle.save_steps.specs.Save.{Adds, Saves};

use flight::Entry;
use flight_words::SAVED;
use queue::Place;
use send_keys::SendError;
use send_words::MTU;

// Where a record goes, or why it cannot be sent and saved behind so many.
pub fn save_answer(
    w: &[u64; send_words::WORDS],
    saved: usize,
    room: usize,
    kept: usize,
    epoch: u16,
    t: u8,
    n: usize,
) -> Result<Place, SendError>
    ensures { result ≡ placed (save_answer (state_of w.now) (counted saved) room kept epoch t n) (spot_of (state_of w.now) epoch n) }
{
    if !send_steps::is_ready(w, room) {
        return Err(SendError::OutOfRange);
    }
    if !flight::has_room(saved, w[MTU] as usize, kept) {
        return Err(SendError::OutOfRange);
    }
    send_steps::epoch_answer(w, epoch, t, n)?;
    if 12 <= saved {
        return Err(SendError::FlightFull);
    }
    send_steps::place_for(w, epoch, n)
}

// A record more is saved: its entry, and the count.
fn put_saved(f: &mut [u64; flight_words::WORDS], t: u8, epoch: u16, number: u64, n: usize)
    requires { get_or f.old flights.saved-at 0 < 12 }
    ensures { Adds t epoch number n f.old f.new }
{
    let saved = f[SAVED];
    flight_words::put_entry(
        f,
        saved as usize,
        Entry {
            content_type: t,
            epoch: epoch,
            number: number,
            length: n,
            marked: false,
            remembered: 0,
        },
    );
    f[SAVED] = saved + 1;
}

// A record laid and saved, to which no refusal applies; its content stands in its slot.
pub fn lay_saved(
    w: &mut [u64; send_words::WORDS],
    f: &mut [u64; flight_words::WORDS],
    p: Place,
    epoch: u16,
    t: u8,
    content: &[u8],
    d: &mut [u8],
)
    requires { Clear (state_of w.old) (length d.old) epoch (length content.now) × (p ≡ spot_of (state_of w.old) epoch (length content.now)) × (get_or f.old flights.saved-at 0 < 12) }
    ensures { Partly (laid_state (state_of w.old) epoch (length content.now)) w.old w.new × (d.new ≡ laid_memory (state_of w.old) epoch t content.now d.old) × Adds t epoch (next_of (state_of w.old).keys epoch) (length content.now) f.old f.new }
{
    let number = send_steps::next_of(w, epoch);
    send_steps::lay(w, p, epoch, t, content, d);
    put_saved(f, t, epoch, number, content.len());
}

// A record sent and saved, wholly or not at all.
pub fn send_saved(
    w: &mut [u64; send_words::WORDS],
    f: &mut [u64; flight_words::WORDS],
    epoch: u16,
    t: u8,
    content: &[u8],
    memory: &mut [u8],
    kept: &mut [u8],
) -> Result<(), SendError>
    ensures { Saves result epoch t content.now w.old w.new f.old f.new memory.old memory.new kept.old kept.new }
{
    let n = content.len();
    let saved = f[SAVED] as usize;
    let p = save_answer(w, saved, memory.len(), kept.len(), epoch, t, n)?;
    let at = saved * (w[MTU] as usize);
    let end = at + n;
    base::move_bytes(content, &mut kept[at..end]);
    lay_saved(w, f, p, epoch, t, content, memory);
    Ok(())
}
