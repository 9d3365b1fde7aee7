// A handshake message sent and saved, over the words that hold the sending side's state and the flight: each piece reads and writes only
// the words it needs.
#![tactic(auto)]

ghost use Rattle.std.specs.Prelude.{◌≡◌, ◌+◌, ◌≤◌, ◌<◌, length};
ghost use Rattle.queue.specs.Queue.{InRange};
ghost use Rattle.flight.specs.Flight.{counted};
ghost use Rattle.messages.specs.Cut.{epoch_of, overhead, cut_behind, plan_count, plan_reach};
ghost use Rattle.outgoing.specs.State.{numbered};
ghost use Rattle.messages.specs.Message.{message_answer};
ghost use Rattle.send_words.specs.Words.{queue_of, state_of};
ghost use Rattle.send_words.specs.Partly.{Partly};
ghost use Rattle.save_steps.specs.Save.{Saves};
ghost use Rattle.message_steps.specs.Create.{piece_in, Pieces, Creates};

use flight_words::SAVED;
use messages::{Cut, Plan};
use record::{HANDSHAKE, MAX_BODY};
use send_keys::SendError;
use send_words::{LIMIT, MESSAGE, MTU};

// The dry run over a body of n bytes, behind the queue's end.
fn plan_of(w: &[u64; send_words::WORDS], epoch: u16, n: usize) -> Plan
    requires { InRange (queue_of w.now) }
    ensures { (result.count ≡ plan_count 13 (queue_of w.now).mtu (overhead epoch) (cut_behind (queue_of w.now) n)) × (result.reach ≡ plan_reach 13 (queue_of w.now).mtu (overhead epoch) (cut_behind (queue_of w.now) n)) × (result.count ≤ 13) }
{
    let c = Cut {
        tail: send_steps::tail_of(w),
        rest: n,
    };
    messages::survey(w[MTU] as usize, queue::record_len(epoch, 12), c)
}

// Whether a message can be sent and saved behind so many records, or why not.
fn message_answer(
    w: &[u64; send_words::WORDS],
    saved: usize,
    room: usize,
    kept: usize,
    kind: u8,
    n: usize,
) -> Result<(), SendError>
    ensures { result ≡ message_answer (state_of w.now) (counted saved) room kept kind n }
{
    let epoch = messages::epoch_of(kind);
    if !send_steps::is_ready(w, room) {
        return Err(SendError::OutOfRange);
    }
    if !flight::has_room(saved, w[MTU] as usize, kept) {
        return Err(SendError::OutOfRange);
    }
    if MAX_BODY < n {
        return Err(SendError::BadRecord);
    }
    if !send_steps::is_keyed(w, epoch) {
        return Err(SendError::KeysAbsent);
    }
    if 65535 <= w[MESSAGE] % 65536 {
        return Err(SendError::MessagesSpent);
    }
    let next = send_steps::next_of(w, epoch);
    let plan = plan_of(w, epoch, n);
    messages::plan_answer(saved, w[LIMIT] as usize, next, plan)
}

// A piece sent and saved. Its content is put together in its slot and sent from there.
fn send_piece(
    w: &mut [u64; send_words::WORDS],
    f: &mut [u64; flight_words::WORDS],
    kind: u8,
    body: &[u8],
    at: usize,
    size: usize,
    memory: &mut [u8],
    kept: &mut [u8],
) -> Result<(), SendError>
    requires { (at + size ≤ length body.now) × (length body.now ≤ 16384) }
    ensures { Saves result (epoch_of kind) 22 (piece_in kind w.old body.now at size) w.old w.new f.old f.new memory.old memory.new kept.old kept.new }
{
    let epoch = messages::epoch_of(kind);
    let seq = words::low(w[MESSAGE]);
    let n = 12 + size;
    let saved = f[SAVED] as usize;
    let p = save_steps::save_answer(w, saved, memory.len(), kept.len(), epoch, HANDSHAKE, n)?;
    let from = saved * (w[MTU] as usize);
    let end = from + n;
    messages::write_content(&mut kept[from..end], kind, seq, body, at, size);
    save_steps::lay_saved(w, f, p, epoch, HANDSHAKE, &kept[from..end], memory);
    Ok(())
}

// The pieces sent, one after the other, and saved.
fn send_all(
    w: &mut [u64; send_words::WORDS],
    f: &mut [u64; flight_words::WORDS],
    kind: u8,
    body: &[u8],
    memory: &mut [u8],
    kept: &mut [u8],
) -> Result<(), SendError>
    requires { InRange (queue_of w.old) × (length body.now ≤ 16384) }
    ensures { Pieces result kind body.now w.old w.new f.old f.new memory.old memory.new kept.old kept.new }
{
    let over = queue::record_len(messages::epoch_of(kind), 12);
    let mut a = Ok(());
    let mut at = 0;
    for _n in 0..13usize {
        let used = send_steps::last_len(w);
        let size = messages::piece_size(w[MTU] as usize, over, used, body.len() - at);
        a = send_piece(w, f, kind, body, at, size, memory, kept);
        at += size;
        let all = body.len() - at == 0;
        if all {
            return a;
        }
    }
    a
}

// The next message's number, behind this one.
fn put_message(w: &mut [u64; send_words::WORDS], seq: u64)
    requires { seq < 65535 }
    ensures { Partly (numbered (state_of w.old) (seq + 1)) w.old w.new }
{
    w[MESSAGE] = seq + 1;
}

// A handshake message sent and saved, wholly or not at all.
pub fn create_handshake(
    w: &mut [u64; send_words::WORDS],
    f: &mut [u64; flight_words::WORDS],
    kind: u8,
    body: &[u8],
    memory: &mut [u8],
    kept: &mut [u8],
) -> Result<(), SendError>
    ensures { Creates result kind body.now w.old w.new f.old f.new memory.old memory.new kept.old kept.new }
{
    let seq = w[MESSAGE] % 65536;
    let saved = f[SAVED] as usize;
    message_answer(w, saved, memory.len(), kept.len(), kind, body.len())?;
    // What the dry run found to fit is sent: no piece is refused.
    let _ = send_all(w, f, kind, body, memory, kept);
    put_message(w, seq);
    Ok(())
}
