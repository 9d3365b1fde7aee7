// The C interface, one static library for hosts: each call of recv_calls, classify_calls, mask_calls, send_calls, flight_calls, ack_calls,
// status_calls and assembly_calls as a C function with the same contract, its refusal told as 01's number. The library keeps no state.
#![tactic(auto)]

ghost use Rattle.std.specs.Prelude.{◌≡◌};
ghost use Rattle.receiving.specs.Receiving.{refusal_number};
ghost use Rattle.recv_calls.specs.Flat.{number_of};
ghost use Rattle.recv_calls.specs.Calls as receive;
ghost use Rattle.classify_calls.specs.Calls as classify;
ghost use Rattle.mask_calls.specs.Calls as masked;
ghost use Rattle.send_calls.specs.Calls as sends;
ghost use Rattle.flight_calls.specs.Calls as flights;
ghost use Rattle.ack_calls.specs.Calls as acks;
ghost use Rattle.status_calls.specs.Calls as status;
ghost use Rattle.assembly_calls.specs.Calls as pieces;

use ack_calls::HuskAcked;
use answers::HuskTold;
use assembly::PieceError;
use assembly_calls::HuskPiece;
use classify_calls::{HuskClass, PENDING};
use mask_calls::MaskedKeyError;
use mask_keys::{RECEIVE, SEND};
use receiving::Refusal;
use recv_calls::HuskReading;
use recv_words::WORDS;
use send_calls::{HuskPart, HuskSealing, HuskTake};
use status_calls::{HuskQueued, HuskSaved};

// ---- receiving

// The C interface has numbers: that of a refusal, or 0.
fn receive_number(a: Result<(), Refusal>) -> u8
    ensures { result ≡ number_of a }
{
    match a {
        Ok(()) => 0,
        Err(r) => u8::from(r),
    }
}

fn masked_receive_number(a: Result<(), MaskedKeyError<Refusal>>) -> u8
    ensures { result ≡ masked.masked_number refusal_number a }
{
    match a {
        Ok(()) => 0,
        Err(MaskedKeyError::Refused(r)) => u8::from(r),
        Err(MaskedKeyError::BadMaskKey) => 27,
    }
}

#[unsafe(no_mangle)]
pub extern "C" fn husk_receiving_init_words(
    w: &mut [u64; WORDS],
    x: &mut [u64; PENDING],
    k: &mut [u8; RECEIVE],
    min_protected: usize,
) -> u8
    ensures { masked.FreshCall result w.new x.new k.new min_protected }
{
    receive_number(mask_calls::fresh(w, x, k, min_protected))
}

#[unsafe(no_mangle)]
pub extern "C" fn husk_receiving_key_words(
    w: &mut [u64; WORDS],
    k: &mut [u8; RECEIVE],
    epoch: u16,
    iv: &[u8; 12],
) -> u8
    ensures { masked.KeyReceiveCall result w.new w.old k.new k.old epoch iv.now }
{
    receive_number(mask_calls::key_receive(w, k, epoch, iv))
}

#[unsafe(no_mangle)]
pub extern "C" fn husk_receiving_key_masked_words(
    w: &mut [u64; WORDS],
    k: &mut [u8; RECEIVE],
    epoch: u16,
    iv: &[u8; 12],
    mask_key: &[u8],
) -> u8
    ensures { masked.KeyReceiveMaskedCall result w.new w.old k.new k.old epoch iv.now mask_key.now }
{
    masked_receive_number(mask_calls::key_receive_masked(w, k, epoch, iv, mask_key))
}

#[unsafe(no_mangle)]
pub extern "C" fn husk_receiving_remove_words(
    w: &mut [u64; WORDS],
    k: &mut [u8; RECEIVE],
    epoch: u16,
) -> HuskTold
    ensures { masked.RemoveReceiveCall result w.new w.old k.new k.old epoch }
{
    mask_calls::remove_receive(w, k, epoch)
}

#[unsafe(no_mangle)]
pub extern "C" fn husk_receiving_enable_encryption(w: &mut [u64; WORDS]) -> u8
    ensures { receive.EnablePeerEncryptionCall result w.new w.old }
{
    receive_number(recv_calls::enable_peer_encryption(w))
}

#[unsafe(no_mangle)]
pub extern "C" fn husk_receiving_release_application_data(w: &mut [u64; WORDS]) -> u8
    ensures { receive.ReleaseApplicationDataCall result w.new w.old }
{
    receive_number(recv_calls::release_application_data(w))
}

#[unsafe(no_mangle)]
pub extern "C" fn husk_receiving_begin_words(
    w: &mut [u64; WORDS],
    x: &mut [u64; PENDING],
    n: usize,
) -> u8
    ensures { classify.BeginCall result w.new w.old x.new x.old n }
{
    receive_number(classify_calls::begin(w, x, n))
}

#[unsafe(no_mangle)]
pub extern "C" fn husk_receiving_read_words(
    w: &mut [u64; WORDS],
    x: &mut [u64; PENDING],
    k: &[u8; RECEIVE],
    d: &mut [u8],
) -> HuskReading
    ensures { masked.ReadCall result w.new w.old x.new x.old k.now d.new d.old }
{
    mask_calls::read(w, x, k, d)
}

#[unsafe(no_mangle)]
pub extern "C" fn husk_receiving_begin_read_words(
    w: &mut [u64; WORDS],
    x: &mut [u64; PENDING],
    k: &[u8; RECEIVE],
    d: &mut [u8],
) -> HuskReading
    ensures { masked.BeginReadCall result w.new w.old x.new x.old k.now d.new d.old }
{
    mask_calls::begin_read(w, x, k, d)
}

#[unsafe(no_mangle)]
pub extern "C" fn husk_receiving_mask(
    w: &mut [u64; WORDS],
    mask_0: u8,
    mask_1: u8,
    d: &mut [u8],
) -> HuskReading
    ensures { receive.MaskCall result w.new w.old mask_0 mask_1 d.new d.old }
{
    recv_calls::mask(w, mask_0, mask_1, d)
}

#[unsafe(no_mangle)]
pub extern "C" fn husk_receiving_opened_words(
    w: &mut [u64; WORDS],
    x: &mut [u64; PENDING],
    opened: u8,
    length: usize,
    d: &[u8],
) -> HuskReading
    ensures { classify.OpenedCall result w.new w.old x.new x.old opened length d.now }
{
    classify_calls::opened(w, x, opened, length, d)
}

#[unsafe(no_mangle)]
pub extern "C" fn husk_receiving_classify_words(
    w: &mut [u64; WORDS],
    x: &mut [u64; PENDING],
    f: &mut [u64; flight_words::WORDS],
    numbers: &mut [u64; 384],
    d: &[u8],
) -> HuskClass
    ensures { classify.ClassifyCall result w.new w.old x.new x.old f.new f.old numbers.new numbers.old d.now }
{
    classify_calls::classify(w, x, f, numbers, d)
}

// ---- sending

#[unsafe(no_mangle)]
pub extern "C" fn husk_sending_init_words(
    w: &mut [u64; send_words::WORDS],
    k: &mut [u8; SEND],
    mtu: usize,
    limit: usize,
) -> u8
    ensures { masked.FreshSendCall result w.new k.new mtu limit }
{
    send_keys::refusal(mask_calls::fresh_sending(w, k, mtu, limit))
}

#[unsafe(no_mangle)]
pub extern "C" fn husk_sending_key_words(
    w: &mut [u64; send_words::WORDS],
    k: &mut [u8; SEND],
    epoch: u16,
    iv: &[u8; 12],
) -> u8
    ensures { masked.KeySendCall result w.new w.old k.new k.old epoch iv.now }
{
    send_keys::refusal(mask_calls::key_send(w, k, epoch, iv))
}

#[unsafe(no_mangle)]
pub extern "C" fn husk_sending_key_masked_words(
    w: &mut [u64; send_words::WORDS],
    k: &mut [u8; SEND],
    epoch: u16,
    iv: &[u8; 12],
    mask_key: &[u8],
) -> u8
    ensures { masked.KeySendMaskedCall result w.new w.old k.new k.old epoch iv.now mask_key.now }
{
    mask_calls::masked_number(mask_calls::key_send_masked(w, k, epoch, iv, mask_key))
}

#[unsafe(no_mangle)]
pub extern "C" fn husk_sending_send(
    w: &mut [u64; send_words::WORDS],
    epoch: u16,
    content_type: u8,
    content: &[u8],
    queue: &mut [u8],
) -> u8
    ensures { sends.SendCall result w.new w.old epoch content_type content.now queue.new queue.old }
{
    send_keys::refusal(send_calls::send(w, epoch, content_type, content, queue))
}

#[unsafe(no_mangle)]
pub extern "C" fn husk_sending_sealing(w: &[u64; send_words::WORDS]) -> HuskSealing
    ensures { sends.SealingCall result w.now }
{
    send_calls::sealing(w)
}

#[unsafe(no_mangle)]
pub extern "C" fn husk_sending_sealed_words(
    w: &mut [u64; send_words::WORDS],
    k: &[u8; SEND],
    length: usize,
    mask_0: u8,
    mask_1: u8,
    queue: &mut [u8],
) -> u8
    ensures { masked.SealedCall result w.new w.old k.now length mask_0 mask_1 queue.new queue.old }
{
    sealing::refusal(mask_calls::sealed(w, k, length, mask_0, mask_1, queue))
}

#[unsafe(no_mangle)]
pub extern "C" fn husk_sending_take(
    w: &mut [u64; send_words::WORDS],
    buffer: &mut [u8],
    queue: &[u8],
) -> HuskTake
    ensures { sends.TakeCall result w.new w.old buffer.new buffer.old queue.now }
{
    send_calls::take(w, buffer, queue)
}

#[unsafe(no_mangle)]
pub extern "C" fn husk_sending_take_in_place(
    w: &mut [u64; send_words::WORDS],
    queue: &[u8],
) -> HuskPart
    ensures { sends.TakeInPlaceCall result w.new w.old queue.now }
{
    send_calls::take_in_place(w, queue)
}

// ---- saved records and handshake messages

#[unsafe(no_mangle)]
pub extern "C" fn husk_flight_init_words(
    f: &mut [u64; flight_words::WORDS],
    numbers: &mut [u64; 384],
)
    ensures { flights.FreshCall f.new numbers.new }
{
    flight_calls::fresh(f, numbers)
}

#[unsafe(no_mangle)]
pub extern "C" fn husk_flight_begin_words(f: &mut [u64; flight_words::WORDS]) -> u8
    ensures { flights.BeginFlightCall result f.new f.old }
{
    send_keys::refusal(flight_calls::begin_flight(f))
}

#[unsafe(no_mangle)]
pub extern "C" fn husk_flight_send_words(
    w: &mut [u64; send_words::WORDS],
    f: &mut [u64; flight_words::WORDS],
    numbers: &mut [u64; 384],
    epoch: u16,
    content_type: u8,
    content: &[u8],
    queue: &mut [u8],
    kept: &mut [u8],
) -> u8
    ensures { flights.SendSavedCall result w.new w.old f.new f.old numbers.new numbers.old epoch content_type content.now queue.new queue.old kept.new kept.old }
{
    send_keys::refusal(flight_calls::send_saved(
        w,
        f,
        numbers,
        epoch,
        content_type,
        content,
        queue,
        kept,
    ))
}

#[unsafe(no_mangle)]
pub extern "C" fn husk_flight_message_words(
    w: &mut [u64; send_words::WORDS],
    f: &mut [u64; flight_words::WORDS],
    numbers: &mut [u64; 384],
    kind: u8,
    body: &[u8],
    queue: &mut [u8],
    kept: &mut [u8],
) -> u8
    ensures { flights.CreateHandshakeCall result w.new w.old f.new f.old numbers.new numbers.old kind body.now queue.new queue.old kept.new kept.old }
{
    send_keys::refusal(flight_calls::create_handshake(w, f, numbers, kind, body, queue, kept))
}

// ---- resends and ACKs

#[unsafe(no_mangle)]
pub extern "C" fn husk_flight_resend_words(
    w: &mut [u64; send_words::WORDS],
    f: &mut [u64; flight_words::WORDS],
    numbers: &mut [u64; 384],
    kept: &[u8],
    queue: &mut [u8],
) -> HuskTold
    ensures { acks.ResendCall result w.new w.old f.new f.old numbers.new numbers.old kept.now queue.new queue.old }
{
    ack_calls::resend(w, f, numbers, kept, queue)
}

#[unsafe(no_mangle)]
pub extern "C" fn husk_flight_ack_words(
    f: &mut [u64; flight_words::WORDS],
    numbers: &mut [u64; 384],
    content: &[u8],
) -> HuskAcked
    ensures { acks.ProcessAckCall result f.new f.old numbers.new numbers.old content.now }
{
    ack_calls::process_ack(f, numbers, content)
}

#[unsafe(no_mangle)]
pub extern "C" fn husk_notes_init_words(
    count: &mut [u64; 1],
    epochs: &mut [u64; 32],
    numbers: &mut [u64; 32],
)
    ensures { acks.FreshNotesCall (acks.notes_of count.new epochs.new numbers.new) }
{
    ack_calls::fresh_notes(count, epochs, numbers)
}

#[unsafe(no_mangle)]
pub extern "C" fn husk_notes_add_words(
    count: &mut [u64; 1],
    epochs: &mut [u64; 32],
    numbers: &mut [u64; 32],
    epoch: u64,
    number: u64,
) -> HuskTold
    ensures { acks.NoteCall result (acks.notes_of count.new epochs.new numbers.new) (acks.notes_of count.old epochs.old numbers.old) epoch number }
{
    ack_calls::note(count, epochs, numbers, epoch, number)
}

#[unsafe(no_mangle)]
pub extern "C" fn husk_notes_send_words(
    w: &mut [u64; send_words::WORDS],
    count: &mut [u64; 1],
    epochs: &mut [u64; 32],
    numbers: &mut [u64; 32],
    queue: &mut [u8],
) -> HuskTold
    ensures { acks.SendAckCall result w.new w.old (acks.notes_of count.new epochs.new numbers.new) (acks.notes_of count.old epochs.old numbers.old) queue.new queue.old }
{
    ack_calls::send_ack(w, count, epochs, numbers, queue)
}

// ---- what is saved, not acknowledged, queued, and waits to be sealed

#[unsafe(no_mangle)]
pub extern "C" fn husk_flight_status_words(f: &[u64; flight_words::WORDS]) -> HuskSaved
    ensures { status.FlightStatusCall result f.now }
{
    status_calls::flight_status(f)
}

#[unsafe(no_mangle)]
pub extern "C" fn husk_sending_status(w: &[u64; send_words::WORDS]) -> HuskQueued
    ensures { status.SendingStatusCall result w.now }
{
    status_calls::sending_status(w)
}

// ---- whole handshake messages

fn piece_number(a: Result<(), PieceError>) -> u8
    ensures { result ≡ pieces.number_of a }
{
    match a {
        Ok(()) => 0,
        Err(e) => u8::from(e),
    }
}

#[unsafe(no_mangle)]
pub extern "C" fn husk_assembly_init(w: &mut [u64; assembly_steps::WORDS])
    ensures { pieces.FreshCall w.new }
{
    assembly_calls::fresh(w)
}

#[unsafe(no_mangle)]
pub extern "C" fn husk_assembly_begin(w: &mut [u64; assembly_steps::WORDS], n: usize) -> u8
    ensures { pieces.BeginCall result w.new w.old n }
{
    piece_number(assembly_calls::begin(w, n))
}

#[unsafe(no_mangle)]
pub extern "C" fn husk_assembly_take(
    w: &mut [u64; assembly_steps::WORDS],
    content: &[u8],
    buffer: &mut [u8],
) -> HuskPiece
    ensures { pieces.TakeCall result w.new w.old content.now buffer.new buffer.old }
{
    assembly_calls::take_piece(w, content, buffer)
}
