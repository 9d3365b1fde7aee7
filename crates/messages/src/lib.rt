// A handshake message cut into pieces, each sent as a record of its own and saved, after `create_handshake` of engine.rs.
#![tactic(auto)]

ghost use Rattle.std.specs.Prelude.{true, ◌≡◌, length};
ghost use Prim.Native.Nat.{◌+◌, ◌-◌, ◌≤◌, ◌<◌};
ghost use Rattle.std.proofs.Math.Dec as tests;
ghost use Rattle.queue.specs.Queue.{Tailed};
ghost use Rattle.messages.specs.Cut.{epoch_of, piece_size, cut_next, plan_count, plan_reach, Sound};
ghost use Rattle.send_keys.specs.Keys.{used};
ghost use Rattle.messages.specs.Message.{content_of, plan_answer};

use flight::RECORDS;
use handshake::Header;
use queue::Tail;
use record::LAST_NUMBER;
use send_keys::SendError;

// The bytes of a handshake header.
const HEADER_LEN: usize = 12;

// What is left to cut: the queue's end, and the bytes of the body that are left.
#[derive(Clone, Copy)]
pub struct Cut {
    pub tail: Tail,
    pub rest: usize,
}

// How many pieces there are, and how many datagrams the queue then has.
#[derive(Clone, Copy)]
pub struct Plan {
    pub count: usize,
    pub reach: usize,
}

// ClientHello and ServerHello use epoch 0, every other message epoch 2.
#[tactic(auto, unfolding(crate::specs::Cut::epoch_of, base::specs::Choose::choose, base::specs::Choose::either))]
pub fn epoch_of(kind: u8) -> u16
    ensures { result ≡ epoch_of kind }
{
    match kind {
        1 | 2 => 0,
        _ => 2,
    }
}

// How many bytes of the body the next piece takes.
#[tactic(auto, unfolding(crate::specs::Cut::piece_size, base::specs::Choose::choose))]
pub fn piece_size(mtu: usize, over: usize, used: usize, rest: usize) -> usize
    requires { (576 ≤ mtu) × (over ≤ 34) × (used ≤ 65535) }
    ensures { result ≡ piece_size mtu over used rest }
{
    let room = if used + over < mtu {
        mtu - used - over
    } else {
        mtu - over
    };
    rest.min(room)
}

// What is left behind the next piece.
fn cut_next(mtu: usize, over: usize, c: Cut) -> Cut
    requires { (576 ≤ mtu) × (mtu ≤ 1500) × (over ≤ 34) × Tailed c.tail × (c.tail.count ≤ 64) }
    ensures { result ≡ cut_next mtu over c }
{
    let t = c.tail;
    let size = piece_size(mtu, over, t.used, c.rest);
    let n = size + over;
    let p = queue::place_of(mtu, t, n);
    Cut {
        tail: Tail {
            used: p.offset + n,
            joinable: true,
            count: p.datagram + 1,
        },
        rest: c.rest - size,
    }
}

// A dry run: how many pieces there are, up to thirteen, and how many datagrams the queue then has.
pub fn survey(mtu: usize, over: usize, from: Cut) -> Plan
    requires { (576 ≤ mtu) × (mtu ≤ 1500) × (over ≤ 34) × Sound 13 mtu from }
    ensures { (result.count ≡ plan_count 13 mtu over from) × (result.reach ≡ plan_reach 13 mtu over from) }
{
    let mut c = from;
    let mut top: usize = 0;
    for n in 0..13 {
        c = cut_next(mtu, over, c);
        top = top.max(c.tail.count);
        if c.rest == 0 {
            return Plan {
                count: n + 1,
                reach: top,
            };
        }
    }
    Plan {
        count: 13,
        reach: top,
    }
}

// The content of a piece's record: the handshake header, and the piece of the body.
pub fn write_content(d: &mut [u8], kind: u8, seq: u16, body: &[u8], at: usize, size: usize)
    requires { (length d.old ≡ 12 + size) × (at + size ≤ length body.now) × (length body.now ≤ 16384) }
    ensures { d.new ≡ content_of kind seq body.now at size }
{
    let to = at + size;
    let h = Header {
        msg_type: kind,
        length: body.len() as u32,
        message_seq: seq,
        fragment_offset: at as u32,
        fragment_length: size as u32,
    };
    d[..HEADER_LEN].copy_from_slice(&h.serialize());
    d[HEADER_LEN..].copy_from_slice(&body[at..to]);
}

// Whether flight, queue and numbers have room for what was planned.
#[tactic(auto, unfolding(base::specs::Choose::choose))]
pub fn plan_answer(saved: usize, limit: usize, next: u64, p: Plan) -> Result<(), SendError>
    requires { (saved ≤ 12) × (p.count ≤ 13) }
    ensures { result ≡ plan_answer saved limit next p.count p.reach }
{
    if RECORDS < saved + p.count {
        return Err(SendError::FlightFull);
    }
    if limit < p.reach {
        return Err(SendError::QueueFull);
    }
    if LAST_NUMBER < next.saturating_add(p.count as u64) {
        return Err(SendError::NumbersSpent);
    }
    Ok(())
}
