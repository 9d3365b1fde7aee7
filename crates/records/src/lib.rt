// The cut of an arriving datagram, after `Records::parse_records` of incoming.rs: the questions that the host's cipher
// answers.
#![tactic(auto)]

ghost use Rattle.std.specs.Prelude.{◌≡◌, ◌+◌, ◌≤◌};
ghost use Rattle.records.specs.Records.{mask_asked, opening_asked};

use datagram::{Ask, Datagram, Question, Reading, Step};
use record::Ciphertext;
use recv_keys::RecvEpochEntry;

pub fn ask_mask(b: Datagram, epoch: u16, c: Ciphertext) -> Step
    requires { b.at + c.header_len ≤ 16384 }
    ensures { result ≡ mask_asked b epoch c }
{
    let start = b.at + c.header_len;
    let a = Ask {
        epoch: epoch,
        s_flag: c.s_flag,
        header_len: c.header_len,
        length: c.length,
    };
    datagram::tell(
        Datagram {
            size: b.size,
            at: b.at,
            readings: b.readings,
            question: Question::Mask(a),
        },
        Reading::Mask {
            epoch: epoch,
            start: start,
        },
    )
}

// ---- the opening question

#[tactic(auto, unfolding(crate::specs::Records::opening_asked))]
pub fn ask_opening(e: RecvEpochEntry, b: Datagram, a: Ask, number: u64) -> Step
    ensures { result ≡ opening_asked e b a number }
{
    let iv = e.iv;
    let nonce = dtls_aead::nonce_xor(iv, number);
    Step {
        reading: Reading::Opening {
            epoch: a.epoch,
            number: number,
            start: b.at,
            header_len: a.header_len,
            length: a.length,
        },
        nonce: nonce,
        datagram: Datagram {
            size: b.size,
            at: b.at,
            readings: b.readings,
            question: Question::Opening(a, number),
        },
    }
}
