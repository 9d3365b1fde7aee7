// Record headers written, after `Dtls13Record::serialize` of record.rs.
#![tactic(auto)]

ghost use Rattle.std.specs.Prelude.{◌≡◌};
ghost use Rattle.record.specs.Record.{plaintext_header, unified_header};

use record::{PLAINTEXT_HEADER_LEN, SEALED_HEADER_LEN};

// The header of a plaintext record: epoch 0, the low 48 bits of the number.
pub fn plaintext_header(
    content_type: u8,
    sequence_number: u64,
    length: u16,
) -> [u8; PLAINTEXT_HEADER_LEN]
    ensures { result ≡ plaintext_header content_type sequence_number length }
{
    let [major, minor] = record::DTLS1_2;
    let [_, _, n0, n1, n2, n3, n4, n5] = sequence_number.to_be_bytes();
    let [l0, l1] = length.to_be_bytes();
    [
        content_type,
        major,
        minor,
        0,
        0,
        n0,
        n1,
        n2,
        n3,
        n4,
        n5,
        l0,
        l1,
    ]
}

// The unified header of a sealed record, its number not yet masked: two number bytes, a length.
pub fn unified_header(epoch: u16, sequence_number: u64, length: u16) -> [u8; SEALED_HEADER_LEN]
    ensures { result ≡ unified_header epoch sequence_number length }
{
    let [_, _, _, _, _, _, n0, n1] = sequence_number.to_be_bytes();
    let [l0, l1] = length.to_be_bytes();
    [0x2C + (epoch % 4) as u8, n0, n1, l0, l1]
}
