// The vectors of RFC 8439, and that of RFC 9001, whose mask is made in the same way, run through the code; what they must give stands in the
// file stdout. Of a block the sample holds the counter, its lowest byte first, and then the nonce.
#![tactic(auto)]

use chacha::Quad;
use std::io;

// The mask, and the block that it begins; a word's lowest byte comes first.
fn block(rt: &impl Print, text: &str, key: &[u8; 32], sample: &[u8; 16]) -> io::Result<()> {
    let [first, second] = chacha::mask(*key, *sample);
    print!(rt; "{text}{first:02x}{second:02x} ")?;
    for k in 0..chacha::BLOCK_WORDS {
        print!(rt; "{:08x}", chacha::block_word(*key, *sample, k).swap_bytes())?;
    }
    println!(rt)
}

// The words that a quarter round answers.
fn quarter(rt: &impl Print, text: &str, r: Quad) -> io::Result<()> {
    println!(rt; "{text}{:08x} {:08x} {:08x} {:08x}", r.a, r.b, r.c, r.d)
}

// The quarter rounds of RFC 8439, 2.1.1 and 2.2.1.
fn quarter_rounds(rt: &impl Print) -> io::Result<()> {
    quarter(
        rt,
        "2.1.1: ",
        chacha::quarter_round(0x1111_1111, 0x0102_0304, 0x9b8d_6f43, 0x0123_4567),
    )?;
    quarter(
        rt,
        "2.2.1: ",
        chacha::quarter_round(0x5164_61b1, 0x2a5f_714c, 0x5337_2767, 0x3d63_1689),
    )
}

// The blocks of RFC 8439, appendix A.1.
fn appendix(rt: &impl Print) -> io::Result<()> {
    let zero = &[0; 32];
    block(
        rt,
        "A.1, 1: ",
        zero,
        b"\x00\x00\x00\x00\x00\x00\x00\x00\x00\x00\x00\x00\x00\x00\x00\x00",
    )?;
    block(
        rt,
        "A.1, 2: ",
        zero,
        b"\x01\x00\x00\x00\x00\x00\x00\x00\x00\x00\x00\x00\x00\x00\x00\x00",
    )?;
    block(
        rt,
        "A.1, 3: ",
        b"\x00\x00\x00\x00\x00\x00\x00\x00\x00\x00\x00\x00\x00\x00\x00\x00\x00\x00\x00\x00\x00\x00\x00\x00\x00\x00\x00\x00\x00\x00\x00\x01",
        b"\x01\x00\x00\x00\x00\x00\x00\x00\x00\x00\x00\x00\x00\x00\x00\x00",
    )?;
    block(
        rt,
        "A.1, 4: ",
        b"\x00\xff\x00\x00\x00\x00\x00\x00\x00\x00\x00\x00\x00\x00\x00\x00\x00\x00\x00\x00\x00\x00\x00\x00\x00\x00\x00\x00\x00\x00\x00\x00",
        b"\x02\x00\x00\x00\x00\x00\x00\x00\x00\x00\x00\x00\x00\x00\x00\x00",
    )?;
    block(
        rt,
        "A.1, 5: ",
        zero,
        b"\x00\x00\x00\x00\x00\x00\x00\x00\x00\x00\x00\x00\x00\x00\x00\x02",
    )
}

fn main(rt: HostRuntime) -> io::Result<()> {
    let key =
        b"\x00\x01\x02\x03\x04\x05\x06\x07\x08\x09\x0a\x0b\x0c\x0d\x0e\x0f\x10\x11\x12\x13\x14\x15\x16\x17\x18\x19\x1a\x1b\x1c\x1d\x1e\x1f";
    quarter_rounds(&rt)?;
    block(
        &rt,
        "2.3.2: ",
        key,
        b"\x01\x00\x00\x00\x00\x00\x00\x09\x00\x00\x00\x4a\x00\x00\x00\x00",
    )?;
    block(
        &rt,
        "2.4.2, first block: ",
        key,
        b"\x01\x00\x00\x00\x00\x00\x00\x00\x00\x00\x00\x4a\x00\x00\x00\x00",
    )?;
    block(
        &rt,
        "2.4.2, second block: ",
        key,
        b"\x02\x00\x00\x00\x00\x00\x00\x00\x00\x00\x00\x4a\x00\x00\x00\x00",
    )?;
    appendix(&rt)?;
    block(
        &rt,
        "RFC 9001, A.5: ",
        b"\x25\xa2\x82\xb9\xe8\x2f\x06\xf2\x1f\x48\x89\x17\xa4\xfc\x8f\x1b\x73\x57\x36\x85\x60\x85\x97\xd0\xef\xcb\x07\x6b\x0a\xb7\xa7\xa4",
        b"\x5e\x5c\xd5\x5c\x41\xf6\x90\x80\x57\x5d\x79\x99\xc2\x5a\x5b\xfb",
    )?;
    block(
        &rt,
        "counter 0xfffefdfc: ",
        key,
        b"\xfc\xfd\xfe\xff\x01\x02\x03\x04\x05\x06\x07\x08\x09\x0a\x0b\x0c",
    )
}
