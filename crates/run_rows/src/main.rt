// The worked rows of 01 and 02, run through the code; what they must give stands in the file stdout.
#![tactic(auto)]

use std::io;
use window::{ReplayWindow, Verdict};

// A row of number rebuilding: the number that the code answers.
fn rebuilt(rt: &impl Print, text: &str, s_flag: bool, expected: u64, bits: u64) -> io::Result<()> {
    let n = sequence::reconstruct_sequence(bits, expected, s_flag);
    println!(rt; "{text}{n}")
}

// A row of the replay window: the code's verdict on the number.
fn verdict(rt: &impl Print, text: &str, w: ReplayWindow, n: u64) -> io::Result<()> {
    let word = match w.check(n) {
        Verdict::Fresh => "fresh",
        Verdict::Seen => "seen",
        Verdict::TooOld => "too old",
    };
    println!(rt; "{text}{word}")
}

// A row of a sealed record's header: its bytes in hex.
fn header(rt: &impl Print, text: &str, epoch: u16, n: u64, length: u16) -> io::Result<()> {
    print!(rt; "{text}")?;
    for b in headers::unified_header(epoch, n, length) {
        print!(rt; "{b:02x}")?;
    }
    println!(rt)
}

fn main(rt: HostRuntime) -> io::Result<()> {
    rebuilt(&rt, "16 bits, e 65540, bits 65535: ", true, 65540, 65535)?;
    rebuilt(&rt, "16 bits, e 65530, bits 3: ", true, 65530, 3)?;
    rebuilt(&rt, "16 bits, e 0, bits 40000: ", true, 0, 40000)?;
    rebuilt(&rt, "8 bits, e 266, bits 138: ", false, 266, 138)?;
    rebuilt(&rt, "8 bits, e 200, bits 72: ", false, 200, 72)?;
    rebuilt(&rt, "8 bits, e 0, bits 128: ", false, 0, 128)?;
    rebuilt(&rt, "8 bits, e 0, bits 200: ", false, 0, 200)?;
    let new = ReplayWindow::new();
    verdict(&rt, "new window, 0: ", new, 0)?;
    verdict(&rt, "after 0, 0: ", new.update(0), 0)?;
    let high = new.update(100);
    verdict(&rt, "after 100, 37: ", high, 37)?;
    verdict(&rt, "after 100, 36: ", high, 36)?;
    let five = new.update(5);
    verdict(&rt, "after 5 then 68, 5: ", five.update(68), 5)?;
    verdict(&rt, "after 5 then 69, 5: ", five.update(69), 5)?;
    header(
        &rt,
        "epoch 2, number 0, content 12 + 542, type and tag 17: ",
        2,
        0,
        571,
    )
}
