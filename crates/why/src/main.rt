// Why records of a receive history were left out (02, 8): 8-byte records on standard input, a line for each on standard output.
#![tactic(auto)]

use anyhow::{Error, Result, anyhow};
use reason_steps::{INPUT_ROOM, LINES_ROOM};
use std::io;
use std::io::Read;

// Says what could not be read on or written.
fn tell_broken(what: &str, e: io::Error) -> Error {
    anyhow!("{what}: {e}")
}

// Reads a history into a buffer that holds as much as is read of one, and writes its lines by way of another.
fn answer(rt: &(impl Input + Print), input: &mut [u8], lines: &mut [u8]) -> Result<()> {
    let mut room: &mut [u8] = &mut input[..];
    let n = io::copy(&mut rt.reader().take(INPUT_ROOM as u64), &mut room).map_err(|e| tell_broken(
        "standard input",
        e,
    ))?;
    let text = reason_steps::explain(base::fragment(input, 0, n as usize), lines);
    rt.write_all(text)
        .map_err(|e| tell_broken("standard output", e))
}

// The buffers by their sizes, which a slice would not show.
fn with_buffers(
    rt: &(impl Input + Print),
    input: &mut [u8; INPUT_ROOM],
    lines: &mut [u8; LINES_ROOM],
) -> Result<()> {
    answer(rt, input, lines)
}

fn main(rt: HostRuntime) -> Result<()> {
    let mut input = [0u8; INPUT_ROOM];
    let mut lines = [0u8; LINES_ROOM];
    with_buffers(&rt, &mut input, &mut lines)
}
