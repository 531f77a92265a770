//! prune_runs: stored runs of the program `prune`. Standard input has what a run is given, a line each, in hexadecimal (`-` for nothing); what the
//! program prints of each is written, one after the other.
#![tactic(auto)]

use std::io;

// What a run is given at the most: the settings, and the plan bytes that are read.
const GIVEN: usize = 65539;

// Standard input is read whole, up to this many bytes.
const INPUT: usize = 131072;

// What the program prints where it is given these bytes.
fn print(rt: &impl Print, given: &[u8]) -> io::Result<()> {
    let mut text = [0u8; 16384];
    let m = listing::run(given, &mut text);
    rt.write_all(&text[..m])
}

// One run.
fn run(rt: &impl Print, line: &[u8]) -> io::Result<()> {
    let mut given = [0u8; GIVEN];
    let n = vector_text::bytes(line, &mut given);
    match n.and_then(|n| given.get(..n)) {
        Some(given) => print(rt, given),
        None => println!(rt; "a line that is no run"),
    }
}

fn main(rt: HostRuntime) -> io::Result<()> {
    let mut input = [0u8; INPUT];
    let n = input_bytes::read_full(&mut rt.stdin(), &mut input)?;
    for line in input[..n].split_inclusive(|&b| b == b'\n') {
        run(&rt, line.strip_suffix(b"\n").unwrap_or(line))?;
    }
    Ok(())
}
