//! prune: the program of document 01. Standard input has a mode byte, a mask of two bytes and a plan file; the plan is narrowed for all of its
//! fields, and what comes out is listed node by node, or its refusal. Every byte that is written is said by `listing::run`.
#![tactic(auto)]

use std::io;

// The settings, and the plan bytes that are read.
const INPUT: usize = 65539;

fn main(rt: HostRuntime) -> io::Result<()> {
    let mut input = [0u8; INPUT];
    let n = input_bytes::read_full(&mut rt.stdin(), &mut input)?;
    let mut text = [0u8; 16384];
    let m = listing::run(&input[..n], &mut text);
    rt.write_all(&text[..m])
}
