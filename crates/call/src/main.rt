//! call: a library entry as a program. Standard input names the entry and has its arguments, standard output gets its answer, as crate `calls` says,
//! whose `run` says every byte that is written.
#![tactic(auto)]

use std::io;

// Standard input is read up to this many bytes; what is behind them counts as cut off. A file of 65,536 bytes and a request of 65,536 indices fit.
const INPUT: usize = 262144;

fn main(rt: HostRuntime) -> io::Result<()> {
    let mut input = [0u8; INPUT];
    let n = input_bytes::read_full(&mut rt.stdin(), &mut input)?;
    let mut text = [0u8; 65600];
    let m = calls::run(&input[..n], &mut text);
    rt.write_all(&text[..m])
}
