//! key_vectors: runs stored vectors through the entries `join_keys` and `without_keys`, and writes which of them get another answer.
//!
//! Standard input has a vector a line: `room predicate => code length place out`, or for the second entry `room predicate keys => code length place
//! out`. Numbers are decimal, bytes hexadecimal, `-` where there are none. The output buffer has `room` bytes, none of them 0 before the call. Code,
//! length, place and every byte of the buffer are compared: past the length, and all of it on a refusal, the bytes must be as they were. A line of
//! another form counts as one that differs.
#![tactic(auto)]

use std::io;
use vector_runs::{CODES, FILL, Given};

// A line of the entry `join_keys`.
fn run_join(line: &[u8]) -> Option<Result<usize, Given>> {
    let wanted = vector_runs::wanted_at(line, 3, CODES)?;
    let room = vector_text::number_at(line, 0)?;
    let mut predicate = [0u8; 65536];
    let n = vector_text::bytes_at(line, 1, &mut predicate)?;
    let mut bytes = [0u8; 65536];
    let size = vector_text::bytes_at(line, 6, &mut bytes)?;
    let mut out = [FILL; 65536];
    let a = predicate_keys::join_keys(predicate.get(..n)?, out.get_mut(..room)?);
    Some(vector_runs::judge(a, wanted, &out, bytes.get(..size)?, |b| b))
}

// A line of the entry `without_keys`.
fn run_without(line: &[u8]) -> Option<Result<usize, Given>> {
    let wanted = vector_runs::wanted_at(line, 4, CODES)?;
    let room = vector_text::number_at(line, 0)?;
    let mut predicate = [0u8; 65536];
    let n = vector_text::bytes_at(line, 1, &mut predicate)?;
    let mut keys = [0u8; 65536];
    let m = vector_text::bytes_at(line, 2, &mut keys)?;
    let mut bytes = [0u8; 65536];
    let size = vector_text::bytes_at(line, 7, &mut bytes)?;
    let mut out = [FILL; 65536];
    let a = predicate_keys::without_keys(predicate.get(..n)?, keys.get(..m)?, out.get_mut(..room)?);
    Some(vector_runs::judge(a, wanted, &out, bytes.get(..size)?, |b| b))
}

// A line of one entry or of the other: the arrow stands after one argument or after two.
fn run(line: &[u8]) -> Option<Result<usize, Given>> {
    if vector_text::is_word(line, 2, b"=>") {
        return run_join(line);
    }
    if vector_text::is_word(line, 3, b"=>") {
        return run_without(line);
    }
    None
}

fn main(rt: HostRuntime) -> io::Result<()> {
    vector_runs::replay(&rt, &mut rt.stdin(), |line| run(line), |_| true)
}
