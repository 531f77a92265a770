//! replay: runs stored vectors through the public entries `prune`, `prune_all` and `check`, and writes which of them get another answer.
//!
//! Standard input has a vector a line, all numbers decimal: of `check` as `file => code place nodes fields`, of the others as
//! `mode mask room request file => code length place out`. The request is `*` for all
//! fields, `-` for no indices, else a list with commas; file and out are hexadecimal, `-` where empty. The output buffer has `room` bytes, none
//! of them 0 before the call. Code, length, place and every byte of the buffer are compared: past the length, and all of it on a refusal, the
//! bytes must be as they were. A line of another form counts as one that differs.
#![tactic(auto)]

use acceptance::Checked;
use std::fmt::Display;
use std::{fmt, io};
use vector_runs::{FILL, Given};

// The codes of an answer are below this: document 01's table, and 17.
const CODES: usize = 18;

// What a vector was given, of `prune` or of `check`, as it is written where it differs.
#[derive(Clone, Copy)]
enum Shown {
    Answer(Given),
    Checked(Checked),
}

impl Display for Shown {
    fn fmt<W: fmt::Write>(&self, f: &mut fmt::Formatter<W>) -> fmt::Result {
        match self {
            Shown::Answer(given) => write!(f, "{given}"),
            Shown::Checked(c) => write!(
                f,
                "code {} place {} nodes {} fields {}",
                c.code, c.place, c.nodes, c.fields
            ),
        }
    }
}

// A line of `check`.
fn run_check(line: &[u8]) -> Option<Result<usize, Shown>> {
    if !vector_text::is_word(line, 6, b"") {
        return None;
    }
    let mut file = [0u8; 65536];
    let size = vector_text::bytes_at(line, 0, &mut file)?;
    let c = acceptance::check(file.get(..size)?);
    let code = usize::from(c.code);
    let same = vector_text::number_at(line, 2) == Some(code)
        && vector_text::number_at(line, 3) == Some(c.place)
        && vector_text::number_at(line, 4) == Some(c.nodes)
        && vector_text::number_at(line, 5) == Some(c.fields);
    Some(if same {
        Ok(code)
    } else {
        Err(Shown::Checked(c))
    })
}

// The call that a line asks for, with all fields or with those of a list.
fn call(line: &[u8], file: &[u8], out: &mut [u8]) -> Option<answers::Answer> {
    let mode = u8::try_from(vector_text::number_at(line, 0)?).ok()?;
    let mask = u16::try_from(vector_text::number_at(line, 1)?).ok()?;
    if vector_text::is_word(line, 3, b"*") {
        return Some(pruner::prune_all(mode, mask, file, out));
    }
    let mut list = [0u16; 640];
    let n = vector_text::list_at(line, 3, &mut list)?;
    Some(pruner::prune(mode, mask, file, list.get(..n)?, out))
}

// A line of `prune` or of `prune_all`.
fn run_prune(line: &[u8]) -> Option<Result<usize, Shown>> {
    if !vector_text::is_word(line, 5, b"=>") || !vector_text::is_word(line, 10, b"") {
        return None;
    }
    let wanted = vector_runs::wanted_at(line, 6, CODES)?;
    let room = vector_text::number_at(line, 2)?;
    let mut file = [0u8; 65536];
    let size = vector_text::bytes_at(line, 4, &mut file)?;
    let mut bytes = [0u8; 65536];
    let length = vector_text::bytes_at(line, 9, &mut bytes)?;
    if length != wanted.length {
        return None;
    }
    let mut out = [FILL; 65536];
    let a = call(line, file.get(..size)?, out.get_mut(..room)?)?;
    let judged = vector_runs::judge(a, wanted, &out, bytes.get(..length)?, |b| b);
    Some(judged.map_err(Shown::Answer))
}

fn run(line: &[u8]) -> Option<Result<usize, Shown>> {
    if vector_text::is_word(line, 1, b"=>") {
        return run_check(line);
    }
    run_prune(line)
}

fn main(rt: HostRuntime) -> io::Result<()> {
    vector_runs::replay(&rt, &mut rt.stdin(), |line| run(line), |n| n > 0)
}
