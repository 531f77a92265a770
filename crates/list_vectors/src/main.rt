//! list_vectors: runs stored vectors through the entry `list_plan`, and writes which of them get another answer.
//!
//! Standard input has a vector a line: `room file => code length place text`. Numbers are decimal, bytes hexadecimal; the text is the rest of the line,
//! with `|` for each newline, or `-` where there is none. The output buffer has `room` bytes, at most 262,144, none of them 0 before the call. Code,
//! length, place and every byte of the buffer are compared: past the length, and all of it on a refusal, the bytes must be as they were. A line of
//! another form counts as one that differs.
#![tactic(auto)]

use std::io;
use vector_runs::{CODES, FILL, Given};

// A letter of a vector's text as it stands in a listing.
fn letter(b: u8) -> u8 {
    if b == b'|' { b'\n' } else { b }
}

fn run(line: &[u8]) -> Option<Result<usize, Given>> {
    let wanted = vector_runs::wanted_at(line, 3, CODES)?;
    let room = vector_text::number_at(line, 0)?;
    let mut file = [0u8; 131072];
    let n = vector_text::bytes_at(line, 1, &mut file)?;
    let mut out = [FILL; 262144];
    let lent = out.get_mut(..room.min(262144))?;
    let a = list_plan::list_plan(file.get(..n)?, lent);
    // The text is the rest of the line: all that stands behind six spaces.
    let rest = line.splitn(7, |&b| b == b' ').nth(6).unwrap_or(&[]);
    let text = rest.get(..wanted.length);
    Some(text.map_or(
        Err(Given(a)),
        |text| vector_runs::judge(a, wanted, &out, text, letter),
    ))
}

fn main(rt: HostRuntime) -> io::Result<()> {
    vector_runs::replay(&rt, &mut rt.stdin(), |line| run(line), |_| true)
}
