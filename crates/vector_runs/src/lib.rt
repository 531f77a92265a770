//! vector_runs: what the programs that replay vectors share. Standard input has a vector a line; a program answers for each by a closure. What
//! differs is written, and then how many vectors of each code are as they should be.
#![tactic(auto)]

ghost use Rattle.std.specs.Prelude.{IfOk, MatchBool, MatchResult, ◌≡◌, ◌≤◌, ◌⊎◌, length};
ghost use Rattle.vector_runs.specs.Runs.{wanted_of, Agrees, Holds, Misses, ReadUpTo};

use answers::Answer;
use std::fmt::Display;
use std::io::Read;
use std::{fmt, io};

/// What stands in the output buffer before a call.
pub const FILL: u8 = 165;

/// The codes that there can be, and those between them.
pub const CODES: usize = 19;

// An input is read whole, up to this many bytes.
const INPUT: usize = 524288;

/// The answer that a vector has.
#[derive(Clone, Copy)]
pub struct Wanted {
    pub code: usize,
    pub length: usize,
    pub place: usize,
}

/// The answer that a vector was given, as it is written where it differs.
#[derive(Clone, Copy)]
pub struct Given(pub Answer);

impl Display for Given {
    fn fmt<W: fmt::Write>(&self, f: &mut fmt::Formatter<W>) -> fmt::Result {
        let Given(a) = self;
        write!(f, "code {} length {} place {}", a.code, a.length, a.place)
    }
}

/// The code, length and place that stand in a line from field k on, the code below `codes`.
pub fn wanted_at(line: &[u8], k: usize, codes: usize) -> Option<Wanted>
    requires { k ≤ 9 }
    ensures { result ≡ wanted_of codes k line.now }
{
    let code = vector_text::number_at(line, k)?;
    let length = vector_text::number_at(line, k + 1)?;
    let place = vector_text::number_at(line, k + 2)?;
    if codes <= code {
        return None;
    }
    Some(Wanted {
        code,
        length,
        place,
    })
}

/// Does the buffer hold these letters, and behind them what it held before?
pub fn holds<L: Fn(u8) -> u8>(out: &[u8], text: &[u8], letter: L) -> bool
    requires { L.IsAlwaysCallable letter }
    ensures { MatchBool result (Holds (L.post letter) out.now text.now) (Misses (L.post letter) out.now text.now) }
{
    if out.len() < text.len() {
        return false;
    }
    let (front, rest) = out.split_at(text.len());
    front.iter().zip(text.iter()).all(|(&x, &b)| x == letter(b)) && rest.iter().all(|&x| x == FILL)
}

/// An answer and the whole buffer, compared with a vector's: the code that it has and was given, or what it was given instead.
pub fn judge<L: Fn(u8) -> u8>(
    a: Answer,
    w: Wanted,
    out: &[u8],
    text: &[u8],
    letter: L,
) -> Result<usize, Given>
    requires { L.IsAlwaysCallable letter }
    ensures { MatchResult result (λ code. (code ≡ a.code) × Agrees a w (length text.now) × Holds (L.post letter) out.now text.now) (λ given. (given.0 ≡ a) × ((Agrees a w (length text.now) → ⊥) ⊎ Misses (L.post letter) out.now text.now)) }
{
    let code = usize::from(a.code);
    let same = code == w.code && a.length == w.length && a.place == w.place;
    if same && text.len() == w.length && holds(out, text, letter) {
        Ok(code)
    } else {
        Err(Given(a))
    }
}

// How many vectors of each code are as they should be, and how many lines are not.
#[derive(Clone, Copy)]
struct Tally {
    same: [u64; CODES],
    lines: u64,
    bad: u64,
}

impl Tally {
    // One more line, and what came of it.
    fn count<G: Display + Drop>(
        &mut self,
        rt: &impl Print,
        got: Option<Result<usize, G>>,
    ) -> io::Result<()> {
        self.lines = self.lines.wrapping_add(1);
        let at = self.lines;
        match got {
            Some(Ok(code)) => {
                if code < CODES {
                    self.same[code] = self.same[code].wrapping_add(1);
                }
                return Ok(());
            }
            Some(Err(given)) => println!(rt; "line {at} differs: {given}")?,
            None => println!(rt; "line {at} is no vector")?,
        }
        self.bad = self.bad.wrapping_add(1);
        Ok(())
    }

    // The numbers, those of the codes where `listed` says so.
    fn print<L: Fn(u64) -> bool>(&self, rt: &impl Print, listed: L) -> io::Result<()>
        requires { L.IsAlwaysCallable listed }
    {
        println!(rt; "vectors {}", self.lines)?;
        for (code, &n) in self.same.iter().enumerate() {
            if listed(n) {
                println!(rt; "code {code}: {n}")?;
            }
        }
        println!(rt; "differ {}", self.bad)
    }
}

// Runs every line.
fn lines<G: Display + Drop, R: Fn(&[u8]) -> Option<Result<usize, G>>>(
    rt: &impl Print,
    all: &[u8],
    run: R,
) -> io::Result<Tally>
    requires { R.IsAlwaysCallable run }
{
    let mut tally = Tally {
        same: [0; CODES],
        lines: 0,
        bad: 0,
    };
    for line in all.split_inclusive(|&b| b == b'\n') {
        let line = line.strip_suffix(b"\n").unwrap_or(line);
        tally.count(rt, run(line))?;
    }
    Ok(tally)
}

// Room for an input. It is a function of its own since no proof closes where so long an array is written out beside other steps.
fn input_buffer() -> [u8; INPUT]
    ensures { 524288 ≡ length result }
{
    [0; INPUT]
}

/// Runs every line of an input. `run` answers for a line with the code that the vector has and was given, or else with what it was given instead;
/// with `None` where the line is no vector. `listed` says whether a code is listed of which so many vectors are as they should be.
pub fn replay<
    I: Read,
    G: Display + Drop,
    R: Fn(&[u8]) -> Option<Result<usize, G>>,
    L: Fn(u64) -> bool,
>(rt: &impl Print, input: &mut I, run: R, listed: L) -> io::Result<()>
    requires any_line { R.IsAlwaysCallable run }
    requires any_number { L.IsAlwaysCallable listed }
    // Of an input of which it is known what it has left: this is read whole, or its first 524,288 bytes. What is printed, no clause can say.
    ensures { IfOk result (λ _. ReadUpTo 524288 (I.remaining input.old) (I.remaining input.new)) }
{
    let mut buffer = input_buffer();
    let n = input_bytes::read_full(input, &mut buffer)?;
    if n == INPUT {
        return println!(rt; "more than 524,287 bytes");
    }
    let tally = lines(rt, &buffer[..n], run)?;
    tally.print(rt, listed)
}
