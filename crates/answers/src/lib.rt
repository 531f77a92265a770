//! answers: the answer of an entry, a code, a length and a place, as C and the programs are given it.
#![tactic(auto)]

ghost use Rattle.std.specs.Prelude.{◌≡◌};
ghost use Rattle.answers.specs.Answers.{answer_of};

use refusals::Refusal;

/// A code, a length and a place: 0 with the bytes written and place 0, or a refusal with length 0. The code is a number as the C
/// interface gives it; within the library an answer is a `Result` of the length.
#[derive(Clone, Copy)]
pub struct Answer {
    pub code: u8,
    pub length: usize,
    pub place: usize,
}

impl From<Result<usize, Refusal>> for Answer {
    ghost from_gives = { λ written answer. answer ≡ answer_of written };

    fn from(written: Result<usize, Refusal>) -> Answer {
        match written {
            Ok(length) => Answer {
                code: 0,
                length,
                place: 0,
            },
            Err(refusal) => Answer {
                code: refusal.code(),
                length: 0,
                place: refusal.place,
            },
        }
    }
}
