//! refusals: why an input is refused, and where. The codes of document 01's "Numbers returned" have their names here, and are numbers again only where C
//! or a program is given them.
#![tactic(auto)]

ghost use Rattle.std.specs.Prelude.{◌≡◌};
ghost use Rattle.refusals.specs.Codes.{code_of};

/// Why an input is refused, by document 01's names.
#[derive(Clone, Copy, PartialEq, Eq)]
pub enum Reason {
    Setting,
    Mark,
    Cut,
    Value,
    Many,
    Tail,
    Clash,
    Unknown,
    Width,
    Fields,
    Request,
    Large,
    Room,
    Ambiguous,
    Pairs,
}

impl From<Reason> for u8 {
    ghost from_gives = { λ reason n. n ≡ code_of reason };

    fn from(reason: Reason) -> u8 {
        match reason {
            Reason::Setting => 1,
            Reason::Mark => 2,
            Reason::Cut => 3,
            Reason::Value => 4,
            Reason::Many => 5,
            Reason::Tail => 6,
            Reason::Clash => 7,
            Reason::Unknown => 8,
            Reason::Width => 9,
            Reason::Fields => 10,
            Reason::Request => 11,
            Reason::Large => 12,
            Reason::Room => 13,
            Reason::Ambiguous => 17,
            Reason::Pairs => 18,
        }
    }
}

/// A refusal: why, and document 01's place.
#[derive(Clone, Copy, PartialEq, Eq)]
pub struct Refusal {
    pub reason: Reason,
    pub place: usize,
}

impl Refusal {
    /// The refusal for this reason at this place.
    pub fn new(reason: Reason, place: usize) -> Self
        ensures { (result.reason ≡ reason) × (result.place ≡ place) }
    {
        Self { reason, place }
    }

    /// The number that C and the programs are given for the reason.
    pub fn code(self) -> u8
        ensures { result ≡ code_of self.reason }
    {
        u8::from(self.reason)
    }
}
