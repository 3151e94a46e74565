// Why a call is refused: one closed list, by which every promise of the repository names a refusal.

#![tactic(auto)]

ghost use Rattle.std.specs.Prelude.{◌≡◌, Some};
ghost use Rattle.refusals.specs.Refusal.{number_of, word_of};

use std::error::Error;
use std::fmt;

#[derive(Clone, Copy, Debug, PartialEq, Eq)]
pub enum Refusal {
    // A call that changes the set, or a load, while a run is on.
    Busy = 1,
    // A width of 0, or above the widest.
    Width = 2,
    // A coordinate outside −255 to 255.
    Range = 3,
    // An element that the base divides.
    Even = 4,
    // A digit of that class is held.
    Doubled = 5,
    // A digit that is not held.
    Absent = 6,
    // A set that is not full.
    Open = 7,
    // A load in draft or barred.
    Uncleared = 8,
    // The engine's t or n is not the system's.
    Ring = 9,
    // An element beyond the loading limit.
    Long = 10,
    // A tick or an abandon with no run on.
    Idle = 11,
    // A modulus outside 2 to 2^31 − 1.
    Modulus = 12,
    // A root, a start, a t or an n that does not fit.
    Root = 13,
    // A sheet line of no shape.
    Line = 14,
    // A sheet above 32,768 bytes.
    Sheet = 15,
    // A buffer under 80 bytes.
    Narrow = 16,
}

// Its number, from 1 to 16.
impl From<Refusal> for u8 {
    ghost from_gives = { λ r n. n ≡ number_of r };

    fn from(refusal: Refusal) -> u8 {
        refusal as u8
    }
}

impl Refusal {
    // Its word.
    pub fn word(self) -> &'static str
        ensures { result.now ≡ word_of self }
    {
        match self {
            Refusal::Busy => "busy",
            Refusal::Width => "width",
            Refusal::Range => "range",
            Refusal::Even => "even",
            Refusal::Doubled => "doubled",
            Refusal::Absent => "absent",
            Refusal::Open => "open",
            Refusal::Uncleared => "uncleared",
            Refusal::Ring => "ring",
            Refusal::Long => "long",
            Refusal::Idle => "idle",
            Refusal::Modulus => "modulus",
            Refusal::Root => "root",
            Refusal::Line => "line",
            Refusal::Sheet => "sheet",
            Refusal::Narrow => "narrow",
        }
    }
}

// Its word.
impl fmt::Display for Refusal {
    ghost output = { λ r. Some (word_of r) };

    fn fmt<W: fmt::Write>(&self, f: &mut fmt::Formatter<W>) -> fmt::Result {
        f.write_str(self.word())
    }
}

impl Error for Refusal {}
