ghost use Rattle.std.specs.Prelude.{Some};
ghost use Rattle.recoding.specs.Reason.{reason_of};

use digits::digit::Digit;
use numbers::Element;
use std::error::Error;
use std::fmt;

// One step of a recoding: its digit and its remainder.
#[derive(Clone, Copy, Debug, PartialEq, Eq)]
pub struct Entry<C> {
    pub digit: Digit,
    pub remainder: Element<C>,
}

// Why an element was not recoded.
#[derive(Clone, Copy, Debug, PartialEq, Eq)]
pub enum Unexpanded {
    // The base divides a digit of the list.
    Even,
    // After so many steps none can be taken.
    Stuck(usize),
    // The entries are used up, and the remainder is not 0.
    Spent,
}

// What is wrong, for a reader.
impl fmt::Display for Unexpanded {
    ghost output = { λ why. Some (reason_of why) };

    fn fmt<W: fmt::Write>(&self, f: &mut fmt::Formatter<W>) -> fmt::Result {
        f.write_str(match *self {
            Unexpanded::Even => "the base divides a digit",
            Unexpanded::Stuck(_) => "no digit is of the remainder's class",
            Unexpanded::Spent => "the budget of digits is spent",
        })
    }
}

impl Error for Unexpanded {}
