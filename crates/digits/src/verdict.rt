ghost use Rattle.std.specs.Prelude.{Some};
ghost use Rattle.digits.specs.Verdicts.{verdict_text};

use numbers::Element;
use std::fmt;

// A verdict on a full set of digits. It is no Option of a witness: both cases have names that everything above says, sheets and listings too.
#[derive(Clone, Copy, Debug, PartialEq, Eq)]
pub enum Verdict {
    // Every element has an expansion.
    Cleared,
    // The first element that has none, and the lead and the period of its trail.
    Barred {
        first: Element<i32>,
        lead: u32,
        period: u32,
    },
}

// As `cleared`, or as `barred x,y lead period`.
impl fmt::Display for Verdict {
    ghost output = { λ verdict. Some (verdict_text verdict) };

    fn fmt<W: fmt::Write>(&self, f: &mut fmt::Formatter<W>) -> fmt::Result {
        match *self {
            Verdict::Cleared => f.write_str("cleared"),
            Verdict::Barred {
                first,
                lead,
                period,
            } => write!(f, "barred {} {} {}", first, lead, period),
        }
    }
}
