// How calls, answers and standings are printed for a reader.
ghost use Rattle.std.specs.Prelude.{Some};
ghost use Rattle.rules.specs.Shown.{standing_text, call_text, answer_text, event_text};

use crate::calls::{Answer, Call, Event, Standing};
use std::fmt;

impl fmt::Display for Standing {
    ghost output = { λ standing. Some (standing_text standing) };

    fn fmt<W: fmt::Write>(&self, f: &mut fmt::Formatter<W>) -> fmt::Result {
        f.write_str(match *self {
            Standing::Draft => "draft",
            Standing::Cleared => "cleared",
            Standing::Barred => "barred",
            Standing::Running => "running",
        })
    }
}

impl fmt::Display for Call {
    ghost output = { λ call. Some (call_text call) };

    fn fmt<W: fmt::Write>(&self, f: &mut fmt::Formatter<W>) -> fmt::Result {
        match *self {
            Call::Width(places) => write!(f, "width {}", places),
            Call::Put(x, y) => write!(f, "put {},{}", x, y),
            Call::Take(x, y) => write!(f, "take {},{}", x, y),
            Call::Check => f.write_str("check"),
            Call::Load(z) => write!(f, "load {}", z),
            Call::Tick => f.write_str("tick"),
            Call::Abandon => f.write_str("abandon"),
        }
    }
}

impl fmt::Display for Answer {
    ghost output = { λ answer. Some (answer_text answer) };

    fn fmt<W: fmt::Write>(&self, f: &mut fmt::Formatter<W>) -> fmt::Result {
        match *self {
            Answer::Classes(number) => write!(f, "{} classes", number),
            Answer::Held(number) => write!(f, "{} held", number),
            Answer::Judged(verdict) => write!(f, "{}", verdict),
            Answer::Loaded => f.write_str("loaded"),
            Answer::Digit(digit) => write!(f, "digit {}", digit),
            Answer::Abandoned => f.write_str("abandoned"),
            Answer::Refused(refusal) => write!(f, "refused {} {}", u8::from(refusal), refusal),
        }
    }
}

// The call, its answer, and how the unit then stood.
impl fmt::Display for Event {
    ghost output = { λ event. Some (event_text event) };

    fn fmt<W: fmt::Write>(&self, f: &mut fmt::Formatter<W>) -> fmt::Result {
        write!(f, "{}: {}; {}", self.call, self.answer, self.standing)
    }
}
