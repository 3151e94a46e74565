// The calls of a unit, what they answer, and how a unit stands.
use digits::verdict::Verdict;
use numbers::Element;
use refusals::Refusal;

// How a unit stands.
#[derive(Clone, Copy, Debug, PartialEq, Eq)]
pub enum Standing {
    // The set of digits is not checked since it last changed.
    Draft,
    // The set is cleared, and no run is on.
    Cleared,
    // The set is barred.
    Barred,
    // A run is on.
    Running,
}

// A call of a unit, with numbers of any size that a caller may have.
#[derive(Clone, Copy, Debug, PartialEq, Eq)]
pub enum Call {
    Width(u64),
    Put(i64, i64),
    Take(i64, i64),
    Check,
    Load(Element<i64>),
    Tick,
    Abandon,
}

// What a call answers, refusals among the rest, and not a Result around it: a history holds every answer, and what is said of histories is said of each case.
#[derive(Clone, Copy, Debug, PartialEq, Eq)]
pub enum Answer {
    // The number of classes at the width.
    Classes(u32),
    // The number of digits held.
    Held(usize),
    // The verdict on the set.
    Judged(Verdict),
    Loaded,
    // The digit of the tick, 0 where β divides the remainder.
    Digit(Element<i32>),
    Abandoned,
    Refused(Refusal),
}

// A call, its answer, and how the unit stands after it.
#[derive(Clone, Copy, Debug, PartialEq, Eq)]
pub struct Event {
    pub call: Call,
    pub answer: Answer,
    pub standing: Standing,
}
