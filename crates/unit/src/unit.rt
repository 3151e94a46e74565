use digits::verdict::Verdict;
use numbers::{Coordinate, Element, NumberSystem};
use rules::calls::Standing;
use sets::table::DigitSet;

pub mod calls;
pub mod tells;

// A number system, an engine and a set of digits with its width; how the unit stands; the run that is on, or the last one;
// and the verdict of the last accepted check while it lasts.
#[derive(Drop)]
pub struct Unit<S: NumberSystem, E> {
    system: S,
    engine: E,
    set: DigitSet,
    standing: Standing,
    ticks: u32,
    remainder: Element<S::Kind>,
    verdict: Option<Verdict>,
}
