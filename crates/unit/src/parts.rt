// What the calls of a unit are made of.
ghost use Rattle.std.specs.Prelude.{◌≡◌, ◌<◌, ◌⊎◌, Decides, MatchOption};
ghost use Rattle.numbers.specs.Meaning.{meaning as meant};
ghost use Rattle.digits.specs.Digits.{elem_of};
ghost use Rattle.rules.specs.Views.{ring_of};
ghost use Rattle.rules.specs.Table.{Matches};
ghost use Rattle.rules.specs.Told.{left, Closes, Moved};

use digits::digit::Digit;
use digits::verdict::Verdict;
use digits::width::Width;
use engine::PointEngine;
use numbers::{Coordinate, Element, Ruled};
use rules::calls::Standing;

// The width, if the system serves it.
pub fn served<S: Ruled>(places: u64) -> Option<Width>
    ensures { MatchOption result ((places ≡ 0) ⊎ (S.WIDEST < places)) (λ w. (w.places ≡ places) × (((places ≡ 0) ⊎ (S.WIDEST < places)) → ⊥)) }
{
    if places == 0 || places > u64::from(S::WIDEST) {
        return None;
    }
    Width::new(places as u32)
}

// How a verdict leaves a unit.
pub fn left_by(verdict: Verdict) -> Standing
    ensures { result ≡ left verdict }
{
    match verdict {
        Verdict::Cleared => Standing::Cleared,
        Verdict::Barred { .. } => Standing::Barred,
    }
}

// How a load or a tick leaves a unit, by the remainder.
pub fn left_with<C: Coordinate>(remainder: Element<C>) -> Standing
    ensures { Closes (meant C.value remainder) result }
{
    if remainder.is_zero() {
        Standing::Cleared
    } else {
        Standing::Running
    }
}

// Whether the engine's t and n are the system's.
pub fn matches<S: Ruled, E: PointEngine>(engine: &E) -> bool
    ensures { Decides result (Matches S.ring (ring_of (E.machine.meaning engine.now))) }
{
    S::TRACE == engine.t() && S::NORM == engine.n()
}

// Adds a digit to the engine, and moves it by the base.
pub fn feed<S: Ruled, E: PointEngine>(engine: &mut E, digit: Digit)
    ensures { Moved E.machine (elem_of digit) S.ring.β engine.old engine.new }
{
    let d = digit.element();
    let base = S::BASE;
    engine.add(d.x, d.y);
    engine.shift(base.x, base.y);
}
