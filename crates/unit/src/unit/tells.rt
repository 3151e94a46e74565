ghost use Rattle.std.specs.Prelude.{◌≡◌, ◌+◌, ◌/◌, ◌<◌, ◌≤◌, length, MatchOption, slice_index_or};
ghost use Rattle.ring.specs.Elem.{𝟘};
ghost use Rattle.numbers.specs.Meaning.{meaning as meant};
ghost use Rattle.digits.specs.Digits.{elem_of};
ghost use Rattle.rules.specs.Views.{new as fresh};
ghost use Rattle.unit.specs.Seen.{view};

use crate::unit::Unit;
use digits::digit::Digit;
use digits::verdict::Verdict;
use digits::width::Width;
use engine::PointEngine;
use numbers::{Asks, Coordinate, Element, NumberSystem, Ruled};
use rules::calls::Standing;
use sets::table::DigitSet;

impl<S: NumberSystem, E: PointEngine> Unit<S, E> {
    // A new unit: width 1, no digits, draft, 0 ticks, remainder 0, and the engine as it comes.
    pub fn new(system: S, engine: E) -> Self
        ensures is { view S.Kind.value result ≡ fresh engine }
        ensures system { result.system ≡ system }
    {
        Unit {
            system,
            engine,
            set: DigitSet::new(Width::narrowest()),
            standing: Standing::Draft,
            ticks: 0,
            remainder: Element::zero(),
            verdict: None,
        }
    }

    // How the unit stands.
    pub fn standing(&self) -> Standing
        ensures { result ≡ (view S.Kind.value self.now).standing }
    {
        self.standing
    }

    // The width.
    pub fn width(&self) -> u32
        ensures { result ≡ (view S.Kind.value self.now).width }
    {
        self.set.width().places()
    }

    // How many digits are held.
    pub fn held(&self) -> usize
        ensures { result ≡ length (view S.Kind.value self.now).digits }
    {
        self.set.len()
    }

    // The digit held at a place, and none past the last.
    pub fn digit(&self, place: usize) -> Option<Digit>
        ensures { MatchOption result (length (view S.Kind.value self.now).digits ≤ place) (λ d. (place < length (view S.Kind.value self.now).digits) × (elem_of d ≡ slice_index_or (view S.Kind.value self.now).digits place 𝟘)) }
    {
        self.set.digit(place)
    }

    // The ticks of the last run.
    pub fn ticks(&self) -> u32
        ensures { result ≡ (view S.Kind.value self.now).ticks }
    {
        self.ticks
    }

    // The remainder.
    pub fn remainder(&self) -> Element<S::Kind>
        ensures { meant S.Kind.value result ≡ (view S.Kind.value self.now).remainder }
    {
        self.remainder
    }

    // The verdict of the last accepted check, while it lasts.
    pub fn verdict(&self) -> Option<Verdict>
        ensures { result ≡ (view S.Kind.value self.now).verdict }
    {
        self.verdict
    }

    // The engine, to be read only.
    pub fn engine(&self) -> &E
        ensures { result.now ≡ (view S.Kind.value self.now).engine }
    {
        &self.engine
    }

    // The multiples that an engine stores ahead: half the digits held, rounded up.
    pub fn table_need(&self) -> usize
        ensures { result ≡ (length (view S.Kind.value self.now).digits + 1) / 2 }
    {
        self.set.len().div_ceil(2)
    }
}
