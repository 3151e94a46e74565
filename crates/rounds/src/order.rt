// The order in which elements are looked at: by norm, then x, then y.

ghost use Rattle.std.specs.Prelude.{◌≡◌, ◌≤◌, Decides};
ghost use Rattle.ring.specs.System.{size};
ghost use Rattle.ring.specs.Verdict.{Before};
ghost use Rattle.numbers.specs.Meaning.{short};
ghost use Rattle.rounds.specs.Order.{Ordered};

use crate::dynamics::Dynamics;
use numbers::Element;

// An element with its norm. Such are in order by norm, then x, then y.
#[derive(Clone, Copy, Debug, PartialEq, Eq, PartialOrd, Ord)]
pub struct Ranked {
    pub norm: u32,
    pub element: Element<i32>,
}

impl Ranked {
    // Whether it comes before another, as `<` says.
    // The norms are compared first: `<` alone looks at the coordinates too at each step of a trail, which took a sixth more instructions.
    pub fn precedes(self, other: Ranked) -> bool
        ensures { Decides result (Ordered self.norm (short self.element) other.norm (short other.element)) }
    {
        self.norm <= other.norm && self < other
    }
}

// Whether a comes before b, which is of any norm.
pub fn before<D: Dynamics>(map: &D, a: Element<i32>, b: Ranked) -> bool
    requires inside { size (D.ring map.now) (short a) ≤ D.cap map.now }
    requires is { b.norm ≡ size (D.ring map.now) (short b.element) }
    ensures { Decides result (Before (D.ring map.now) (short a) (short b.element)) }
{
    map.rank(a).precedes(b)
}
