// Elements x + yθ with coordinates of one kind.

ghost use Rattle.std.specs.Prelude.{◌≡◌, ◌*◌, pos, ◌≤ℤ◌, Decides, MatchOption, Some, codes};
ghost use Rattle.std.specs.Fmt.{◌++?◌};
ghost use Rattle.ring.specs.Elem.{𝟘, Below, add, sub};
ghost use Rattle.numbers.specs.Meaning.{meaning, short};
ghost use Rattle.numbers.specs.Question.{rests};

use crate::kinds::Coordinate;
use std::fmt;

// An element, by its two coordinates. Elements are in order by x, then by y.
#[derive(Clone, Copy, Debug, PartialEq, Eq, PartialOrd, Ord)]
pub struct Element<C> {
    pub x: C,
    pub y: C,
}

impl<C: Coordinate> Element<C> {
    // The element 0.
    pub fn zero() -> Self
        ensures { meaning C.value result ≡ 𝟘 }
    {
        Element {
            x: C::from(0),
            y: C::from(0),
        }
    }

    // Whether the element is 0.
    pub fn is_zero(self) -> bool
        ensures { Decides result (meaning C.value self ≡ 𝟘) }
    {
        self == Element::zero()
    }

    // Whether both coordinates may be loaded.
    pub fn loads(self) -> bool
        ensures { Decides result (Below C.LOADING (meaning C.value self)) }
    {
        self.x.loads() && self.y.loads()
    }

    // Whether both coordinates may be worked with.
    pub fn works(self) -> bool
        ensures { Decides result (Below C.WORKING (meaning C.value self)) }
    {
        self.x.works() && self.y.works()
    }

    // The same element at this kind. `From` cannot say it: at the short kind it would be the conversion of a type to itself, which std has.
    pub fn from_short(z: Element<i32>) -> Self
        ensures { meaning C.value result ≡ short z }
    {
        Element {
            x: C::from(z.x),
            y: C::from(z.y),
        }
    }

    // The element of long coordinates at this kind, if it may be loaded.
    pub fn load(z: Element<i64>) -> Option<Self>
        ensures { MatchOption result (Below C.LOADING (short z) → ⊥) (λ e. Below C.LOADING (short z) × (meaning C.value e ≡ short z)) }
    {
        let x = C::load(z.x)?;
        let y = C::load(z.y)?;
        Some(Element { x, y })
    }

    // The sum.
    pub fn plus(self, other: Self) -> Self
        requires { Below (8 * C.WORKING) (add (meaning C.value self) (meaning C.value other)) }
        ensures { meaning C.value result ≡ add (meaning C.value self) (meaning C.value other) }
    {
        Element {
            x: self.x + other.x,
            y: self.y + other.y,
        }
    }

    // The difference.
    pub fn minus(self, other: Self) -> Self
        requires { Below (8 * C.WORKING) (sub (meaning C.value self) (meaning C.value other)) }
        ensures { meaning C.value result ≡ sub (meaning C.value self) (meaning C.value other) }
    {
        Element {
            x: self.x - other.x,
            y: self.y - other.y,
        }
    }

    // The remainders of both coordinates.
    pub fn rest(self, divisor: i32) -> Element<i32>
        requires { pos 2 ≤ℤ divisor }
        ensures { short result ≡ rests (meaning C.value self) divisor }
    {
        Element {
            x: self.x.rest(divisor),
            y: self.y.rest(divisor),
        }
    }
}

// Its coordinates, as `x,y`.
impl<C: fmt::Display> fmt::Display for Element<C> {
    ghost output = { λ z. C.output z.x ++? Some (codes ",") ++? C.output z.y };

    fn fmt<W: fmt::Write>(&self, f: &mut fmt::Formatter<W>) -> fmt::Result {
        write!(f, "{},{}", self.x, self.y)
    }
}
