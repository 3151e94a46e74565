// Trails: an element, what a map makes of it, and so on.

ghost use Rattle.std.specs.Prelude.{◌≡◌, ◌≤◌, ⊤};
ghost use Rattle.ring.specs.System.{size};
ghost use Rattle.numbers.specs.Meaning.{short};

use crate::dynamics::Dynamics;
use crate::order::Ranked;
use numbers::Element;
use std::alloc::AllocError;

// The trail of an element under a map, where the element is of norm at most `cap`, as all that follow then are.
pub struct Trail<'d, D: Dynamics> {
    pub map: &'d D,
    pub first: Ranked,
    ghost ranked: { first.norm ≡ size (D.ring map.now) (short first.element) },
    ghost inside: { size (D.ring map.now) (short first.element) ≤ D.cap map.now },
}

// By hand, since a struct with a ghost field over a parameter has no derived Clone.
impl<'d, D: Dynamics> Copy for Trail<'d, D> {}

impl<'d, D: Dynamics> Clone for Trail<'d, D> {
    ghost is_clone = { λ s r. r ≡ s };

    ghost is_infallible = { λ _. ⊤ };

    fn clone(&self) -> Result<Self, AllocError> {
        Ok(*self)
    }
}

impl<'d, D: Dynamics> Trail<'d, D> {
    // The trail of z.
    pub fn new(map: &'d D, z: Element<i32>) -> Self
        requires { size (D.ring map.now) (short z) ≤ D.cap map.now }
        ensures map { result.map.now ≡ map.now }
        ensures first { result.first.element ≡ z }
    {
        Trail {
            map,
            first: map.rank(z),
        }
    }
}
