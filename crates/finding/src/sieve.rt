// Shells of norms, whose elements are sifted in any order.

ghost use Rattle.std.specs.Prelude.{◌≡◌, ◌≤◌, pos, ◌≤ℤ◌, ⊤};
ghost use Rattle.finding.specs.Finding.{Bounds};

use crate::shells::reach;
use rounds::Dynamics;
use std::alloc::AllocError;

// The shell of the elements of norm from `from` to `top`, none of whose coordinates passes `reach`.
pub struct Sieve<'d, D: Dynamics> {
    pub map: &'d D,
    pub from: u32,
    pub top: u32,
    pub reach: i32,
    ghost inside: { top ≤ D.cap map.now },
    ghost low: { pos 0 ≤ℤ reach },
    ghost high: { reach ≤ℤ pos 2046 },
    ghost bounds: { Bounds top reach },
}

// By hand, since a struct with a ghost field over a parameter has no derived Clone.
impl<'d, D: Dynamics> Copy for Sieve<'d, D> {}

impl<'d, D: Dynamics> Clone for Sieve<'d, D> {
    ghost is_clone = { λ s r. r ≡ s };

    ghost is_infallible = { λ _. ⊤ };

    fn clone(&self) -> Result<Self, AllocError> {
        Ok(*self)
    }
}

impl<'d, D: Dynamics> Sieve<'d, D> {
    // The shell of the norms from `from` to `top`.
    pub fn new(map: &'d D, from: u32, top: u32) -> Self
        requires { top ≤ D.cap map.now }
        ensures map { result.map.now ≡ map.now }
        ensures from { result.from ≡ from }
        ensures top { result.top ≡ top }
    {
        Sieve {
            map,
            from,
            top,
            reach: reach(top),
        }
    }
}
