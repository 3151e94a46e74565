// A small element of an element's class: its residue modulo p^w, which β^w divides.
ghost use Rattle.std.specs.Prelude.{◌≡◌, ◌^◌, ◌≤◌};
ghost use Rattle.ring.specs.Elem.{Below, sub};
ghost use Rattle.ring.specs.Class.{SameClass};
ghost use Rattle.numbers.specs.Meaning.{meaning, short};

use crate::width::Width;
use numbers::{Coordinate, Element, Ruled};

// p^w. By a loop: `pow` took near three times as long at the widest widths, and each step and each class count asks for it.
pub fn modulus<S: Ruled>(width: Width) -> u32
    ensures is { result ≡ S.ring.p ^ width.places }
    ensures some { 2 ≤ result }
    ensures most { result ≤ 2 ^ 24 }
{
    let p = S::BASE_NORM;
    let mut all: u32 = 1;
    for _ in 0..width.places() {
        all *= p;
    }
    all
}

// An element of z's class with both magnitudes below p^w; z less it is no farther from 0 than z.
pub fn residue<C: Coordinate, S: Ruled>(width: Width, z: Element<C>) -> Element<i32>
    requires { Below C.WORKING (meaning C.value z) }
    ensures small { Below (2 ^ 24) (short result) }
    ensures class { SameClass S.ring width.places (meaning C.value z) (short result) }
    ensures inward { Below C.WORKING (sub (meaning C.value z) (short result)) }
{
    z.rest(modulus::<S>(width) as i32)
}
