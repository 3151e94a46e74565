// One step of recoding: a digit and a remainder.
ghost use Rattle.std.specs.Prelude.{◌≡◌, ◌^◌, MatchOption};
ghost use Rattle.ring.specs.Elem.{Below, sub};
ghost use Rattle.ring.specs.System.{mul};
ghost use Rattle.ring.specs.Class.{Even};
ghost use Rattle.numbers.specs.Meaning.{meaning, short};
ghost use Rattle.digits.specs.Digits.{elem_of, elems};
ghost use Rattle.digits.specs.Stepping.{Stuck, Stepped};

use crate::digit::Digit;
use crate::numeration::Numeration;
use crate::residues::residue;
use numbers::{Asks, Coordinate, Element};

// (z − d)/β, where β divides z − near and near − d: their quotients, added. Neither difference leaves the working limit, whatever z below it.
pub fn remainder<C: Coordinate, S: Asks<C> + Asks<i32>>(
    system: &S,
    z: Element<C>,
    near: Element<i32>,
    digit: Digit,
) -> Element<C>
    requires inward { Below C.WORKING (sub (meaning C.value z) (short near)) }
    requires small { Below (2 ^ 24) (short near) }
    requires far { Even S.ring (sub (meaning C.value z) (short near)) }
    requires close { Even S.ring (sub (short near) (elem_of digit)) }
    ensures { mul S.ring S.ring.β (meaning C.value result) ≡ sub (meaning C.value z) (elem_of digit) }
{
    let high = system.quotient(&z.minus(Element::from_short(near)));
    let low = system.quotient(&system.subtract(&near, digit.element()));
    high.plus(Element::from_short(low))
}

impl<'s, 'd, S: Asks<i32>> Numeration<'s, 'd, S> {
    // The step from z: no digit and z/β where β divides z, else the digit of z's class and (z − d)/β.
    // None exactly where z is not below the working limit, or β does not divide it and no digit of the list is of its class.
    pub fn step<C: Coordinate>(&self, z: Element<C>) -> Option<(Digit, Element<C>)>
    where
        S: Asks<C>,
        ensures { MatchOption result (Stuck S.ring C.WORKING self.now.width.places (elems self.now.digits.now) (meaning C.value z)) (λ p. Stepped S.ring C.WORKING self.now.width.places (elems self.now.digits.now) (meaning C.value z) (elem_of p.0) (meaning C.value p.1)) }
    {
        if !z.works() {
            return None;
        }
        if self.system.divides(&z) {
            return Some((Digit::none(), self.system.quotient(&z)));
        }
        let near = residue::<C, S>(self.width, z);
        let digit = self.digit_of(near)?;
        Some((digit, remainder(self.system, z, near, digit)))
    }
}
