// Classes of short elements: two are of one class if β^w divides their difference.
ghost use Rattle.std.specs.Prelude.{◌≡◌, ◌^◌, Decides, MatchOption};
ghost use Rattle.ring.specs.Elem.{Below};
ghost use Rattle.ring.specs.Class.{SameClass};
ghost use Rattle.numbers.specs.Meaning.{short};
ghost use Rattle.digits.specs.Digits.{AllOdd, elem_of, elems};
ghost use Rattle.digits.specs.Stepping.{FirstOf, Unclassed};

use crate::digit::Digit;
use crate::numeration::Numeration;
use numbers::{Asks, Element};

impl<'s, 'd, S: Asks<i32>> Numeration<'s, 'd, S> {
    // Whether a is of the digit's class: the difference is divided by the base as often as the width says.
    pub fn same_class(&self, a: Element<i32>, digit: Digit) -> bool
        requires { Below (2 ^ 24) (short a) }
        ensures { Decides result (SameClass S.ring self.now.width.places (short a) (elem_of digit)) }
    {
        let mut rest = self.system.subtract(&a, digit.element());
        for k in 0..self.width.places() {
            if !self.system.divides(&rest) {
                return false;
            }
            rest = self.system.quotient(&rest);
        }
        true
    }

    // The first digit of the list that is of a's class. Each is tested where it stands and the one found is copied; copied first, each would be read whole, at the cost of time.
    pub fn digit_of(&self, a: Element<i32>) -> Option<Digit>
        requires { Below (2 ^ 24) (short a) }
        ensures { MatchOption result (Unclassed S.ring self.now.width.places (elems self.now.digits.now) (short a)) (λ d. FirstOf S.ring self.now.width.places (elems self.now.digits.now) (short a) (elem_of d)) }
    {
        self.digits
            .iter()
            .find(|d| self.same_class(a, **d))
            .copied()
    }

    // Whether β divides none of the digits.
    pub fn all_odd(&self) -> bool
        ensures { Decides result (AllOdd S.ring (elems self.now.digits.now)) }
    {
        self.digits
            .iter()
            .all(|d| !self.system.divides(&d.element()))
    }
}
