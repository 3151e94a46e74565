ghost use Rattle.std.specs.Prelude.{◌≡◌, MatchOption};
ghost use Rattle.ring.specs.Elem.{𝟘};
ghost use Rattle.ring.specs.Class.{InRange};
ghost use Rattle.numbers.specs.Meaning.{short};
ghost use Rattle.digits.specs.Digits.{elem_of};

use crate::digit::Digit;
use numbers::Element;

// The largest magnitude of a digit's coordinate.
const REACH: i64 = 255;

impl Digit {
    // The digit 0, which is no digit of a set. A step answers it, and no Option, where the base divides: an expansion has the entry 0 there.
    pub fn none() -> Digit
        ensures { elem_of result ≡ 𝟘 }
    {
        Digit {
            element: Element { x: 0, y: 0 },
        }
    }

    // The element (x, y) as a digit, if both coordinates are from −255 to 255.
    pub fn new(x: i64, y: i64) -> Option<Digit>
        ensures { MatchOption result (InRange (record { x = x; y = y }) → ⊥) (λ d. elem_of d ≡ record { x = x; y = y }) }
    {
        if -REACH <= x && x <= REACH && -REACH <= y && y <= REACH {
            return Some(Digit {
                element: Element {
                    x: x as i32,
                    y: y as i32,
                },
            });
        }
        None
    }

    // The element.
    pub fn element(self) -> Element<i32>
        ensures is { short result ≡ elem_of self }
        ensures ranged { InRange (short result) }
    {
        self.element
    }
}

// The digit 0: what a place holds that no digit is put in.
impl Default for Digit {
    ghost is_default = { λ d. elem_of d ≡ 𝟘 };

    fn default() -> Digit {
        Digit::none()
    }
}
