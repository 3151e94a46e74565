ghost use Rattle.std.specs.Prelude.{◌≡◌, ◌<◌, ◌≤◌, [], length, Decides, MatchOption, slice_index_or};
ghost use Rattle.std.specs.List.{HoldsAt, ContainsAt as Has};
ghost use Rattle.ring.specs.Elem.{𝟘};
ghost use Rattle.digits.specs.Digits.{elem_of, elems};
ghost use Rattle.sets.specs.Held.{held, width_of};

use crate::table::DigitSet;
use digits::digit::Digit;
use digits::numeration::Numeration;
use digits::width::Width;

impl DigitSet {
    // No digits, at this width.
    pub fn new(width: Width) -> DigitSet
        ensures none { held result ≡ [] }
        ensures wide { width_of result ≡ width.places }
    {
        DigitSet {
            table: [Digit::none(); 128],
            count: 0,
            width,
        }
    }

    // The number of digits.
    pub fn len(&self) -> usize
        ensures is { result ≡ length (held self.now) }
        ensures most { result ≤ 128 }
    {
        self.count
    }

    // The width.
    pub fn width(&self) -> Width
        ensures { result.places ≡ width_of self.now }
    {
        self.width
    }

    // The digits, in the order held.
    pub fn as_slice(&self) -> &[Digit]
        ensures { elems result.now ≡ held self.now }
    {
        &self.table[..self.count]
    }

    // The digits and the width, with a system: what recoding goes by.
    pub fn numeration<'s, 'd, S>(&'d self, system: &'s S) -> Numeration<'s, 'd, S>
        ensures digits { elems result.digits.now ≡ held self.now }
        ensures width { result.width.places ≡ width_of self.now }
    {
        Numeration {
            system,
            width: self.width,
            digits: self.as_slice(),
        }
    }

    // The digit at a place, and none past the end.
    pub fn digit(&self, place: usize) -> Option<Digit>
        ensures { MatchOption result (length (held self.now) ≤ place) (λ d. (place < length (held self.now)) × (elem_of d ≡ slice_index_or (held self.now) place 𝟘)) }
    {
        self.as_slice().get(place).copied()
    }

    // The place of a digit, if it is held.
    pub fn place_of(&self, digit: Digit) -> Option<usize>
        ensures { MatchOption result (Has (held self.now) (elem_of digit) → ⊥) (λ i. (i < length (held self.now)) × HoldsAt (λ e. e ≡ elem_of digit) (held self.now) i) }
    {
        self.as_slice().iter().position(|held| *held == digit)
    }

    // Whether a digit is held.
    pub fn holds(&self, digit: Digit) -> bool
        ensures { Decides result (Has (held self.now) (elem_of digit)) }
    {
        self.place_of(digit).is_some()
    }
}
