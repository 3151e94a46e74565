// How many classes there are, and whether digits are of different ones.
ghost use Rattle.std.specs.Prelude.{◌≡◌, Decides};
ghost use Rattle.ring.specs.System.{classes as classesOf};
ghost use Rattle.digits.specs.Digits.{elems};
ghost use Rattle.ring.specs.Theorems.{Apart};
ghost use Rattle.sets.specs.Lists.{StaysApart, Unlike};

use digits::numeration::Numeration;
use digits::residues::modulus;
use digits::width::Width;
use numbers::{Asks, Ruled};

// The number of classes at this width that the base does not divide: p^w / p · (p − 1).
pub fn class_count<S: Ruled>(width: Width) -> u32
    ensures { result ≡ classesOf S.ring.p width.places }
{
    let p = S::BASE_NORM;
    modulus::<S>(width) / p * (p - 1)
}

// Whether no two of the digits are of one class.
pub fn unlike<S: Asks<i32>>(numeration: Numeration<S>) -> bool
    ensures { Decides result (Unlike S.ring numeration.entry.width.places (elems numeration.entry.digits.now)) }
{
    for (i, digit) in numeration.digits.iter().enumerate() {
        let earlier = Numeration {
            digits: &numeration.digits[..i],
            ..numeration
        };
        if earlier.digit_of(digit.element()).is_some() {
            return false;
        }
    }
    true
}

// Whether the base divides none of the digits, and no two of them are of one class.
pub fn apart<S: Asks<i32>>(numeration: Numeration<S>) -> bool
    ensures { Decides result (Apart S.ring numeration.entry.width.places (elems numeration.entry.digits.now)) }
{
    numeration.all_odd() && unlike(numeration)
}

// A set that grows and shrinks by single digits keeps its classes apart, and at a width that the system serves its table has room for every new class.
pub fn stays_apart()
    ensures { StaysApart }
{}
