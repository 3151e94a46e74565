// What a number system is, and what it answers.

ghost use Rattle.std.specs.Prelude.{◌≡◌, ℕ, ℤ, Decides};
ghost use Rattle.ring.specs.Elem.{Below, sub};
ghost use Rattle.ring.specs.System.{System, Lawful, Widths, norm};
ghost use Rattle.ring.specs.Class.{Even, InRange};
ghost use Rattle.numbers.specs.Kinds.{short_working};
ghost use Rattle.numbers.specs.Meaning.{meaning, short, ruling};
ghost use Rattle.numbers.specs.Question.{Quotient};
ghost use Rattle.numbers.specs.declared.elements.Element.{Element};

use crate::elements::Element;
use crate::kinds::Coordinate;
use crate::norms::form;

// The numbers of a system: θ² = tθ − n, the base and its norm p, and the widest width.
// Clauses know them by the names of the constants and by `ring`, and each system shows by `lawful` and `widths` that they serve.
pub trait Ruled {
    ghost TRACE: { ℤ };

    ghost NORM: { ℤ };

    ghost BASE: { Element ℤ };

    ghost BASE_NORM: { ℕ };

    ghost WIDEST: { ℕ };

    // t, in θ² = tθ − n.
    const TRACE: i32;

    // n, in θ² = tθ − n.
    const NORM: i32;

    // The base.
    const BASE: Element<i32>;

    // The norm of the base.
    const BASE_NORM: u32;

    // The widest width that is served.
    const WIDEST: u32;

    ghost ring: { System };

    ghost ruled: { ruling TRACE NORM BASE BASE_NORM ≡ ring };

    ghost lawful: { Lawful ring };

    ghost widths: { Widths ring.p WIDEST };
}

// The questions that a system answers of elements with coordinates of the kind C. That an element is below the working limit is what the interface says that its caller owes, so it stands as a `requires` and not in a type that each system would have to make.
pub trait Asks<C: Coordinate>: Ruled {
    // Whether the base divides z. Elements are taken by reference: an impl for every kind is not given its trait's clauses where a struct over C is taken by value.
    fn divides(&self, z: &Element<C>) -> bool
        requires { Below C.WORKING (meaning C.value z.now) }
        ensures { Decides result (Even Self.ring (meaning C.value z.now)) };

    // z divided by the base, and 0 where the base does not divide z: so the interface has it, which is why it is no Option.
    fn quotient(&self, z: &Element<C>) -> Element<C>
        requires { Below C.WORKING (meaning C.value z.now) }
        ensures { Quotient Self.ring (meaning C.value z.now) (meaning C.value result) };

    // z less a digit.
    fn subtract(&self, z: &Element<C>, digit: Element<i32>) -> Element<C>
        requires { (Below C.WORKING (meaning C.value z.now)) × (InRange (short digit)) }
        ensures { meaning C.value result ≡ sub (meaning C.value z.now) (short digit) }
    {
        z.minus(Element::from_short(digit))
    }
}

// A number system with a kind of its own, which answers of that kind and of the short kind.
pub trait NumberSystem: Ruled + Asks<i32> + Asks<<Self as NumberSystem>::Kind> {
    // The kind of the coordinates that the system works with.
    type Kind: Coordinate;

    // The norm of a short element.
    fn norm_of(&self, z: Element<i32>) -> i64
        requires { Below short_working (short z) }
        ensures { result ≡ norm Self.ring (short z) }
    {
        form(Self::TRACE, Self::NORM, z)
    }
}
