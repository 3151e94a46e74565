// Any system at the short kind.

use numbers::{Asks, Coordinate, Element, NumberSystem, Ruled};

// The system S with short coordinates as its own kind.
#[derive(Clone, Copy)]
pub struct AtShort<S>(pub S);

// The numbers of S.
impl<S: Ruled> Ruled for AtShort<S> {
    ghost TRACE = { S.TRACE };

    ghost NORM = { S.NORM };

    ghost BASE = { S.BASE };

    ghost BASE_NORM = { S.BASE_NORM };

    ghost WIDEST = { S.WIDEST };

    const TRACE: i32 = S::TRACE;

    const NORM: i32 = S::NORM;

    const BASE: Element<i32> = S::BASE;

    const BASE_NORM: u32 = S::BASE_NORM;

    const WIDEST: u32 = S::WIDEST;

    ghost ring = { S.ring };

    ghost ruled = { S.ruled };

    ghost lawful = { S.lawful };

    ghost widths = { S.widths };
}

// The answers of S, at every kind that S answers of.
impl<C: Coordinate, S: Asks<C>> Asks<C> for AtShort<S> {
    fn divides(&self, z: &Element<C>) -> bool {
        self.0.divides(z)
    }

    fn quotient(&self, z: &Element<C>) -> Element<C> {
        self.0.quotient(z)
    }

    fn subtract(&self, z: &Element<C>, digit: Element<i32>) -> Element<C> {
        self.0.subtract(z, digit)
    }
}

// Its own kind is the short one.
impl<S: NumberSystem> NumberSystem for AtShort<S> {
    type Kind = i32;

    fn norm_of(&self, z: Element<i32>) -> i64 {
        self.0.norm_of(z)
    }
}
