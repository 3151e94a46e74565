// The system g5: θ² = −1 and the base 2 + θ.

ghost use Rattle.std.specs.Prelude.{◌≡◌, pos, refl};
ghost use Rattle.ring.specs.Elem.{Below};
ghost use Rattle.numbers.specs.Meaning.{meaning};
ghost use Rattle.systems.specs.Named.{g5, g5_base, g5_widest, g5_lawful, g5_widths};
ghost use Rattle.systems.specs.Divided.{along, across, fifth};

use crate::choice::multiple;
use numbers::{Asks, Coordinate, Element, NumberSystem, Ruled};

// 2x + y, which 5 divides exactly where the base divides z.
fn first<C: Coordinate>(z: Element<C>) -> C
    requires { Below C.WORKING (meaning C.value z) }
    ensures { C.value result ≡ along (meaning C.value z) }
{
    z.x + z.x + z.y
}

// 2y − x.
fn second<C: Coordinate>(z: Element<C>) -> C
    requires { Below C.WORKING (meaning C.value z) }
    ensures { C.value result ≡ across (meaning C.value z) }
{
    z.y + z.y - z.x
}

// A fifth of both, which is z divided by the base where 5 divides the first.
fn fifths<C: Coordinate>(z: Element<C>) -> Element<C>
    requires { Below C.WORKING (meaning C.value z) }
    ensures { meaning C.value result ≡ fifth (meaning C.value z) }
{
    Element {
        x: first(z).over(5),
        y: second(z).over(5),
    }
}

// The system g5.
#[derive(Clone, Copy)]
pub struct G5;

// Its numbers.
impl Ruled for G5 {
    ghost TRACE = { pos 0 };

    ghost NORM = { pos 1 };

    ghost BASE = { g5_base };

    ghost BASE_NORM = { 5 };

    ghost WIDEST = { g5_widest };

    const TRACE: i32 = 0;

    const NORM: i32 = 1;

    const BASE: Element<i32> = Element { x: 2, y: 1 };

    const BASE_NORM: u32 = 5;

    const WIDEST: u32 = 3;

    ghost ring = { g5 };

    ghost ruled = { refl };

    ghost lawful = { g5_lawful };

    ghost widths = { g5_widths };
}

// Its answers, at every kind.
impl<C: Coordinate> Asks<C> for G5 {
    fn divides(&self, z: &Element<C>) -> bool {
        multiple(first(*z), 5)
    }

    fn quotient(&self, z: &Element<C>) -> Element<C> {
        if self.divides(z) {
            fifths(*z)
        } else {
            Element::zero()
        }
    }
}

// Its own kind is the long one.
impl NumberSystem for G5 {
    type Kind = i64;
}
