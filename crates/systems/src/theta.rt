// The systems kp and km: θ² = tθ − 2 with t = 1 or t = −1, and the base θ, which divides where x is even.

ghost use Rattle.std.specs.Prelude.{◌≡◌, ℤ, pos, negsuc, refl, Decides};
ghost use Rattle.ring.specs.Elem.{Below};
ghost use Rattle.ring.specs.Class.{Even};
ghost use Rattle.numbers.specs.Meaning.{meaning};
ghost use Rattle.numbers.specs.declared.elements.Element.{Element};
ghost use Rattle.systems.specs.Named.{theta, theta_base, theta_widest, theta_lawful, theta_widths, IsSign, plus_is_sign, minus_is_sign};
ghost use Rattle.systems.specs.Divided.{halved};

use crate::choice::multiple;
use numbers::{Asks, Coordinate, Element, NumberSystem, Ruled};

// The sign of t.
pub trait Sign {
    ghost SIGN: { ℤ };

    // 1 or −1.
    const SIGN: i32;

    ghost is_sign: { IsSign SIGN };
}

// t = 1.
#[derive(Clone, Copy)]
pub struct Plus;

impl Sign for Plus {
    ghost SIGN = { pos 1 };

    const SIGN: i32 = 1;

    ghost is_sign = { plus_is_sign };
}

// t = −1.
#[derive(Clone, Copy)]
pub struct Minus;

impl Sign for Minus {
    ghost SIGN = { negsuc 0 };

    const SIGN: i32 = -1;

    ghost is_sign = { minus_is_sign };
}

// The system with the base θ and a t of this sign.
#[derive(Clone, Copy)]
pub struct Theta<T>(pub T);

// The system kp: θ² = θ − 2.
pub type Kp = Theta<Plus>;

// The system km: θ² = −θ − 2.
pub type Km = Theta<Minus>;

// The system kp.
pub const KP: Kp = Theta(Plus);

// The system km.
pub const KM: Km = Theta(Minus);

// Whether θ divides z, which it does where x is even.
fn even<C: Coordinate, T: Sign>(z: Element<C>) -> bool
    ensures { Decides result (Even (theta T.SIGN) (meaning C.value z)) }
{
    multiple(z.x, 2)
}

// (y + t·x/2, −x/2), which is z divided by θ where x is even.
fn half<C: Coordinate, T: Sign>(z: Element<C>) -> Element<C>
    requires { Below C.WORKING (meaning C.value z) }
    ensures { meaning C.value result ≡ halved T.SIGN (meaning C.value z) }
{
    let half = z.x.over(2);
    let y = C::from(0) - half;
    if T::SIGN == 1 {
        Element { x: z.y + half, y }
    } else {
        Element { x: z.y - half, y }
    }
}

// Its numbers.
impl<T: Sign> Ruled for Theta<T> {
    ghost TRACE = { T.SIGN };

    ghost NORM = { pos 2 };

    ghost BASE = { theta_base };

    ghost BASE_NORM = { 2 };

    ghost WIDEST = { theta_widest };

    const TRACE: i32 = T::SIGN;

    const NORM: i32 = 2;

    const BASE: Element<i32> = Element { x: 0, y: 1 };

    const BASE_NORM: u32 = 2;

    const WIDEST: u32 = 8;

    ghost ring = { theta T.SIGN };

    ghost ruled = { refl };

    ghost lawful = { theta_lawful T.SIGN T.is_sign };

    ghost widths = { theta_widths };
}

// Its answers, at every kind.
impl<C: Coordinate, T: Sign> Asks<C> for Theta<T> {
    fn divides(&self, z: &Element<C>) -> bool {
        even::<C, T>(*z)
    }

    fn quotient(&self, z: &Element<C>) -> Element<C> {
        if self.divides(z) {
            half::<C, T>(*z)
        } else {
            Element::zero()
        }
    }
}

// Its own kind is the long one.
impl<T: Sign> NumberSystem for Theta<T> {
    type Kind = i64;
}
