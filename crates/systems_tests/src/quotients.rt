// The quotients of all elements with coordinates from −8 to 8, in each system at both kinds.

use numbers::{Asks, Coordinate, Element, Ruled};
use std::process::Abort;
use std::test::Fail;
use systems::{AtShort, G5, KM, KP};

// The product of two small elements.
fn times<S: Ruled>(a: Element<i32>, b: Element<i32>) -> Element<i32> {
    let yy = a.y.wrapping_mul(b.y);
    Element {
        x: a.x.wrapping_mul(b.x).wrapping_sub(S::NORM.wrapping_mul(yy)),
        y: a.x
            .wrapping_mul(b.y)
            .wrapping_add(a.y.wrapping_mul(b.x))
            .wrapping_add(S::TRACE.wrapping_mul(yy)),
    }
}

// Whether the base divides a small element: p divides its product with the base's conjugate.
fn divisible<S: Ruled>(z: Element<i32>) -> bool {
    let conjugate = Element {
        x: S::BASE.x.wrapping_add(S::TRACE.wrapping_mul(S::BASE.y)),
        y: S::BASE.y.wrapping_neg(),
    };
    let multiple = times::<S>(conjugate, z);
    match i32::try_from(S::BASE_NORM) {
        Ok(p) if p > 1 => multiple.x % p == 0 && multiple.y % p == 0,
        _ => false,
    }
}

// The answers of a system about one small element.
fn answers<C: Coordinate, S: Asks<C>>(
    rt: &impl Abort,
    s: &S,
    small: Element<i32>,
) -> Result<(), Fail> {
    let z = Element::<C>::from_short(small);
    if !z.works() {
        return Err(Fail::new("the element is too large"));
    }
    let q = s.quotient(&z).rest(1000);
    let divides = s.divides(&z);
    assert_eq!(rt; divides, divisible::<S>(small), "whether the base divides");
    if divides {
        assert_eq!(rt;
            times::<S>(S::BASE, q),
            small,
            "the quotient times the base"
        );
    } else {
        assert_eq!(rt; q, Element { x: 0, y: 0 }, "no quotient");
    }
    Ok(())
}

// The answers about all small elements at one kind.
fn all_answers<C: Coordinate, S: Asks<C>>(rt: &impl Abort, s: &S) -> Result<(), Fail> {
    for x in -8..9 {
        for y in -8..9 {
            answers::<C, S>(rt, s, Element { x, y })?;
        }
    }
    Ok(())
}

// The answers at both kinds, and through the adapter.
fn at_all_kinds<S: Asks<i32> + Asks<i64> + Copy>(rt: &impl Abort, s: S) -> Result<(), Fail> {
    all_answers::<i32, S>(rt, &s)?;
    all_answers::<i64, S>(rt, &s)?;
    all_answers::<i32, AtShort<S>>(rt, &AtShort(s))
}

#[test]
fn kp_quotients(rt: HostRuntime) -> Result<(), Fail> {
    at_all_kinds(&rt, KP)
}

#[test]
fn km_quotients(rt: HostRuntime) -> Result<(), Fail> {
    at_all_kinds(&rt, KM)
}

#[test]
fn g5_quotients(rt: HostRuntime) -> Result<(), Fail> {
    at_all_kinds(&rt, G5)
}
