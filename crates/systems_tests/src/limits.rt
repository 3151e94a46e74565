// The limits of both kinds: the last number below each, the limit, and their negatives.

use numbers::{Coordinate, Element};
use std::process::Abort;

// What a number answers, alone and as both coordinates of an element.
fn answers<C: Coordinate>(rt: &impl Abort, v: C, loads: bool, works: bool) {
    let z = Element { x: v, y: v };
    assert_eq!(rt; v.loads(), loads, "the number loads");
    assert_eq!(rt; v.works(), works, "the number works");
    assert_eq!(rt; z.loads(), loads, "the element loads");
    assert_eq!(rt; z.works(), works, "the element works");
}

#[test]
fn short_limits(rt: HostRuntime) {
    for (v, loads, works) in [
        (16777215, true, true),
        (-16777215, true, true),
        (16777216, false, true),
        (-16777216, false, true),
        (268435455, false, true),
        (-268435455, false, true),
        (268435456, false, false),
        (-268435456, false, false),
    ] {
        answers::<i32>(&rt, v, loads, works);
    }
}

#[test]
fn long_limits(rt: HostRuntime) {
    for (v, loads, works) in [
        (281474976710655, true, true),
        (-281474976710655, true, true),
        (281474976710656, false, true),
        (-281474976710656, false, true),
        (4503599627370495, false, true),
        (-4503599627370495, false, true),
        (4503599627370496, false, false),
        (-4503599627370496, false, false),
    ] {
        answers::<i64>(&rt, v, loads, works);
    }
}
