ghost use Rattle.std.specs.Prelude.{◌<◌, unsigned_abs};

use numbers::Element;

pub mod calls;

// An element with coordinates from −255 to 255. The element 0 stands for "no digit" in the answer of a step.
#[derive(Clone, Copy, Debug, PartialEq, Eq)]
pub struct Digit {
    element: Element<i32>,
    ghost ranged: { (unsigned_abs element.x < 256) × (unsigned_abs element.y < 256) },
}
