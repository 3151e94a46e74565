// The rings that number systems have, by the t and n of θ² = tθ − n.

ghost use Rattle.std.specs.Prelude.{◌≡◌, ◌≤ℤ◌};
ghost use Rattle.engine.specs.Rings.{InRing};

mod calls;

pub use calls::in_ring;

// A t from −1 to 1, and an n from 1 to 2.
#[derive(Clone, Copy, Debug, PartialEq, Eq)]
pub struct Ring {
    pub t: i32,
    pub n: i32,
    ghost ranged: { InRing t n },
}
