// The word engine: its points are pairs of 32-bit words, summed by exclusive or.

#![tactic(auto)]

ghost use Rattle.std.specs.Prelude.{◌^◌, ◌<◌};

mod calls;

use engine::Ring;

// Two words of 32 bits.
#[derive(Clone, Copy, Debug, PartialEq, Eq)]
struct Words {
    u: u32,
    v: u32,
    ghost fits: { (u < 2 ^ 32) × (v < 2 ^ 32) },
}

// The ring, the start point, the total and the current point.
#[derive(Clone, Copy, Debug, PartialEq, Eq)]
pub struct WordEngine {
    ring: Ring,
    start: Words,
    total: Words,
    current: Words,
}
