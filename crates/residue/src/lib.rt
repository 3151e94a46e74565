// The residue engine: its points are (v,0) with v a residue modulo m, and θ multiplies by r.

#![tactic(auto)]

ghost use Rattle.std.specs.Prelude.{◌≡◌, ◌<◌, pos, int_rem};
ghost use Rattle.residue.specs.Residue.{at_root, Modulus};

mod calls;
mod making;
mod reducing;

use engine::Ring;

// The residues modulo m: the numbers below it.
#[derive(Clone, Copy, Debug, PartialEq, Eq)]
struct Residues {
    modulus: u32,
    ghost ranged: { Modulus (pos modulus) },
}

// The ring, the residues, the root r, and by their residues the start point, the total and the current point.
#[derive(Clone, Copy, Debug, PartialEq, Eq)]
pub struct ResidueEngine {
    ring: Ring,
    residues: Residues,
    root: u32,
    start: u32,
    total: u32,
    current: u32,
    ghost rooted: { int_rem (at_root ring.t ring.n (pos root)) (pos residues.modulus) ≡ pos 0 },
    ghost below: { (root < residues.modulus) × (start < residues.modulus) × (total < residues.modulus) × (current < residues.modulus) },
}
