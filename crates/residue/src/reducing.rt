// The residues modulo m.
ghost use Rattle.std.specs.Prelude.{◌≡◌, ◌<◌, pos, ◌≤ℤ◌, ◌<ℤ◌, Decides, MatchOption, int_rem};
ghost use Rattle.std.specs.Int.{int_rem_euclid};
ghost use Rattle.residue.specs.Residue.{Modulus};

use super::Residues;

impl Residues {
    // The residues modulo m, if it is in range.
    pub fn new(m: i64) -> Option<Residues>
        ensures { MatchOption result (Modulus m → ⊥) (λ s. Modulus m × (pos s.modulus ≡ m)) }
    {
        if !(2..=0x7fff_ffff).contains(&m) {
            return None;
        }
        Some(Residues { modulus: m as u32 })
    }

    // z as a residue, if it is one.
    pub fn residue(self, z: i64) -> Option<u32>
        ensures { MatchOption result ((pos 0 ≤ℤ z) × (z <ℤ pos self.modulus) → ⊥) (λ a. (a < self.modulus) × (pos a ≡ z)) }
    {
        u32::try_from(z).ok().filter(|a| *a < self.modulus)
    }

    // The residue of a number.
    pub fn reduced(self, z: i64) -> u32
        ensures is { pos result ≡ int_rem_euclid z (pos self.modulus) }
        ensures below { result < self.modulus }
    {
        z.rem_euclid(i64::from(self.modulus)) as u32
    }

    // Whether m divides a number.
    pub fn divides(self, z: i64) -> bool
        ensures { Decides result (int_rem z (pos self.modulus) ≡ pos 0) }
    {
        z % i64::from(self.modulus) == 0
    }
}
