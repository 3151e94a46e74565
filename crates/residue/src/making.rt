// The making of a residue engine, and its value.
ghost use Rattle.std.specs.Prelude.{◌≡◌, ◌^◌, ◌<◌, pos};
ghost use Rattle.residue.specs.Residue.{at_root};
ghost use Rattle.residue.specs.Made.{Made};

use super::{ResidueEngine, Residues};
use engine::Ring;
use refusals::Refusal;

// r² − t·r + n
fn at_root(ring: Ring, root: u32) -> i64
    requires { root < 2 ^ 31 }
    ensures { result ≡ at_root ring.t ring.n (pos root) }
{
    let r = i64::from(root);
    r * r - i64::from(ring.t) * r + i64::from(ring.n)
}

impl ResidueEngine {
    // An engine of these numbers, restarted; or the refusal that they get.
    pub fn new(t: i64, n: i64, m: i64, r: i64, g: i64) -> Result<ResidueEngine, Refusal>
        ensures { Made t n m r g result }
    {
        let residues = Residues::new(m).ok_or(Refusal::Modulus)?;
        let ring = Ring::new(t, n).ok_or(Refusal::Root)?;
        let root = residues.residue(r).ok_or(Refusal::Root)?;
        let start = residues.residue(g).ok_or(Refusal::Root)?;
        if !residues.divides(at_root(ring, root)) {
            return Err(Refusal::Root);
        }
        Ok(ResidueEngine {
            ring,
            residues,
            root,
            start,
            total: 0,
            current: start,
        })
    }

    // v of the total, which is (v,0).
    pub fn value(&self) -> u32
        ensures { result ≡ self.now.total }
    {
        self.total
    }
}
