// The calls of a residue engine.
ghost use Rattle.std.specs.Prelude.{◌≡◌, ◌<◌, pos};
ghost use Rattle.engine.specs.Meaning.{act, elem, times};
ghost use Rattle.residue.specs.Residue.{at};
ghost use Rattle.residue.specs.Made.{meaning_of, residue_machine};
ghost use Rattle.residue.specs.Points;

use super::ResidueEngine;
use engine::{Point, PointEngine};

impl ResidueEngine {
    // The sum of two points.
    fn sum(&self, a: u32, b: u32) -> u32
        ensures is { at (pos result) ≡ (meaning_of self.now).sum (at (pos a)) (at (pos b)) }
        ensures below { result < self.now.residues.modulus }
    {
        self.residues.reduced(i64::from(a) + i64::from(b))
    }

    // θ of a point.
    fn theta(&self, a: u32) -> u32
        ensures { at (pos result) ≡ (meaning_of self.now).θ (at (pos a)) }
    {
        self.residues.reduced(i64::from(self.root) * i64::from(a))
    }

    // k times a point.
    fn times(&self, k: i32, a: u32) -> u32
        ensures { at (pos result) ≡ times (meaning_of self.now) k (at (pos a)) }
    {
        self.residues.reduced(i64::from(k) * i64::from(a))
    }

    // What (x,y) makes of a point.
    #[tactic(auto, unfolding(engine::specs::Meaning::act))]
    fn acted(&self, x: i32, y: i32, a: u32) -> u32
        ensures is { at (pos result) ≡ act (meaning_of self.now) (elem x y) (at (pos a)) }
        ensures below { result < self.now.residues.modulus }
    {
        self.sum(self.times(x, a), self.times(y, self.theta(a)))
    }
}

// The point of a residue, as it is told. It is no `From`: a residue is a plain number here, and both types are another crate's.
fn shown(a: u32) -> Point
    ensures { result ≡ at (pos a) }
{
    Point {
        u: i64::from(a),
        v: 0,
    }
}

impl PointEngine for ResidueEngine {
    ghost machine = { residue_machine };

    ghost lawful = { λ e. Points.lawful e.ring.t e.ring.n e.residues.modulus e.root e.start e.residues.ranged e.ring.ranged e.rooted e.below.1 };

    fn t(&self) -> i32 {
        self.ring.t
    }

    fn n(&self) -> i32 {
        self.ring.n
    }

    fn start(&self) -> Point {
        shown(self.start)
    }

    fn total(&self) -> Point {
        shown(self.total)
    }

    fn current(&self) -> Point {
        shown(self.current)
    }

    fn restart(&mut self) {
        self.total = 0;
        self.current = self.start;
    }

    fn add(&mut self, x: i32, y: i32) {
        self.total = self.sum(self.total, self.acted(x, y, self.current));
    }

    fn shift(&mut self, x: i32, y: i32) {
        self.current = self.acted(x, y, self.current);
    }
}
