// The making of a word engine, and its calls.
ghost use Rattle.std.specs.Prelude.{◌≡◌};
ghost use Rattle.engine.specs.Meaning.{act, elem};
ghost use Rattle.word.specs.Word.{words, summed, if_odd};
ghost use Rattle.word.specs.Made.{point_of, meaning_of, word_machine, Made};
ghost use Rattle.word.specs.Points;

use super::{WordEngine, Words};
use engine::{Point, PointEngine, Ring};
use refusals::Refusal;

// All ones for an odd number, else all zeros.
#[tactic(auto, unfolding(crate::specs::Word::odd))]
fn mask(z: i32) -> u32
    ensures { result ≡ if_odd z 0xffff_ffff }
{
    if z % 2 == 0 { 0 } else { u32::MAX }
}

// The word for an odd number, else 0.
#[tactic(auto, using(crate::proofs::Masks::masked))]
fn keep(z: i32, w: u32) -> u32
    ensures { result ≡ if_odd z w }
{
    w & mask(z)
}

impl Words {
    // The origin.
    fn zero() -> Words
        ensures { point_of result ≡ words 0 0 }
    {
        Words { u: 0, v: 0 }
    }

    // The sum of two points.
    fn sum(self, other: Words) -> Words
        ensures { point_of result ≡ summed (point_of self) (point_of other) }
    {
        Words {
            u: self.u ^ other.u,
            v: self.v ^ other.v,
        }
    }

    // k times a point.
    fn times(self, k: i32) -> Words
        ensures { point_of result ≡ words (if_odd k self.u) (if_odd k self.v) }
    {
        Words {
            u: keep(k, self.u),
            v: keep(k, self.v),
        }
    }
}

// The point, as it is told.
impl From<Words> for Point {
    ghost from_gives = { λ w p. p ≡ point_of w };

    fn from(w: Words) -> Point {
        Point {
            u: i64::from(w.u),
            v: i64::from(w.v),
        }
    }
}

impl WordEngine {
    // An engine with the start point (u,v), restarted; or a refusal where t or n is out of range.
    pub fn new(t: i64, n: i64, u: u32, v: u32) -> Result<WordEngine, Refusal>
        ensures { Made t n u v result }
    {
        let ring = Ring::new(t, n).ok_or(Refusal::Root)?;
        let start = Words { u, v };
        Ok(WordEngine {
            ring,
            start,
            total: Words::zero(),
            current: start,
        })
    }

    // θ of a point.
    fn theta(&self, w: Words) -> Words
        ensures { point_of result ≡ (meaning_of self.now).θ (point_of w) }
    {
        Words {
            u: keep(self.ring.n, w.v),
            v: w.u ^ keep(self.ring.t, w.v),
        }
    }

    // What (x,y) makes of a point.
    fn acted(&self, x: i32, y: i32, w: Words) -> Words
        ensures { point_of result ≡ act (meaning_of self.now) (elem x y) (point_of w) }
    {
        w.times(x).sum(self.theta(w).times(y))
    }
}

// These calls are those of the residue engine but for the type of a point. A form for both would have to name each field and each law of the points once more, and these are a line each.
impl PointEngine for WordEngine {
    ghost machine = { word_machine };

    ghost lawful = { λ e. Points.lawful e.ring.t e.ring.n e.start.u e.start.v e.start.fits.0 e.start.fits.1 };

    fn t(&self) -> i32 {
        self.ring.t
    }

    fn n(&self) -> i32 {
        self.ring.n
    }

    fn start(&self) -> Point {
        Point::from(self.start)
    }

    fn total(&self) -> Point {
        Point::from(self.total)
    }

    fn current(&self) -> Point {
        Point::from(self.current)
    }

    fn restart(&mut self) {
        self.total = Words::zero();
        self.current = self.start;
    }

    fn add(&mut self, x: i32, y: i32) {
        self.total = self.total.sum(self.acted(x, y, self.current));
    }

    fn shift(&mut self, x: i32, y: i32) {
        self.current = self.acted(x, y, self.current);
    }
}
