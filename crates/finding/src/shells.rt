// Shells of norms are sifted in any order: the first element that does not come to 0 is the first whose trail never falls.

ghost use Rattle.std.specs.Prelude.{◌+◌, ◌<◌, ◌≤◌, pos, ◌≤ℤ◌, unsigned_abs};
ghost use Rattle.ring.specs.System.{size};
ghost use Rattle.rounds.specs.Rounds.{Falls};
ghost use Rattle.finding.specs.Finding.{point, Bounds, Column, Shell, Inner};

use crate::sieve::Sieve;
use numbers::Element;
use rounds::{Dynamics, Trail};

// A magnitude that no coordinate passes where the norm is at most `top`.
// The root never passes 2046, and the minimum tells it to the compiler, which then drops tests from the loops.
pub fn reach(top: u32) -> i32
    requires { top ≤ 1600000 }
    ensures low { pos 0 ≤ℤ result }
    ensures high { result ≤ℤ pos 2046 }
    ensures bounds { Bounds top result }
{
    (4 * top / 3).isqrt().min(2046) as i32
}

impl<'d, D: Dynamics> Sieve<'d, D> {
    // The norm of (x, y) if it lies from `from` below `least` and the trail of (x, y) never falls, else `least`.
    pub fn lowered(&self, least: u32, x: i32, y: i32) -> u32
        requires near { (unsigned_abs x < 2048) × (unsigned_abs y < 2048) }
        requires small { least ≤ D.cap self.now.map.now + 1 }
        ensures down { result ≤ least }
        ensures from { self.now.from ≤ least → self.now.from ≤ result }
        ensures falls { self.now.from ≤ size (D.ring self.now.map.now) (point x y) → size (D.ring self.now.map.now) (point x y) < result → Falls (D.next self.now.map.now) (D.ring self.now.map.now) (point x y) }
    {
        let z = Element { x, y };
        let norm = self.map.norm(z);
        if norm < self.from || least <= norm {
            return least;
        }
        match Trail::new(self.map, z).find_cycle() {
            Some(_) => norm,
            None => least,
        }
    }

    // `least`, lowered by every (x, y) with y from −reach to reach.
    // A loop, here and in `sift`, since a fold leaves its calls and all three clauses to proofs by hand.
    pub fn column(&self, least: u32, x: i32) -> u32
        requires near { unsigned_abs x < 2048 }
        requires small { least ≤ D.cap self.now.map.now + 1 }
        ensures down { result ≤ least }
        ensures from { self.now.from ≤ least → self.now.from ≤ result }
        ensures falls { Column (D.next self.now.map.now) (D.ring self.now.map.now) self.now.from result self.now.reach x }
    {
        let mut lowest = least;
        for y in -self.reach..=self.reach {
            lowest = self.lowered(lowest, x, y);
        }
        lowest
    }

    // The least norm, from `from` to `top`, of an element whose trail never falls, or top + 1.
    pub fn sift(&self) -> u32
        requires { self.now.from ≤ self.now.top + 1 }
        ensures down { result ≤ self.now.top + 1 }
        ensures from { self.now.from ≤ result }
        ensures falls { Shell (D.next self.now.map.now) (D.ring self.now.map.now) self.now.from result }
    {
        let mut least = self.top + 1;
        for x in -self.reach..=self.reach {
            least = self.column(least, x);
        }
        least
    }
}

// A norm below which every element comes to 0: `clear` where that is above `norm`, else from the shell of the norms up to twice `norm`.
pub fn cleared_to<D: Dynamics>(map: &D, clear: u32, norm: u32, bound: u32) -> u32
    requires small { (bound ≤ D.cap map.now) × ((norm ≤ bound) × (clear ≤ bound + 1)) }
    requires ends { (Inner (D.next map.now) (D.ring map.now) norm) × (Inner (D.next map.now) (D.ring map.now) clear) }
    ensures down { result ≤ bound + 1 }
    ensures ends { Inner (D.next map.now) (D.ring map.now) result }
{
    if norm < clear {
        return clear;
    }
    Sieve::new(map, norm, bound.min(2 * norm)).sift()
}
