// The interface of point engines, what an engine means, and how elements act on its points.

#![tactic(auto)]

ghost use Rattle.std.specs.Prelude.{◌≡◌, Some};
ghost use Rattle.ring.specs.Class.{InRange};
ghost use Rattle.engine.specs.Meaning.{Machine, LawfulMeaning, act, elem};
ghost use Rattle.engine.specs.Theorems.{ActingLaws, StepLaw};
ghost use Rattle.engine.specs.Told.{text_of};
ghost use Rattle.engine.specs.declared.Point.{Point};

mod rings;

pub use rings::{Ring, in_ring};
use std::fmt;

// A point as it is told: a pair of whole numbers.
#[derive(Clone, Copy, Debug, PartialEq, Eq)]
pub struct Point {
    pub u: i64,
    pub v: i64,
}

// Both numbers, with a comma between them.
impl fmt::Display for Point {
    ghost output = { λ p. Some (text_of p) };

    fn fmt<W: fmt::Write>(&self, f: &mut fmt::Formatter<W>) -> fmt::Result {
        write!(f, "{},{}", self.u, self.v)
    }
}

// An engine holds a start point, a total and a current point. Which pairs are points, and how they are added, is its meaning, and no call changes that.
pub trait PointEngine {
    ghost machine: { Machine Self Point };

    // The t of θ² = tθ − n.
    fn t(&self) -> i32
        ensures { result ≡ (machine.meaning self.now).t };

    // The n of θ² = tθ − n.
    fn n(&self) -> i32
        ensures { result ≡ (machine.meaning self.now).n };

    // The start point.
    fn start(&self) -> Point
        ensures { result ≡ (machine.meaning self.now).start };

    // The total.
    fn total(&self) -> Point
        ensures { result ≡ machine.total_of self.now };

    // The current point.
    fn current(&self) -> Point
        ensures { result ≡ machine.current_of self.now };

    // The total becomes zero, and the current point the start point.
    fn restart(&mut self)
        ensures same { machine.meaning self.new ≡ machine.meaning self.old }
        ensures total { machine.total_of self.new ≡ (machine.meaning self.old).origin }
        ensures current { machine.current_of self.new ≡ (machine.meaning self.old).start };

    // The total grows by (x,y) acting on the current point, which stays.
    fn add(&mut self, x: i32, y: i32)
        requires { InRange (elem x y) }
        ensures same { machine.meaning self.new ≡ machine.meaning self.old }
        ensures total { machine.total_of self.new ≡ (machine.meaning self.old).sum (machine.total_of self.old) (act (machine.meaning self.old) (elem x y) (machine.current_of self.old)) }
        ensures current { machine.current_of self.new ≡ machine.current_of self.old };

    // The current point becomes (x,y) acting on it, and the total stays.
    fn shift(&mut self, x: i32, y: i32)
        requires { InRange (elem x y) }
        ensures same { machine.meaning self.new ≡ machine.meaning self.old }
        ensures total { machine.total_of self.new ≡ machine.total_of self.old }
        ensures current { machine.current_of self.new ≡ act (machine.meaning self.old) (elem x y) (machine.current_of self.old) };

    ghost lawful: { (e : Self) → LawfulMeaning (machine.meaning e) };
}

// Elements act on the points of any lawful meaning, over any carrier, as the elements of a ring should.
pub fn acting_laws<C>()
    ensures { ActingLaws C }
{}

// What an add and a shift leave where total and current point are elements acting on the start point.
pub fn step_law<C>()
    ensures { StepLaw C }
{}
