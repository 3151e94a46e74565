ghost use Rattle.std.specs.Prelude.{◌≡◌, MatchResult};
ghost use Rattle.rules.specs.Told.{Abandons, Checks, Down, DownPut, DownTick, Loads, Puts, Takes, Ticks, Widens};
ghost use Rattle.unit.specs.Seen.{setting, view};

use crate::parts::{feed, left_by, left_with, matches, served};
use crate::unit::Unit;
use digits::verdict::Verdict;
use engine::PointEngine;
use numbers::{Asks, Coordinate, Element, NumberSystem, Ruled};
use refusals::Refusal;
use rules::calls::{Call, Standing};
use sets::classes::class_count;
use sets::table::DigitSet;
use verdict::judge;

// The clauses write out the setting of S, its ring with the limits: a ghost member for it would be one more value to tie to the others by a law in every proof.
impl<S: NumberSystem, E: PointEngine> Unit<S, E> {
    // Empties the digits at another width, and answers the number of classes.
    pub fn set_width(&mut self, places: u64) -> Result<u32, Refusal>
        ensures told { MatchResult result (Widens (setting S.ring S.WIDEST S.Kind.LOADING S.Kind.WORKING) E.machine (view S.Kind.value self.old) (view S.Kind.value self.new) places) (Down (setting S.ring S.WIDEST S.Kind.LOADING S.Kind.WORKING) E.machine (view S.Kind.value self.old) (view S.Kind.value self.new) (Call.Width places)) }
        ensures system { self.new.system ≡ self.old.system }
    {
        if self.standing == Standing::Running {
            return Err(Refusal::Busy);
        }
        let width = served::<S>(places).ok_or(Refusal::Width)?;
        self.set = DigitSet::new(width);
        self.verdict = None;
        self.standing = Standing::Draft;
        Ok(class_count::<S>(width))
    }

    // Adds the digit (x, y), and answers how many are held.
    pub fn put(&mut self, x: i64, y: i64) -> Result<usize, Refusal>
        ensures told { MatchResult result (Puts (setting S.ring S.WIDEST S.Kind.LOADING S.Kind.WORKING) E.machine (view S.Kind.value self.old) (view S.Kind.value self.new) x y) (DownPut (setting S.ring S.WIDEST S.Kind.LOADING S.Kind.WORKING) E.machine (view S.Kind.value self.old) (view S.Kind.value self.new) x y) }
        ensures system { self.new.system ≡ self.old.system }
    {
        if self.standing == Standing::Running {
            return Err(Refusal::Busy);
        }
        let held = self.set.put(&self.system, x, y)?;
        self.verdict = None;
        self.standing = Standing::Draft;
        Ok(held)
    }

    // Removes the digit (x, y), and answers how many are held.
    pub fn take(&mut self, x: i64, y: i64) -> Result<usize, Refusal>
        ensures told { MatchResult result (Takes (setting S.ring S.WIDEST S.Kind.LOADING S.Kind.WORKING) E.machine (view S.Kind.value self.old) (view S.Kind.value self.new) x y) (Down (setting S.ring S.WIDEST S.Kind.LOADING S.Kind.WORKING) E.machine (view S.Kind.value self.old) (view S.Kind.value self.new) (Call.Take x y)) }
        ensures system { self.new.system ≡ self.old.system }
    {
        if self.standing == Standing::Running {
            return Err(Refusal::Busy);
        }
        let held = self.set.take(x, y)?;
        self.verdict = None;
        self.standing = Standing::Draft;
        Ok(held)
    }

    // Checks the set, and answers the verdict.
    pub fn check(&mut self) -> Result<Verdict, Refusal>
        ensures told { MatchResult result (Checks (setting S.ring S.WIDEST S.Kind.LOADING S.Kind.WORKING) E.machine (view S.Kind.value self.old) (view S.Kind.value self.new)) (Down (setting S.ring S.WIDEST S.Kind.LOADING S.Kind.WORKING) E.machine (view S.Kind.value self.old) (view S.Kind.value self.new) Call.Check) }
        ensures system { self.new.system ≡ self.old.system }
    {
        if self.standing == Standing::Running {
            return Err(Refusal::Busy);
        }
        let verdict = judge(&self.system, &self.set)?;
        self.verdict = Some(verdict);
        self.standing = left_by(verdict);
        Ok(verdict)
    }

    // Loads an element: the engine is restarted, and a run is on, unless the element is 0.
    pub fn load(&mut self, z: Element<i64>) -> Result<(), Refusal>
        ensures told { MatchResult result (λ _. Loads (setting S.ring S.WIDEST S.Kind.LOADING S.Kind.WORKING) E.machine (view S.Kind.value self.old) (view S.Kind.value self.new) z) (Down (setting S.ring S.WIDEST S.Kind.LOADING S.Kind.WORKING) E.machine (view S.Kind.value self.old) (view S.Kind.value self.new) (Call.Load z)) }
        ensures system { self.new.system ≡ self.old.system }
    {
        match self.standing {
            Standing::Running => return Err(Refusal::Busy),
            Standing::Draft | Standing::Barred => return Err(Refusal::Uncleared),
            Standing::Cleared => {}
        }
        if !matches::<S, E>(&self.engine) {
            return Err(Refusal::Ring);
        }
        let remainder = Element::<S::Kind>::load(z).ok_or(Refusal::Long)?;
        self.engine.restart();
        self.ticks = 0;
        self.remainder = remainder;
        self.standing = left_with(remainder);
        Ok(())
    }

    // Takes one step, feeds its digit to the engine, counts one and answers the digit.
    pub fn tick(&mut self) -> Result<Element<i32>, Refusal>
        ensures told { MatchResult result (Ticks (setting S.ring S.WIDEST S.Kind.LOADING S.Kind.WORKING) E.machine (view S.Kind.value self.old) (view S.Kind.value self.new)) (DownTick (setting S.ring S.WIDEST S.Kind.LOADING S.Kind.WORKING) E.machine (view S.Kind.value self.old) (view S.Kind.value self.new)) }
        ensures system { self.new.system ≡ self.old.system }
    {
        if self.standing != Standing::Running {
            return Err(Refusal::Idle);
        }
        let (digit, rest) = self
            .set
            .numeration(&self.system)
            .step(self.remainder)
            .ok_or(Refusal::Idle)?;
        let ticks = self.ticks.checked_add(1).ok_or(Refusal::Idle)?;
        feed::<S, E>(&mut self.engine, digit);
        self.ticks = ticks;
        self.remainder = rest;
        self.standing = left_with(rest);
        Ok(digit.element())
    }

    // Ends the run; ticks, total and remainder stay.
    pub fn abandon(&mut self) -> Result<(), Refusal>
        ensures told { MatchResult result (λ _. Abandons (setting S.ring S.WIDEST S.Kind.LOADING S.Kind.WORKING) E.machine (view S.Kind.value self.old) (view S.Kind.value self.new)) (Down (setting S.ring S.WIDEST S.Kind.LOADING S.Kind.WORKING) E.machine (view S.Kind.value self.old) (view S.Kind.value self.new) Call.Abandon) }
        ensures system { self.new.system ≡ self.old.system }
    {
        if self.standing != Standing::Running {
            return Err(Refusal::Idle);
        }
        self.standing = Standing::Cleared;
        Ok(())
    }
}
