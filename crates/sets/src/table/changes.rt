ghost use Rattle.std.specs.Prelude.{◌≡◌, ◌<◌, length, Decides, MatchResult};
ghost use Rattle.std.specs.List.{ContainsAt as Has, remove};
ghost use Rattle.refusals.specs.declared.Refusal.TheVariants.{Absent};
ghost use Rattle.digits.specs.Digits.{elem_of};
ghost use Rattle.ring.specs.Class.{Classed};
ghost use Rattle.sets.specs.Held.{held, width_of};
ghost use Rattle.sets.specs.Changes.{Added, Puttable, Taken, Unput};

use crate::table::DigitSet;
use digits::digit::Digit;
use numbers::Asks;
use refusals::Refusal;

// The number of digits that a set has room for.
const ROOM: usize = 128;

impl DigitSet {
    // One more at the end.
    fn push(&mut self, digit: Digit) -> usize
        requires room { length (held self.old) < 128 }
        requires other { Has (held self.old) (elem_of digit) → ⊥ }
        ensures { Added self.old self.new (elem_of digit) result }
    {
        self.table[self.count] = digit;
        self.count += 1;
        self.count
    }

    // Takes out what stands at a place, and moves the later ones down.
    fn remove(&mut self, place: usize) -> usize
        requires { place < length (held self.old) }
        ensures less { held self.new ≡ remove (held self.old) place }
        ensures width { width_of self.new ≡ width_of self.old }
        ensures number { result ≡ length (held self.new) }
    {
        self.table.copy_within(place + 1..self.count, place);
        self.count -= 1;
        self.count
    }

    // Whether a digit of this one's class is held.
    pub fn has_class<S: Asks<i32>>(&self, system: &S, digit: Digit) -> bool
        ensures { Decides result (Classed S.ring (width_of self.now) (Has (held self.now)) (elem_of digit)) }
    {
        self.numeration(system).digit_of(digit.element()).is_some()
    }

    // Puts the element (x, y) at the end, and answers how many digits are held. Refused as `putRows` says, and then nothing changes.
    // A full table that has no digit of the class is refused as well. That is not reached while the digits are of different classes and the system serves the width, since it then has at most 128 classes: `stays_apart` says so.
    pub fn put<S: Asks<i32>>(&mut self, system: &S, x: i64, y: i64) -> Result<usize, Refusal>
        ensures { MatchResult result (λ n. Puttable S.ring (width_of self.old) (held self.old) (record { x = x; y = y }) × Added self.old self.new (record { x = x; y = y }) n) (λ e. Unput S.ring (width_of self.old) (held self.old) (record { x = x; y = y }) e × (self.new ≡ self.old)) }
    {
        let digit = Digit::new(x, y).ok_or(Refusal::Range)?;
        if system.divides(&digit.element()) {
            return Err(Refusal::Even);
        }
        if self.has_class(system, digit) || self.len() == ROOM {
            return Err(Refusal::Doubled);
        }
        Ok(self.push(digit))
    }

    // Takes the digit (x, y) away, and answers how many are held. Refused exactly if it is not held, and then nothing changes.
    pub fn take(&mut self, x: i64, y: i64) -> Result<usize, Refusal>
        ensures { MatchResult result (λ n. Taken self.old self.new (record { x = x; y = y }) n) (λ e. (Has (held self.old) (record { x = x; y = y }) → ⊥) × (e ≡ Absent) × (self.new ≡ self.old)) }
    {
        let digit = Digit::new(x, y).ok_or(Refusal::Absent)?;
        let place = self.place_of(digit).ok_or(Refusal::Absent)?;
        Ok(self.remove(place))
    }
}
