ghost use Rattle.std.specs.Prelude.{Decides};
ghost use Rattle.std.specs.List.{ContainsAt as Has};
ghost use Rattle.ring.specs.Class.{Full};
ghost use Rattle.sets.specs.Held.{held, width_of};

use crate::classes::{apart, class_count};
use crate::table::DigitSet;
use numbers::Asks;

impl DigitSet {
    // Whether exactly one digit is held in each class that the base does not divide, and no other digits.
    pub fn is_full<S: Asks<i32>>(&self, system: &S) -> bool
        ensures { Decides result (Full S.ring (width_of self.now) (Has (held self.now))) }
    {
        self.len() == class_count::<S>(self.width) as usize && apart(self.numeration(system))
    }
}
