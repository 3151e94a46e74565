ghost use Rattle.std.specs.Prelude.{◌≡◌, ◌≤◌, length, take};
ghost use Rattle.digits.specs.Digits.{elems};
ghost use Rattle.sets.specs.Lists.{Different};

use digits::digit::Digit;
use digits::width::Width;

pub mod calls;
pub mod changes;
pub mod fullness;

// At most 128 digits, none twice, and a width. That their classes differ depends on the system, and is not said here.
// The digits are the first places of a table that stands in the set itself: nothing is allocated, and nothing can be refused for want of memory.
// A table and a count, and no vector of fixed capacity: that is not copied, and a set is; and nothing but std is trusted under it.
// No == is derived: it would compare the places behind the digits too, where taking one away leaves what stood there.
#[derive(Clone, Copy, Debug)]
pub struct DigitSet {
    table: [Digit; 128],
    count: usize,
    width: Width,
    ghost whole: { length table ≡ 128 },
    ghost most: { count ≤ 128 },
    ghost once: { Different (elems (take count table)) },
}
