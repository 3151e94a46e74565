// The two kinds of coordinates, short and long, and their limits.

ghost use Rattle.std.specs.Prelude.{◌≡◌, ℕ, ◌*◌, ◌^◌, ◌<◌, ◌≤◌, ℤ, pos, ◌+ℤ◌, ◌-ℤ◌, ◌≤ℤ◌, ◌↔◌, Decides, IsTrue, MatchOption, int_div, int_rem, unsigned_abs};
ghost use Rattle.numbers.specs.Kinds.{short_loading, short_working, long_loading, long_working};
ghost use Rattle.std.proofs.Common.{rules};

use std::ops::{Add, Sub};

// A signed number of some width, by the whole number `value` that it stands for.
// Equality, the conversion from a short number, sums and differences are those of the whole numbers, as the laws below say.
pub trait Coordinate: Copy + PartialEq + From<i32> + Add<Output = Self> + Sub<Output = Self> {
    ghost value: { Self → ℤ };

    ghost LOADING: { ℕ };

    ghost WORKING: { ℕ };

    // Magnitudes below this may be loaded.
    const LOADING: u64;

    // Work stays below this, and sums and differences may reach eight times as far.
    const WORKING: u64;

    // The magnitude.
    fn magnitude(self) -> u64
        ensures { result ≡ unsigned_abs (value self) };

    // Whether the coordinate may be loaded. This and the next are two functions, and not one with a limit: the names say what the limits are for, and no caller has to pass one.
    fn loads(self) -> bool
        ensures { Decides result (unsigned_abs (value self) < LOADING) }
    {
        self.magnitude() < Self::LOADING
    }

    // Whether the coordinate may be worked with.
    fn works(self) -> bool
        ensures { Decides result (unsigned_abs (value self) < WORKING) }
    {
        self.magnitude() < Self::WORKING
    }

    // The coordinate that stands for a long number, if that may be loaded.
    fn load(v: i64) -> Option<Self>
        ensures { MatchOption result (unsigned_abs v < LOADING → ⊥) (λ c. (unsigned_abs v < LOADING) × (value c ≡ v)) };

    // The quotient, towards 0.
    fn over(self, divisor: i32) -> Self
        requires { pos 2 ≤ℤ divisor }
        ensures { value result ≡ int_div (value self) divisor };

    // The remainder of the quotient towards 0.
    fn rest(self, divisor: i32) -> i32
        requires { pos 2 ≤ℤ divisor }
        ensures { result ≡ int_rem (value self) divisor };

    ghost apart: { (a b : Self) → value a ≡ value b → a ≡ b };

    ghost same: { (a b : Self) → IsTrue (Self.eq a b) ↔ (value a ≡ value b) };

    ghost from_short: { (v : ℤ) (c : Self) → Self.from_gives v c → value c ≡ v };

    ghost has_sum: { (a b : Self) → unsigned_abs (value a +ℤ value b) < 8 * WORKING → Self.can_add a b };

    ghost sum: { (a b c : Self) → Self.add_gives a b c → value c ≡ value a +ℤ value b };

    ghost has_difference: { (a b : Self) → unsigned_abs (value a -ℤ value b) < 8 * WORKING → Self.can_sub a b };

    ghost difference: { (a b c : Self) → Self.sub_gives a b c → value c ≡ value a -ℤ value b };

    ghost limits: { (1024 ≤ LOADING) × (16 * LOADING ≤ WORKING) × (2 ^ 28 ≤ WORKING) × (LOADING ≤ 2 ^ 56) };
}

// The short kind: 32 bits. The two kinds have four bodies of a line each, which call what std gives each width by itself: no trait of std has it for both. `works` has a body of its own here for speed alone.
impl Coordinate for i32 {
    ghost value = { λ x. x };

    ghost LOADING = { short_loading };

    ghost WORKING = { short_working };

    ghost apart = { Prim.search rules };

    ghost same = { Prim.search rules };

    ghost from_short = { Prim.search rules };

    ghost has_sum = { Prim.search rules };

    ghost sum = { Prim.search rules };

    ghost has_difference = { Prim.search rules };

    ghost difference = { Prim.search rules };

    ghost limits = { Prim.search rules };

    const LOADING: u64 = 1 << 24;

    const WORKING: u64 = 1 << 28;

    fn magnitude(self) -> u64 {
        u64::from(self.unsigned_abs())
    }

    // By a range, in place of the trait's body: the compiler drops it from a loop whose ends it knows, and a test of the magnitude stays there.
    fn works(self) -> bool {
        let limit = Self::WORKING as i32;
        (1 - limit..limit).contains(&self)
    }

    fn load(v: i64) -> Option<i32> {
        i32::try_from(v).ok().filter(|c| c.loads())
    }

    fn over(self, divisor: i32) -> i32 {
        self / divisor
    }

    fn rest(self, divisor: i32) -> i32 {
        self % divisor
    }
}

// The long kind: 64 bits.
impl Coordinate for i64 {
    ghost value = { λ x. x };

    ghost LOADING = { long_loading };

    ghost WORKING = { long_working };

    ghost apart = { Prim.search rules };

    ghost same = { Prim.search rules };

    ghost from_short = { Prim.search rules };

    ghost has_sum = { Prim.search rules };

    ghost sum = { Prim.search rules };

    ghost has_difference = { Prim.search rules };

    ghost difference = { Prim.search rules };

    ghost limits = { Prim.search rules };

    const LOADING: u64 = 1 << 48;

    const WORKING: u64 = 1 << 52;

    fn magnitude(self) -> u64 {
        self.unsigned_abs()
    }

    fn load(v: i64) -> Option<i64> {
        Some(v).filter(|c| c.loads())
    }

    fn over(self, divisor: i32) -> i64 {
        self / i64::from(divisor)
    }

    fn rest(self, divisor: i32) -> i32 {
        (self % i64::from(divisor)) as i32
    }
}
