// What the systems share: a test of divisibility by a number.

ghost use Rattle.std.specs.Prelude.{◌≡◌, pos, ◌≤ℤ◌, Decides, int_rem};

use numbers::Coordinate;

// Whether the divisor divides v.
pub fn multiple<C: Coordinate>(v: C, divisor: i32) -> bool
    requires { pos 2 ≤ℤ divisor }
    ensures { Decides result (int_rem (C.value v) divisor ≡ pos 0) }
{
    v.rest(divisor) == 0
}
