// Norms of short elements, in 64 bits.

ghost use Rattle.std.specs.Prelude.{◌≡◌, ◌^◌, ◌<◌, ◌≤◌, ◌+ℤ◌, ◌*ℤ◌, unsigned_abs};
ghost use Rattle.ring.specs.Elem.{Below};
ghost use Rattle.numbers.specs.Kinds.{short_working};
ghost use Rattle.numbers.specs.Meaning.{short};

use crate::elements::Element;

// The whole product of two short coordinates.
fn product(a: i32, b: i32) -> i64
    requires { (unsigned_abs a < short_working) × (unsigned_abs b < short_working) }
    ensures is { result ≡ a *ℤ b }
    ensures small { unsigned_abs result ≤ 2 ^ 56 }
{
    i64::from(a) * i64::from(b)
}

// At most twice such a product.
fn scaled(k: i32, a: i64) -> i64
    requires { (unsigned_abs k ≤ 2) × (unsigned_abs a ≤ 2 ^ 56) }
    ensures is { result ≡ k *ℤ a }
    ensures small { unsigned_abs result ≤ 2 ^ 57 }
{
    i64::from(k) * a
}

// The sum of three such numbers.
fn total(a: i64, b: i64, c: i64) -> i64
    requires { (unsigned_abs a ≤ 2 ^ 56) × ((unsigned_abs b ≤ 2 ^ 57) × (unsigned_abs c ≤ 2 ^ 57)) }
    ensures { result ≡ a +ℤ b +ℤ c }
{
    a + b + c
}

// The norm x² + t·x·y + n·y².
pub fn form(t: i32, n: i32, z: Element<i32>) -> i64
    requires { (unsigned_abs t ≤ 2) × ((unsigned_abs n ≤ 2) × (Below short_working (short z))) }
    ensures { result ≡ z.x *ℤ z.x +ℤ t *ℤ (z.x *ℤ z.y) +ℤ n *ℤ (z.y *ℤ z.y) }
{
    let xx = product(z.x, z.x);
    let xy = product(z.x, z.y);
    let yy = product(z.y, z.y);
    total(xx, scaled(t, xy), scaled(n, yy))
}
