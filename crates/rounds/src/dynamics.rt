// Maps whose trails are followed.

ghost use Rattle.std.specs.Prelude.{◌≡◌, ℕ, ◌≤◌};
ghost use Rattle.ring.specs.Elem.{Elem, Below, 𝟘};
ghost use Rattle.ring.specs.System.{System, Lawful, size};
ghost use Rattle.numbers.specs.Meaning.{short};

use crate::order::Ranked;
use numbers::Element;

// A map on all elements that does not leave those of norm at most `cap`, and keeps 0 where it is. It knows no digits.
pub trait Dynamics {
    ghost ring: { Self → System };

    ghost next: { Self → Elem → Elem };

    ghost cap: { Self → ℕ };

    ghost lawful: { (s : Self) → Lawful (ring s) };

    ghost small: { (s : Self) → cap s ≤ 1600000 };

    ghost closed: { (s : Self) (z : Elem) → size (ring s) z ≤ cap s → size (ring s) (next s z) ≤ cap s };

    ghost rests: { (s : Self) → next s 𝟘 ≡ 𝟘 };

    // The next element.
    fn step(&self, z: Element<i32>) -> Element<i32>
        requires { size (ring self.now) (short z) ≤ cap self.now }
        ensures { short result ≡ next self.now (short z) };

    // The norm.
    fn norm(&self, z: Element<i32>) -> u32
        requires { Below 2048 (short z) }
        ensures { result ≡ size (ring self.now) (short z) };

    // The element with its norm.
    fn rank(&self, z: Element<i32>) -> Ranked
        requires { size (ring self.now) (short z) ≤ cap self.now }
        ensures norm { result.norm ≡ size (ring self.now) (short z) }
        ensures element { result.element ≡ z }
    {
        Ranked {
            norm: self.norm(z),
            element: z,
        }
    }
}
