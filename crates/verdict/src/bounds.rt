// How far the search has to go.

ghost use Rattle.std.specs.Prelude.{◌≡◌, ◌-◌, ◌*◌, ◌/◌, ◌^◌, ◌≤◌};
ghost use Rattle.ring.specs.Elem.{Below};
ghost use Rattle.ring.specs.System.{size};
ghost use Rattle.numbers.specs.Meaning.{short};
ghost use Rattle.digits.specs.Digits.{elems};
ghost use Rattle.verdict.specs.Bounds.{Most, Reaches};

use digits::digit::Digit;
use digits::numeration::Numeration;
use digits::residues::modulus;
use numbers::{Element, NumberSystem, Ruled};

// The norm of a small element.
pub fn norm_in<S: NumberSystem>(system: &S, z: Element<i32>) -> u32
    requires { Below 2048 (short z) }
    ensures { result ≡ size S.ring (short z) }
{
    system.norm_of(z) as u32
}

// The largest norm of a digit, or 0.
pub fn largest<S: NumberSystem>(system: &S, digits: &[Digit]) -> u32
    ensures small { result ≤ 260100 }
    ensures most { Most S.ring result (elems digits.now) }
{
    let mut most: u32 = 0;
    for d in digits {
        most = most.max(norm_in(system, d.element()));
    }
    most
}

// The largest N with N·(2·power − 3) ≤ 6·most.
pub fn norm_limit(most: u32, power: u32) -> u32
    requires { (most ≤ 260100) × ((2 ≤ power) × (power ≤ 2 ^ 24)) }
    ensures { result ≡ 6 * most / (2 * power - 3) }
{
    let divisor = 2 * power - 3;
    6 * most / divisor
}

// The norm up to which elements are looked at: if all of them have expansions, every element has one.
pub fn bound<S: NumberSystem>(numeration: Numeration<S>) -> u32
    ensures small { result ≤ 1560600 }
    ensures reaches { Reaches S.ring numeration.entry.width.places (elems numeration.entry.digits.now) result }
{
    norm_limit(
        largest(numeration.system, numeration.digits),
        modulus::<S>(numeration.width),
    )
}
