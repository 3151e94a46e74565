// Recodes one element in the system kp, at width 2 with the digits 1 and −1, and prints what that involves.

#![tactic(auto)]

ghost use Rattle.std.specs.Prelude.{◌≡◌, IfSome};
ghost use Rattle.ring.specs.Elem.{Below, add};
ghost use Rattle.ring.specs.System.{mul};
ghost use Rattle.ring.specs.Expansion.{weighted};
ghost use Rattle.numbers.specs.Kinds.{long_loading};
ghost use Rattle.numbers.specs.Meaning.{meaning, short};
ghost use Rattle.systems.specs.Named.{kp};
ghost use Rattle.digits.specs.Digits.{elem_of};
ghost use Rattle.recoding.specs.Walk.{digits_of};

use anyhow::Context;
use digits::digit::Digit;
use digits::numeration::Numeration;
use digits::width::Width;
use numbers::{Asks, Coordinate, Element};
use recoding::entry::Entry;
use recoding::recode::expand;
use std::io::Read;
use systems::KP;

// The most digits that are looked for: an element that may be loaded has fewer.
const BUDGET: usize = 256;

// What is recoded where standard input is empty.
const DEFAULT: Element<i64> = Element { x: 9, y: 0 };

// The digit d plus β times the weighted sum of the higher digits.
fn lower<C: Coordinate>(d: Digit, sum: Element<C>) -> Element<C>
    requires { Below C.WORKING (meaning C.value sum) }
    ensures { meaning C.value result ≡ add (elem_of d) (mul kp kp.β (meaning C.value sum)) }
{
    let e = Element::<C>::from_short(d.element());
    Element {
        x: e.x - (sum.y + sum.y),
        y: e.y + (sum.x + sum.y),
    }
}

// The weighted sum of the digits, from the highest down, if it is below the working limit all the way.
fn weighted_sum(entries: &[Entry<i64>]) -> Option<Element<i64>>
    ensures { IfSome result (λ v. short v ≡ weighted kp (digits_of entries.now)) }
{
    let mut sum = Element { x: 0, y: 0 };
    for entry in entries.iter().rev() {
        if !sum.works() {
            return None;
        }
        sum = lower(entry.digit, sum);
    }
    Some(sum)
}

// The element that the text writes as x or as x,y, in decimal, if it may be loaded.
fn element_of(text: &str) -> Option<Element<i64>>
    ensures { IfSome result (λ z. Below long_loading (short z)) }
{
    let text = text.trim();
    if text.is_empty() {
        return Some(DEFAULT);
    }
    let (x, y) = text.split_once(',').unwrap_or((text, "0"));
    let z = Element {
        x: x.trim().parse::<i64>().ok()?,
        y: y.trim().parse::<i64>().ok()?,
    };
    z.loads().then_some(z)
}

// Recodes z and prints each digit with its remainder, then the weighted sum.
fn recode(rt: &HostRuntime, z: Element<i64>) -> anyhow::Result<()> {
    let digits = [
        Digit::new(1, 0).context("no such digit")?,
        Digit::new(-1, 0).context("no such digit")?,
    ];
    let numeration = Numeration {
        system: &KP,
        width: Width::new(2).context("no such width")?,
        digits: &digits,
    };
    let mut entries = [Entry {
        digit: Digit::none(),
        remainder: z,
    }; BUDGET];
    let length = expand(numeration, z, &mut entries)?;
    report(rt, z, &entries[..length])
}

fn report(rt: &HostRuntime, z: Element<i64>, entries: &[Entry<i64>]) -> anyhow::Result<()> {
    println!(rt; "{z} in kp at width 2 with the digits 1,0 and -1,0")?;
    for Entry { digit, remainder } in entries {
        println!(rt; "digit {} remainder {}", digit.element(), *remainder)?;
    }
    let sum = weighted_sum(entries).context("the weighted sum is beyond the working limit")?;
    let verdict = if sum == z {
        "the element"
    } else {
        "another element"
    };
    println!(rt;
        "{} digits, whose weighted sum is {sum}: {verdict}",
        entries.len()
    )?;
    Ok(())
}

fn run(rt: &HostRuntime) -> anyhow::Result<()> {
    let mut input = String::new(rt.alloc());
    rt.read_line(&mut input)?;
    let z = element_of(input.as_str()).context("write x or x,y in decimal, magnitudes below 2^48")?;
    recode(rt, z)
}

fn main(rt: HostRuntime) -> anyhow::Result<()> {
    run(&rt)
}
