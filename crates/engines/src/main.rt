// Feeds the expansion of 9 in kp into both engines, and prints their totals, and which engines are refused.

#![tactic(auto)]

ghost use Rattle.std.specs.Prelude.{◌≡◌, pos, MatchOption};
ghost use Rattle.ring.specs.Expansion.{weighted};
ghost use Rattle.engine.specs.Meaning.{act, elem};
ghost use Rattle.engine.specs.Rings.{Over};
ghost use Rattle.systems.specs.Named.{kp};
ghost use Rattle.digits.specs.Digits.{elems};

use anyhow::Context;
use digits::digit::Digit;
use engine::PointEngine;
use numbers::Ruled;
use refusals::Refusal;
use residue::ResidueEngine;
use std::fmt;
use systems::Kp;
use word::WordEngine;

// Restarts the engine, and for each digit adds it and moves on by the base: where the engine is over the system's ring,
// the total is then the weighted sum of the digits acting on the start point.
fn drive<S: Ruled, E: PointEngine>(engine: &mut E, digits: &[Digit])
    ensures same { E.machine.meaning engine.new ≡ E.machine.meaning engine.old }
    ensures total { Over S.ring (E.machine.meaning engine.old) → E.machine.total_of engine.new ≡ act (E.machine.meaning engine.old) (weighted S.ring (elems digits.now)) (E.machine.meaning engine.old).start }
{
    let base = S::BASE;
    engine.restart();
    for d in digits {
        let e = d.element();
        engine.add(e.x, e.y);
        engine.shift(base.x, base.y);
    }
}

// The digits of 9 in kp at width 2 over 1 and −1: 1, 0, 0, −1, 0, 1.
fn nine() -> Option<[Digit; 6]>
    ensures { MatchOption result ⊥ (λ ds. weighted kp (elems ds) ≡ elem (pos 9) (pos 0)) }
{
    let zero = Digit::none();
    let one = Digit::new(1, 0)?;
    let minus_one = Digit::new(-1, 0)?;
    Some([one, zero, zero, minus_one, zero, one])
}

// Prints that the engine of these numbers is made, feeds it the digits and prints its total; or prints why it is refused.
fn report<E: PointEngine + Drop>(
    rt: &HostRuntime,
    kind: &str,
    numbers: impl fmt::Display + Drop,
    made: Result<E, Refusal>,
) -> anyhow::Result<()> {
    match made {
        Ok(mut engine) => {
            println!(rt; "{kind} engine, {numbers}: made")?;
            let digits = nine().context("no such digit")?;
            drive::<Kp, E>(&mut engine, &digits);
            println!(rt; "{kind} engine: total {}", engine.total())?;
        }
        Err(refusal) => {
            let number = u8::from(refusal);
            println!(rt; "{kind} engine, {numbers}: refused {number} {refusal}")?;
        }
    }
    Ok(())
}

// A residue engine over the ring of kp, or why it is refused.
fn residue(rt: &HostRuntime, m: i64, r: i64, g: i64) -> anyhow::Result<()> {
    let made = ResidueEngine::new(1, 2, m, r, g);
    report(rt, "residue", format_args!("m {m}, r {r}, start {g}"), made)
}

// A word engine, or why it is refused.
fn word(rt: &HostRuntime, t: i64, n: i64, u: u32, v: u32) -> anyhow::Result<()> {
    let made = WordEngine::new(t, n, u, v);
    report(
        rt,
        "word",
        format_args!("t {t}, n {n}, start {u},{v}"),
        made,
    )
}

fn main(rt: HostRuntime) -> anyhow::Result<()> {
    residue(&rt, 11, 5, 1)?;
    residue(&rt, 11, 4, 1)?;
    residue(&rt, 11, 5, 11)?;
    residue(&rt, 1, 0, 0)?;
    residue(&rt, 2147483648, 0, 0)?;
    word(&rt, 1, 2, 3, 5)?;
    word(&rt, 2, 2, 3, 5)?;
    word(&rt, 1, 0, 3, 5)
}
