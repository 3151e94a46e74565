// Prints the verdict on each set of standard input: a set to a line, as `kp 2 1,0 -1,0` for system, width and digits.

#![tactic(auto)]

use digits::verdict::Verdict;
use digits::width::Width;
use numbers::NumberSystem;
use refusals::Refusal;
use sets::table::DigitSet;
use systems::{G5, KM, KP};
use verdict::judge;

// The set of the digits that the words write, each put in its turn; a digit that is refused ends it.
fn set_of<S: NumberSystem>(system: &S, width: Width, words: &str) -> Result<DigitSet, Refusal> {
    let mut set = DigitSet::new(width);
    for word in words.split_whitespace() {
        let (x, y) = word.split_once(',').unwrap_or((word, "0"));
        let x = x.parse::<i64>().map_err(|_| Refusal::Line)?;
        let y = y.parse::<i64>().map_err(|_| Refusal::Line)?;
        let _held = set.put(system, x, y)?;
    }
    Ok(set)
}

// The verdict on the set that the words write.
fn verdict_of<S: NumberSystem>(system: &S, width: Width, words: &str) -> Result<Verdict, Refusal> {
    judge(system, &set_of(system, width, words)?)
}

// The verdict on the set of a line: its system, its width, its digits.
fn read(line: &str) -> Result<Verdict, Refusal> {
    let (name, rest) = line.split_once(' ').ok_or(Refusal::Line)?;
    let (places, words) = rest.split_once(' ').unwrap_or((rest, ""));
    let places = places.parse::<u32>().map_err(|_| Refusal::Line)?;
    let width = Width::new(places).ok_or(Refusal::Width)?;
    match name {
        "kp" => verdict_of(&KP, width, words),
        "km" => verdict_of(&KM, width, words),
        "g5" => verdict_of(&G5, width, words),
        _ => Err(Refusal::Line),
    }
}

fn report(rt: &HostRuntime, line: &str) -> anyhow::Result<()> {
    match read(line) {
        Ok(verdict) => println!(rt; "{verdict}")?,
        Err(refusal) => println!(rt; "refused {} {refusal}", u8::from(refusal))?,
    }
    Ok(())
}

fn run(rt: &HostRuntime) -> anyhow::Result<()> {
    for line in rt.lines(rt.alloc()) {
        report(rt, line?.as_str())?;
    }
    Ok(())
}

fn main(rt: HostRuntime) -> anyhow::Result<()> {
    run(&rt)
}
