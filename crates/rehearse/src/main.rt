// Makes lists of calls on new units over every system and both engines, and prints what each call answered and how the unit then stood.

#![tactic(auto)]

use engine::PointEngine;
use numbers::{Element, NumberSystem};
use residue::ResidueEngine;
use rules::calls::{Answer, Call, Event, Standing};
use systems::{AtShort, G5, KM, KP};
use unit::run::run_calls;
use word::WordEngine;

// The most calls of one list.
const MOST: usize = 64;

// Makes the calls on a new unit, and prints its log and then what the unit tells.
fn rehearse<S: NumberSystem, E: PointEngine>(
    rt: &HostRuntime,
    name: &str,
    system: S,
    engine: E,
    calls: &[Call],
) -> anyhow::Result<()>
where
    S: Drop,
    E: Drop,
{
    println!(rt; "{name}")?;
    let blank = Event {
        call: Call::Check,
        answer: Answer::Loaded,
        standing: Standing::Draft,
    };
    let mut log = [blank; MOST];
    let unit = run_calls(system, engine, calls, &mut log);
    for event in log.iter().take(calls.len()) {
        println!(rt; "{}", *event)?;
    }
    println!(rt;
        "width {}, {} held, table need {}, {} ticks, total {}",
        unit.width(),
        unit.held(),
        unit.table_need(),
        unit.ticks(),
        unit.engine().total()
    )?;
    Ok(())
}

fn at(x: i64, y: i64) -> Call {
    Call::Load(Element { x, y })
}

// The runs and refusals over kp and a residue engine.
fn kp_residue(rt: &HostRuntime, engine: ResidueEngine) -> anyhow::Result<()> {
    let calls = [
        Call::Tick,
        at(9, 0),
        Call::Check,
        Call::Width(0),
        Call::Width(9),
        Call::Width(4294967297),
        Call::Width(2),
        Call::Put(256, 0),
        Call::Put(1099511627776, 0),
        Call::Put(0, 0),
        Call::Put(2, 0),
        Call::Put(1, 0),
        Call::Put(5, 0),
        Call::Take(3, 0),
        Call::Put(-1, 0),
        Call::Check,
        at(281474976710656, 0),
        at(281474976710655, 0),
        Call::Abandon,
        at(0, 0),
        Call::Tick,
        at(9, 0),
        Call::Put(3, 0),
        Call::Tick,
        Call::Tick,
        Call::Tick,
        Call::Abandon,
        at(9, 0),
        Call::Tick,
        Call::Tick,
        Call::Tick,
        Call::Tick,
        Call::Tick,
        Call::Tick,
        Call::Tick,
        Call::Abandon,
    ];
    rehearse(rt, "kp, residue engine 11, 5, start 1", KP, engine, &calls)
}

// Doubled digits, a barred set, and the limits of the short kind.
fn others(rt: &HostRuntime) -> anyhow::Result<()> {
    let narrow = [
        Call::Put(255, 0),
        Call::Take(255, 0),
        Call::Put(1, 0),
        Call::Put(3, 0),
        Call::Width(2),
        Call::Put(1, 0),
        Call::Put(3, 0),
        Call::Width(1),
        Call::Put(1, -1),
        Call::Check,
        at(1, 0),
    ];
    if let Ok(engine) = WordEngine::new(1, 2, 3, 5) {
        rehearse(rt, "kp, word engine 3, 5", KP, engine, &narrow)?;
    }
    let short = [
        Call::Width(2),
        Call::Put(1, 0),
        Call::Put(-1, 0),
        Call::Check,
        at(16777216, 0),
        at(16777215, 0),
        Call::Abandon,
    ];
    if let Ok(engine) = ResidueEngine::new(-1, 2, 11, 6, 1) {
        rehearse(
            rt,
            "km, short, residue engine 11, 6, start 1",
            AtShort(KM),
            engine,
            &short,
        )?;
    }
    let five = [
        Call::Put(2, 1),
        Call::Put(1, 0),
        Call::Put(-1, 0),
        Call::Put(0, 1),
        Call::Put(0, -1),
        Call::Check,
        at(2, 0),
        Call::Tick,
        Call::Tick,
    ];
    if let Ok(engine) = ResidueEngine::new(0, 1, 5, 2, 1) {
        rehearse(rt, "g5, residue engine 5, 2, start 1", G5, engine, &five)?;
    }
    if let Ok(engine) = ResidueEngine::new(1, 2, 11, 5, 1) {
        rehearse(rt, "g5, an engine of another ring", G5, engine, &five)?;
    }
    Ok(())
}

fn run(rt: &HostRuntime) -> anyhow::Result<()> {
    if let Ok(engine) = ResidueEngine::new(1, 2, 11, 5, 1) {
        kp_residue(rt, engine)?;
    }
    others(rt)
}

fn main(rt: HostRuntime) -> anyhow::Result<()> {
    run(&rt)
}
