// A run, from its load to its end.
ghost use Rattle.std.specs.Prelude.{◌≡◌, ◌+◌, true};
ghost use Rattle.unit.specs.Seen.{setting, view};
ghost use Rattle.transcript.specs.Serving.{TicksOut, RunsOut};

use listing::Line;
use numbers::{Asks, Coordinate, Element, NumberSystem, Ruled};
use replies::printing::print;
use replies::sink::Sink;
use residue::ResidueEngine;
use rules::calls::{Answer, Call, Standing};
use unit::unit::Unit;

// Makes one tick and prints its digit, if a run is on, and tells whether one was.
fn tick_out<S: NumberSystem, K: Sink>(unit: &mut Unit<S, ResidueEngine>, out: &mut K) -> bool
    ensures counts { result ≡ true → (view S.Kind.value unit.new).ticks ≡ (view S.Kind.value unit.old).ticks + 1 }
    ensures serves { TicksOut K.held (setting S.ring S.WIDEST S.Kind.LOADING S.Kind.WORKING) (view S.Kind.value unit.old) (view S.Kind.value unit.new) out.old out.new result }
{
    if unit.standing() != Standing::Running {
        return false;
    }
    let Answer::Digit(Element { x, y }) = unit.perform(Call::Tick) else {
        return false;
    };
    print(out, Line::Tick { x, y });
    true
}

// Makes the ticks of a run until it closes and prints their digits, then their number and the total.
pub fn run_out<S: NumberSystem, K: Sink>(unit: &mut Unit<S, ResidueEngine>, out: &mut K)
    ensures { RunsOut K.held (setting S.ring S.WIDEST S.Kind.LOADING S.Kind.WORKING) (view S.Kind.value unit.old) (view S.Kind.value unit.new) out.old out.new }
{
    let mut ticks = unit.ticks();
    // The count is read in every turn: a count that was read is known to be below 2^32, which bounds the turns.
    while tick_out(unit, out) {
        ticks = unit.ticks();
    }
    print(
        out,
        Line::Run {
            ticks,
            total: unit.engine().value(),
        },
    );
}
