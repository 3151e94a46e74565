// The answer to one line of a sheet.
ghost use Rattle.unit.specs.Seen.{setting, view};
ghost use Rattle.sheet.specs.Parting.{Within};
ghost use Rattle.transcript.specs.Serving.{Serves};
ghost use Rattle.transcript.specs.Transcript.{Answers, AnsweredLine};

use crate::running::run_out;
use listing::Line;
use numbers::{Asks, Coordinate, NumberSystem, Ruled};
use refusals::Refusal;
use replies::asking::asked;
use replies::printing::{self, print};
use replies::sink::Sink;
use residue::ResidueEngine;
use rules::calls::{Answer, Call};
use sheet::field::Field;
use unit::unit::Unit;

// Here and below the unit and the sink go together as two references: a struct of both would be made anew at each of the five functions, and its clauses would name the same two.
// Makes a call of line `number` and prints its answer; behind the answer to a load, the whole run.
fn answer_call<S: NumberSystem, K: Sink>(
    unit: &mut Unit<S, ResidueEngine>,
    number: u32,
    call: Call,
    out: &mut K,
)
    ensures { Serves K.held (setting S.ring S.WIDEST S.Kind.LOADING S.Kind.WORKING) (view S.Kind.value unit.old) (view S.Kind.value unit.new) out.old out.new (λ m h g text. Answers (setting S.ring S.WIDEST S.Kind.LOADING S.Kind.WORKING) m number call h g text) }
{
    let answer = unit.perform(call);
    printing::answer(out, number, call, answer);
    if answer == Answer::Loaded {
        run_out(unit, out);
    }
}

// Answers line `number` of a sheet.
pub fn answer_line<S: NumberSystem, K: Sink>(
    unit: &mut Unit<S, ResidueEngine>,
    number: u32,
    line: Field,
    out: &mut K,
)
    requires { Within line }
    ensures { Serves K.held (setting S.ring S.WIDEST S.Kind.LOADING S.Kind.WORKING) (view S.Kind.value unit.old) (view S.Kind.value unit.new) out.old out.new (λ m h g text. AnsweredLine (setting S.ring S.WIDEST S.Kind.LOADING S.Kind.WORKING) m number line.entry h g text) }
{
    match asked(line) {
        Some(call) => answer_call(unit, number, call, out),
        None => print(
            out,
            Line::Refused {
                why: Refusal::Line,
                line: number,
            },
        ),
    }
}
