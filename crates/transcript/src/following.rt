// The lines of a sheet behind its first.
ghost use Rattle.std.specs.Prelude.{◌≤◌, length};
ghost use Rattle.unit.specs.Seen.{setting, view};
ghost use Rattle.sheet.specs.Parting.{Within};
ghost use Rattle.transcript.specs.Serving.{Serves};
ghost use Rattle.transcript.specs.Transcript.{longest, Goes_on};

use crate::answering::answer_line;
use listing::Line;
use numbers::{Asks, Coordinate, NumberSystem, Ruled};
use replies::printing::print;
use replies::sink::Sink;
use residue::ResidueEngine;
use sheet::cutting::next_line;
use sheet::field::Field;
use unit::unit::Unit;

// What stands behind the first line of a sheet that is not too long.
#[derive(Clone, Copy, Debug, PartialEq, Eq)]
pub struct Rest<'a> {
    pub lines: Field<'a>,
    ghost within: { Within lines },
    ghost short: { length lines.text.now ≤ longest },
}

// Answers the lines of a sheet, one after the other, from line 2 on.
pub fn follow<S: NumberSystem, K: Sink>(unit: &mut Unit<S, ResidueEngine>, rest: Rest, out: &mut K)
    ensures { Serves K.held (setting S.ring S.WIDEST S.Kind.LOADING S.Kind.WORKING) (view S.Kind.value unit.old) (view S.Kind.value unit.new) out.old out.new (λ m h g text. Goes_on (setting S.ring S.WIDEST S.Kind.LOADING S.Kind.WORKING) m 2 rest.entry.lines h text) }
{
    // Counted by hand: each line is cut from what the one before it left, and a refusal tells its number.
    let mut left = rest.lines;
    let mut number: u32 = 2;
    loop {
        match next_line(left) {
            Ok(Some((line, behind))) => {
                answer_line(unit, number, line, out);
                left = behind;
                number += 1;
            }
            Ok(None) => return,
            Err(why) => {
                print(out, Line::Refused { why, line: number });
                return;
            }
        }
    }
}
