// The lines that answer the calls of a sheet, and how lines are printed.
ghost use Rattle.std.specs.Prelude.{◌≡◌};
ghost use Rattle.listing.specs.Lines.{text_of};
ghost use Rattle.replies.specs.Sinks.{Given};
ghost use Rattle.replies.specs.Reply.{Counted, answer_line, held_line, text_of_reply, verdict_line};

use crate::sink::Sink;
use digits::verdict::Verdict;
use listing::{Line, ROOM};
use rules::calls::{Answer, Call};

// The line for how many digits are held, after a put or a take.
fn held_line(call: Call, held: u32) -> Option<Line>
    ensures { text_of_reply result ≡ held_line call held }
{
    match call {
        Call::Put(..) => Some(Line::Put(held)),
        Call::Take(..) => Some(Line::Take(held)),
        _ => None,
    }
}

// The line for a verdict.
fn verdict_line(verdict: Verdict) -> Line
    ensures { text_of result ≡ verdict_line verdict }
{
    match verdict {
        Verdict::Cleared => Line::Cleared,
        Verdict::Barred {
            first,
            lead,
            period,
        } => Line::Barred {
            x: first.x,
            y: first.y,
            lead,
            period,
        },
    }
}

// The line that answers a call of line `number`, if one does: an abandon has none.
pub fn reply(number: u32, call: Call, answer: Answer) -> Option<Line>
    requires { Counted answer }
    ensures { text_of_reply result ≡ answer_line number call answer }
{
    match answer {
        Answer::Classes(classes) => Some(Line::Width(classes)),
        Answer::Held(held) => held_line(call, held as u32),
        Answer::Judged(verdict) => Some(verdict_line(verdict)),
        Answer::Loaded => Some(Line::Load),
        Answer::Digit(digit) => Some(Line::Tick {
            x: digit.x,
            y: digit.y,
        }),
        Answer::Abandoned => None,
        Answer::Refused(why) => Some(Line::Refused { why, line: number }),
    }
}

// Prints a line.
pub fn print<K: Sink>(out: &mut K, line: Line)
    ensures { Given K.held out.old out.new (text_of line) }
{
    let mut buffer = [0; ROOM];
    let length = line.write(&mut buffer).unwrap();
    out.write(&buffer[..length]);
}

// Prints the answer to a call of line `number`.
pub fn answer<K: Sink>(out: &mut K, number: u32, call: Call, answer: Answer)
    requires { Counted answer }
    ensures { Given K.held out.old out.new (answer_line number call answer) }
{
    if let Some(line) = reply(number, call, answer) {
        print(out, line);
    }
}
