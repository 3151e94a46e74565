// What a line of a sheet asks for.
ghost use Rattle.std.specs.Prelude.{◌≡◌, ℕ, ◌^◌, ◌<◌, MatchOption};
ghost use Rattle.sheet.specs.Parting.{Within};
ghost use Rattle.sheet.specs.declared.line.System.{System as Name};
ghost use Rattle.rules.specs.declared.calls.Call.{Call as Asked};
ghost use Rattle.replies.specs.Asked.{Asks, Calls, Chosen, Chooses};

use numbers::Element;
use rules::calls::Call;
use sheet::field::Field;
use sheet::line::{Line, System};
use sheet::reading::read_line;

// A system, and the modulus, the root and the start of its residue engine, which are signed numbers of 64 bits too.
#[derive(Clone, Copy, Debug, PartialEq, Eq)]
pub struct Choice {
    pub system: System,
    pub modulus: u64,
    pub root: u64,
    pub start: u64,
    ghost modulus_fits: { modulus < 2 ^ 63 },
    ghost root_fits: { root < 2 ^ 63 },
    ghost start_fits: { start < 2 ^ 63 },
}

// The call that a line asks for, and none for the line of a system.
fn call_of(line: Line) -> Option<Call>
    ensures { MatchOption result ((c : Asked) → ¬ (Calls line.entry c)) (λ c. Calls line.entry c) }
{
    match line {
        Line::System { .. } => None,
        Line::Width(w) => Some(Call::Width(w.value)),
        Line::Put(x, y) => Some(Call::Put(x.value, y.value)),
        Line::Take(x, y) => Some(Call::Take(x.value, y.value)),
        Line::Check => Some(Call::Check),
        Line::Load(x, y) => Some(Call::Load(Element {
            x: x.value,
            y: y.value,
        })),
    }
}

// The call that the field asks for as a line of a sheet.
pub fn asked(f: Field) -> Option<Call>
    requires { Within f }
    ensures { MatchOption result ((c : Asked) → ¬ (Asks f.entry c)) (λ c. Asks f.entry c) }
{
    call_of(read_line(f).ok()?)
}

// What a line chooses, and none for the line of a call.
fn choice_of(line: Line) -> Option<Choice>
    ensures { MatchOption result ((t : Name) (m r g : ℕ) → ¬ (Chooses line.entry t m r g)) (λ q. Chooses line.entry q.system q.modulus q.root q.start) }
{
    match line {
        Line::System {
            system,
            modulus,
            root,
            start,
        } => Some(Choice {
            system,
            modulus: modulus.value,
            root: root.value,
            start: start.value,
        }),
        _ => None,
    }
}

// What the field chooses as the first line of a sheet.
pub fn chosen(f: Field) -> Option<Choice>
    requires { Within f }
    ensures { MatchOption result ((t : Name) (m r g : ℕ) → ¬ (Chosen f.entry t m r g)) (λ q. Chosen f.entry q.system q.modulus q.root q.start) }
{
    choice_of(read_line(f).ok()?)
}
