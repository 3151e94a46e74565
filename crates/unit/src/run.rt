ghost use Rattle.std.specs.Prelude.{◌≡◌, min, map, reverse, length, take, drop};
ghost use Rattle.rules.specs.Told.{Tells};
ghost use Rattle.rules.specs.Comes.{Kept, Throughout};
ghost use Rattle.unit.specs.Seen.{setting, view};

use crate::unit::Unit;
use engine::PointEngine;
use numbers::{Asks, Coordinate, NumberSystem, Ruled};
use rules::calls::{Answer, Call, Event};

impl<S: NumberSystem, E: PointEngine> Unit<S, E> {
    // Makes a call, and answers as it does.
    fn answer_to(&mut self, call: Call) -> Answer
        ensures told { Tells (setting S.ring S.WIDEST S.Kind.LOADING S.Kind.WORKING) E.machine (view S.Kind.value self.old) (view S.Kind.value self.new) call result }
        ensures system { self.new.system ≡ self.old.system }
    {
        match call {
            Call::Width(places) => self
                .set_width(places)
                .map_or_else(Answer::Refused, Answer::Classes),
            Call::Put(x, y) => self.put(x, y).map_or_else(Answer::Refused, Answer::Held),
            Call::Take(x, y) => self.take(x, y).map_or_else(Answer::Refused, Answer::Held),
            Call::Check => self.check().map_or_else(Answer::Refused, Answer::Judged),
            Call::Load(z) => self
                .load(z)
                .map_or_else(Answer::Refused, |()| Answer::Loaded),
            Call::Tick => self.tick().map_or_else(Answer::Refused, Answer::Digit),
            Call::Abandon => self
                .abandon()
                .map_or_else(Answer::Refused, |()| Answer::Abandoned),
        }
    }

    // Makes a call: for every engine and history that the unit comes from, it then comes from that history with this event,
    // and all that is to hold after it holds.
    pub fn perform(&mut self, call: Call) -> Answer
        ensures told { Tells (setting S.ring S.WIDEST S.Kind.LOADING S.Kind.WORKING) E.machine (view S.Kind.value self.old) (view S.Kind.value self.new) call result }
        ensures kept { Kept (setting S.ring S.WIDEST S.Kind.LOADING S.Kind.WORKING) E.machine (view S.Kind.value self.old) (view S.Kind.value self.new) call result }
        ensures system { self.new.system ≡ self.old.system }
    {
        self.answer_to(call)
    }
}

// Makes the calls on a new unit, as many as the log has places for, writes an event for each into the log, and answers the unit.
pub fn run_calls<S: NumberSystem, E: PointEngine>(
    system: S,
    engine: E,
    calls: &[Call],
    log: &mut [Event],
) -> Unit<S, E>
    ensures calls { map (λ e. e.call) (take (min (length calls.now) (length log.old)) log.new) ≡ take (min (length calls.now) (length log.old)) calls.now }
    ensures throughout { Throughout (setting S.ring S.WIDEST S.Kind.LOADING S.Kind.WORKING) E.machine engine (reverse (take (min (length calls.now) (length log.old)) log.new)) (view S.Kind.value result) }
    ensures rest { drop (min (length calls.now) (length log.old)) log.new ≡ drop (min (length calls.now) (length log.old)) log.old }
    ensures system { result.system ≡ system }
{
    let n = calls.len().min(log.len());
    let mut unit = Unit::new(system, engine);
    for (i, call) in calls[..n].iter().enumerate() {
        let answer = unit.perform(*call);
        log[i] = Event {
            call: *call,
            answer,
            standing: unit.standing(),
        };
    }
    unit
}
