// Sequence and Select, and their memoryless forms, a child at a time.
ghost use Rattle.std.specs.Prelude.{◌≡◌, Bool, List, ◌<◌, ◌≤◌, Float};
ghost use Rattle.work.specs.Array.{fuel_of};
ghost use Rattle.work.specs.Flat.{out, Visitor, turn_out, turning, sequence, memoryless};
ghost use Rattle.turns.specs.Levels.{Fine, Keeps, Behind, goes, sequence_resumed, memoryless_resumed};

use crate::level::{Level, Turn, done_in_place};
use work::{
    Seen, Visit, child, end_of, fresh, passed, place_of, put_place, up_on, updates, waiting,
};

// From the place on.
pub fn sequence_opened(work: &[u32; 260], level: Level) -> Turn
    requires node_bound { level.node < 256 }
    requires next_bound { level.next ≤ 256 }
    ensures ts_value { (v : Visitor) (x : Bool) (ts : List Float)
        → turn_out x (sequence (turning x v) level.node level.whole work.now ts)
        ≡ goes (sequence_resumed x) v result work.now ts }
    ensures keeps { Keeps level result }
{
    let p = level.node;
    let stop = end_of(work, p);
    let i = place_of(work[p]);
    let q = child(work, stop, i, p + 1);
    if stop <= q {
        return Turn::Done(waiting());
    }
    let first = Level {
        child: q,
        stop,
        index: i,
        ..level
    };
    Turn::Due(first, level.whole)
}

// Moving on makes the old and the new child fresh.
pub fn sequence_resumed(
    work: &mut [u32; 260],
    times: &mut [f64],
    // Whether Success and Failure change places: a value, no step.
    exchange: bool,
    level: Level,
    res: Visit,
) -> Turn
    requires { Fine level }
    ensures times_value { (v : Visitor)
        → sequence_resumed exchange v level (out res.seen res.left work.old times.old)
        ≡ goes (sequence_resumed exchange) v result work.new times.new }
    ensures keeps { Keeps level result }
    ensures work_unchanged { fuel_of work.new ≡ fuel_of work.old }
{
    match res.seen.turned(exchange) {
        Seen::Stopped => Turn::Done(res),
        Seen::Running => done_in_place(work, level, waiting()),
        Seen::Failure => done_in_place(work, level, res),
        Seen::Success => {
            let next = end_of(work, level.child);
            let update = updates(work);
            if level.stop <= next {
                put_place(work, level.node, up_on(update, level.index));
                return Turn::Done(res);
            }
            let behind = end_of(work, next);
            fresh(work, times, level.child, behind);
            let moved = Level {
                child: next,
                index: level.index + 1,
                ..level
            };
            if !update {
                return done_in_place(work, moved, waiting());
            }
            Turn::Due(moved, res.left)
        }
    }
}

// All children are made fresh, then walked from the first.
pub fn memoryless_opened(
    work: &mut [u32; 260],
    times: &mut [f64],
    exchange: bool,
    level: Level,
) -> Turn
    requires node_bound { level.node < 256 }
    requires index_value { level.index ≡ 0 }
    ensures times_value { (v : Visitor)
        → turn_out exchange (memoryless (turning exchange v) level.node level.whole work.old times.old)
        ≡ goes (memoryless_resumed exchange) v result work.new times.new }
    ensures keeps { Keeps level result }
    ensures behind { Behind result }
    ensures work_unchanged { fuel_of work.new ≡ fuel_of work.old }
{
    let p = level.node;
    let dt = level.whole;
    let stop = end_of(work, p);
    let q = p + 1;
    if stop <= q {
        return Turn::Done(Visit {
            seen: Seen::Success.turned(exchange),
            left: passed(work, dt),
        });
    }
    fresh(work, times, q, stop);
    let first = Level {
        child: q,
        next: end_of(work, q),
        stop,
        ..level
    };
    Turn::Due(first, dt)
}

// Moving on makes the old child fresh.
pub fn memoryless_resumed(
    work: &mut [u32; 260],
    times: &mut [f64],
    exchange: bool,
    level: Level,
    res: Visit,
) -> Turn
    requires fine { Fine level }
    requires child_lt_next { level.child < level.next }
    ensures times_value { (v : Visitor)
        → memoryless_resumed exchange v level (out res.seen res.left work.old times.old)
        ≡ goes (memoryless_resumed exchange) v result work.new times.new }
    ensures keeps { Keeps level result }
    ensures behind { Behind result }
    ensures work_unchanged { fuel_of work.new ≡ fuel_of work.old }
{
    match res.seen.turned(exchange) {
        Seen::Stopped | Seen::Failure => Turn::Done(res),
        Seen::Running => Turn::Done(waiting()),
        Seen::Success => {
            let next = level.next;
            let rest = res.left;
            if level.stop <= next {
                return Turn::Done(Visit {
                    left: passed(work, rest),
                    ..res
                });
            }
            fresh(work, times, level.child, next);
            let moved = Level {
                child: next,
                next: end_of(work, next),
                ..level
            };
            Turn::Due(moved, rest)
        }
    }
}
