// While and WhileAll, a child at a time.
ghost use Rattle.std.specs.Prelude.{◌≡◌, List, ℕ, ◌+◌, ◌<◌, ◌≤◌, Float};
ghost use Rattle.work.specs.Array.{fuel_of};
ghost use Rattle.work.specs.Flat.{out, Visitor, while_go, while_body, while_loop, while_all_go, while_all};
ghost use Rattle.turns.specs.Levels.{Fine, Entered, Keeps, InBody, Bodied, goes, while_resumed, while_all_resumed};

use crate::level::{Level, Turn, done_in_place};
use work::{
    FUEL, Seen, Visit, child, end_of, index_after, move_on, place_of, put_place, stopped, updates,
    waiting,
};

// The condition, before any turn.
pub fn while_opened(level: Level) -> Turn
    requires { Entered level }
    ensures ts_value { (v : Visitor) (ws : List ℕ) (ts : List Float) → while_loop v level.node level.whole ws ts ≡ goes while_resumed v result ws ts }
    ensures keeps { Keeps level result }
    ensures in_body { InBody result }
{
    let p = level.node;
    if 255 <= p {
        return Turn::Done(stopped());
    }
    let first = Level {
        child: p + 1,
        ..level
    };
    Turn::Due(first, level.whole)
}

// The body's child i, which is at q, with so many turns left.
fn while_next(level: Level, turns: u32, q: usize, i: u32, rest: f64) -> Turn
    requires node_lt_q { level.node < q }
    requires stop_bound { level.stop ≤ 256 }
    requires next_bound { level.next ≤ 256 }
    requires i_bound { i ≤ 255 + q }
    requires node_lt_next { level.node < level.next }
    ensures ts_value { (v : Visitor) (ws : List ℕ) (ts : List Float) → while_go v level.node level.stop level.next turns q i rest ws ts ≡ goes while_resumed v result ws ts }
    ensures keeps { Keeps level result }
    ensures in_body { InBody result }
{
    if turns == 0 {
        return Turn::Done(stopped());
    }
    if level.stop <= q {
        return Turn::Done(stopped());
    }
    let next = Level {
        child: q,
        index: i,
        count: turns,
        ..level
    };
    Turn::Due(next, rest)
}

// The condition is Running: the body with the whole dt, from the place on.
fn while_body(work: &[u32; 260], level: Level) -> Turn
    requires { level.node < 255 }
    ensures ts_value { (v : Visitor) (ts : List Float) → while_body v level.node level.whole work.now ts ≡ goes while_resumed v result work.now ts }
    ensures keeps { Keeps level result }
    ensures in_body { InBody result }
{
    let p = level.node;
    let stop = end_of(work, p);
    let body = end_of(work, p + 1);
    let i = place_of(work[p]);
    let first = Level {
        next: body,
        stop,
        ..level
    };
    while_next(
        first,
        work[FUEL],
        child(work, stop, i, body),
        i,
        level.whole,
    )
}

pub fn while_resumed(work: &mut [u32; 260], times: &mut [f64], level: Level, res: Visit) -> Turn
    requires fine { Fine level }
    requires node_lt_next { 0 < level.count → level.node < level.next }
    ensures times_value { (v : Visitor)
        → while_resumed v level (out res.seen res.left work.old times.old)
        ≡ goes while_resumed v result work.new times.new }
    ensures keeps { Keeps level result }
    ensures in_body { InBody result }
    ensures work_unchanged { fuel_of work.new ≡ fuel_of work.old }
{
    if level.count == 0 {
        return match res.seen {
            Seen::Running => while_body(work, level),
            _ => Turn::Done(res),
        };
    }
    match res.seen {
        Seen::Stopped => Turn::Done(res),
        Seen::Running => done_in_place(work, level, waiting()),
        Seen::Failure => done_in_place(work, level, res),
        Seen::Success => {
            if !updates(work) {
                return done_in_place(work, level, waiting());
            }
            let next = end_of(work, level.child);
            let moved = move_on(work, times, level.child, next, level.stop, level.next);
            while_next(
                level,
                level.count - 1,
                moved,
                index_after(level.index, next, level.stop),
                res.left,
            )
        }
    }
}

// The condition at place 0, with the whole dt, and else the body's child, which is at q, with the rest.
fn while_all_next(level: Level, turns: u32, q: usize, i: u32, rest: f64) -> Turn
    requires node_bound { level.node < 255 }
    requires node_lt_q { level.node < q }
    requires stop_bound { level.stop ≤ 256 }
    requires next_bound { level.next ≤ 256 }
    requires i_bound { i ≤ 255 + q }
    requires node_lt_next { level.node < level.next }
    ensures ts_value { (v : Visitor) (ws : List ℕ) (ts : List Float) → while_all_go v level.node level.stop level.next level.whole turns q i rest ws ts ≡ goes while_all_resumed v result ws ts }
    ensures keeps { Keeps level result }
    ensures bodied { Bodied result }
{
    if turns == 0 {
        return Turn::Done(stopped());
    }
    if i == 0 {
        let condition = Level {
            child: level.node + 1,
            index: i,
            count: turns - 1,
            rest,
            ..level
        };
        return Turn::Due(condition, level.whole);
    }
    if level.stop <= q {
        return Turn::Done(stopped());
    }
    let next = Level {
        child: q,
        index: i,
        count: turns - 1,
        ..level
    };
    Turn::Due(next, rest)
}

pub fn while_all_opened(work: &[u32; 260], level: Level) -> Turn
    requires { level.node < 256 }
    ensures ts_value { (v : Visitor) (ts : List Float) → while_all v level.node level.whole work.now ts ≡ goes while_all_resumed v result work.now ts }
    ensures keeps { Keeps level result }
    ensures bodied { Bodied result }
{
    let p = level.node;
    if 255 <= p {
        return Turn::Done(stopped());
    }
    let stop = end_of(work, p);
    let i = place_of(work[p]);
    let first = Level {
        next: end_of(work, p + 1),
        stop,
        ..level
    };
    while_all_next(
        first,
        work[FUEL],
        child(work, stop, i, p + 1),
        i,
        level.whole,
    )
}

pub fn while_all_resumed(work: &mut [u32; 260], times: &mut [f64], level: Level, res: Visit) -> Turn
    requires fine { Fine level }
    requires node_lt_next { level.node < level.next }
    ensures times_value { (v : Visitor)
        → while_all_resumed v level (out res.seen res.left work.old times.old)
        ≡ goes while_all_resumed v result work.new times.new }
    ensures keeps { Keeps level result }
    ensures bodied { Bodied result }
    ensures work_unchanged { fuel_of work.new ≡ fuel_of work.old }
{
    if level.index == 0 {
        return match res.seen {
            Seen::Stopped => Turn::Done(res),
            Seen::Running => while_all_next(level, level.count, level.next, 1, level.rest),
            _ => {
                put_place(work, level.node, 1);
                Turn::Done(res)
            }
        };
    }
    match res.seen {
        Seen::Stopped => Turn::Done(res),
        Seen::Running => done_in_place(work, level, waiting()),
        Seen::Failure => done_in_place(work, level, res),
        Seen::Success => {
            let next = end_of(work, level.child);
            let moved = move_on(work, times, level.child, next, level.stop, level.next);
            while_all_next(
                level,
                level.count,
                moved,
                index_after(level.index, next, level.stop),
                res.left,
            )
        }
    }
}
