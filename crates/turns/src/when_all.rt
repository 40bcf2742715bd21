// WhenAll and WhenAny, Race and After, a child at a time.
ghost use Rattle.std.specs.Prelude.{◌≡◌, Bool, List, ℕ, ◌+◌, ◌<◌, ◌≤◌, Float};
ghost use Rattle.std.specs.Float.{binary64};
ghost use Rattle.rules.specs.Outcome.{largest};
ghost use Rattle.work.specs.Word.{mark_of};
ghost use Rattle.work.specs.Array.{word_at, fuel_of};
ghost use Rattle.work.specs.Flat.{out, lent, Visitor, visit, turn_out, turning, when_all_go, when_all, race_go, race, after_go, after};
ghost use Rattle.turns.specs.Levels.{Fine, Keeps, Behind, goes, when_all_resumed, race_resumed, after_resumed};

use crate::level::{Level, Turn, done_in_place};
use leaves::past_waits;
use work::{
    Reads, Seen, Visit, child, end_of, fresh, mark_of, passed, place_of, put_mark, put_place,
    smaller, sooner, waiting,
};

// The first child without mark from q on.
fn unmarked(work: &[u32; 260], q: usize, stop: usize) -> usize
    requires { (q ≤ 256) × (stop ≤ 256) }
    ensures ts_value { (v : Visitor) (dt : Float) (all : Bool) (least : Float) (ts : List Float)
        → when_all_go v stop dt 256 q all least work.now ts ≡ when_all_go v stop dt 256 result all least work.now ts }
    ensures lower_bound { (q ≤ result) × (result ≤ 256) × (result < stop → mark_of (word_at work.now result) ≡ 0) }
{
    let mut at = q;
    while at < stop {
        if mark_of(work[at]) == 0 {
            return at;
        }
        at = end_of(work, at);
    }
    at
}

// The child without mark from q on, or the end; all says whether each child so far is marked.
fn when_all_next(
    work: &[u32; 260],
    // Whether Success and Failure change places: a value, no step.
    any: bool,
    level: Level,
    q: usize,
    all: bool,
    least: f64,
) -> Turn
    requires node_lt_q { level.node < q }
    requires q_bound { q ≤ 256 }
    requires stop_bound { level.stop ≤ 256 }
    requires index_bound { level.index ≤ 255 + q }
    ensures ts_value { (v : Visitor) (ts : List Float) → turn_out any (when_all_go (turning any v) level.stop level.whole 256 q all least work.now ts)
        ≡ goes (when_all_resumed any) v result work.now ts }
    ensures keeps { Keeps level result }
    ensures behind { Behind result }
{
    let stop = level.stop;
    let at = unmarked(work, q, stop);
    if stop <= at {
        if !all {
            return Turn::Done(waiting());
        }
        return Turn::Done(Visit {
            seen: Seen::Success.turned(any),
            left: least,
        });
    }
    let next = Level {
        child: at,
        next: end_of(work, at),
        count: u32::from(all),
        rest: least,
        ..level
    };
    Turn::Due(next, level.whole)
}

pub fn when_all_opened(work: &[u32; 260], any: bool, level: Level) -> Turn
    requires node_bound { level.node < 256 }
    requires index_value { level.index ≡ 0 }
    ensures ts_value { (v : Visitor) (ts : List Float) → turn_out any (when_all (turning any v) (largest binary64) level.node level.whole work.now ts)
        ≡ goes (when_all_resumed any) v result work.now ts }
    ensures keeps { Keeps level result }
    ensures behind { Behind result }
{
    let p = level.node;
    let stop = end_of(work, p);
    if stop <= p + 1 {
        return Turn::Done(Visit {
            seen: Seen::Success.turned(any),
            left: passed(work, level.whole),
        });
    }
    let first = Level { stop, ..level };
    when_all_next(work, any, first, p + 1, true, f64::MAX)
}

// A child that ends is made fresh and marked.
pub fn when_all_resumed(
    work: &mut [u32; 260],
    reads: &Reads,
    times: &mut [f64],
    any: bool,
    level: Level,
    res: Visit,
) -> Turn
    requires fine { Fine level }
    requires child_lt_next { level.child < level.next }
    ensures by_index { (a : List ℕ) (b : List Float) (tk : Visitor) → let v = visit binary64 (lent reads.now.limits.now a b) tk in
        when_all_resumed any v level (out res.seen res.left work.old times.old)
        ≡ goes (when_all_resumed any) v result work.new times.new }
    ensures keeps { Keeps level result }
    ensures behind { Behind result }
    ensures work_bound { fuel_of work.new ≤ fuel_of work.old }
{
    let mut next = level.next;
    let least = level.rest;
    match res.seen.turned(any) {
        Seen::Stopped | Seen::Failure => Turn::Done(res),
        Seen::Running => {
            // Where one child runs, many Waits often do. One try for sixteen places, so that those that fail cost little.
            if next % 16 == 2 {
                next = past_waits(work, reads, times, next, level.stop, level.whole);
            }
            when_all_next(work, any, level, next, false, least)
        }
        Seen::Success => {
            let q = level.child;
            fresh(work, times, q, next);
            put_mark(work, q);
            when_all_next(
                work,
                any,
                level,
                next,
                level.count != 0,
                smaller(least, res.left),
            )
        }
    }
}

// The child at q, or the end.
fn race_next(work: &[u32; 260], level: Level, q: usize) -> Turn
    requires node_lt_q { level.node < q }
    requires q_bound { q ≤ 256 }
    requires stop_bound { level.stop ≤ 256 }
    requires index_bound { level.index ≤ 255 + q }
    ensures ts_value { (v : Visitor) (ts : List Float) → race_go v level.stop level.whole 256 q work.now ts ≡ goes race_resumed v result work.now ts }
    ensures keeps { Keeps level result }
    ensures behind { Behind result }
{
    if level.stop <= q {
        return Turn::Done(waiting());
    }
    let due = Level {
        child: q,
        next: end_of(work, q),
        ..level
    };
    Turn::Due(due, level.whole)
}

pub fn race_opened(work: &[u32; 260], level: Level) -> Turn
    requires node_bound { level.node < 256 }
    requires index_value { level.index ≡ 0 }
    ensures ts_value { (v : Visitor) (ts : List Float) → race v level.node level.whole work.now ts ≡ goes race_resumed v result work.now ts }
    ensures keeps { Keeps level result }
    ensures behind { Behind result }
{
    let p = level.node;
    let first = Level {
        stop: end_of(work, p),
        ..level
    };
    race_next(work, first, p + 1)
}

// The first child that ends gives the result.
pub fn race_resumed(
    work: &mut [u32; 260],
    reads: &Reads,
    times: &mut [f64],
    level: Level,
    res: Visit,
) -> Turn
    requires fine { Fine level }
    requires child_lt_next { level.child < level.next }
    ensures by_index { (a : List ℕ) (b : List Float) (tk : Visitor) → let v = visit binary64 (lent reads.now.limits.now a b) tk in
        race_resumed v level (out res.seen res.left work.old times.old) ≡ goes race_resumed v result work.new times.new }
    ensures keeps { Keeps level result }
    ensures behind { Behind result }
    ensures work_bound { fuel_of work.new ≤ fuel_of work.old }
{
    let Seen::Running = res.seen else {
        return Turn::Done(res);
    };
    let mut next = level.next;
    // One try for sixteen places, as in when_all_resumed.
    if next % 16 == 2 {
        next = past_waits(work, reads, times, next, level.stop, level.whole);
    }
    race_next(work, level, next)
}

// The child at q, which is child i, or the end; none says whether no child so far is Running.
fn after_next(work: &mut [u32; 260], level: Level, q: usize, i: u32, none: bool, least: f64) -> Turn
    requires node_lt_q { level.node < q }
    requires q_bound { q ≤ 256 }
    requires stop_bound { level.stop ≤ 256 }
    requires i_bound { i ≤ 255 + q }
    ensures ts_value { (v : Visitor) (ts : List Float) → after_go v level.node level.stop level.whole 256 q i none least work.old ts
        ≡ goes after_resumed v result work.new ts }
    ensures keeps { Keeps level result }
    ensures behind { Behind result }
    ensures work_unchanged { fuel_of work.new ≡ fuel_of work.old }
{
    if level.stop <= q {
        put_place(work, level.node, i);
        if !none {
            return Turn::Done(waiting());
        }
        return Turn::Done(Visit {
            seen: Seen::Success,
            left: least,
        });
    }
    let next = Level {
        child: q,
        next: end_of(work, q),
        index: i,
        count: u32::from(none),
        rest: least,
        ..level
    };
    Turn::Due(next, level.whole)
}

pub fn after_opened(work: &mut [u32; 260], level: Level) -> Turn
    requires { level.node < 256 }
    ensures ts_value { (v : Visitor) (ts : List Float) → after v (largest binary64) level.node level.whole work.old ts ≡ goes after_resumed v result work.new ts }
    ensures keeps { Keeps level result }
    ensures behind { Behind result }
    ensures work_unchanged { fuel_of work.new ≡ fuel_of work.old }
{
    let p = level.node;
    let stop = end_of(work, p);
    let place = place_of(work[p]);
    let first = Level { stop, ..level };
    after_next(
        work,
        first,
        child(work, stop, place, p + 1),
        place,
        true,
        f64::MAX,
    )
}

// Children must succeed in their order, each with less left than the one before it.
pub fn after_resumed(work: &mut [u32; 260], level: Level, res: Visit) -> Turn
    requires fine { Fine level }
    requires child_lt_next { level.child < level.next }
    ensures ts_value { (v : Visitor) (ts : List Float) → after_resumed v level (out res.seen res.left work.old ts) ≡ goes after_resumed v result work.new ts }
    ensures keeps { Keeps level result }
    ensures behind { Behind result }
    ensures work_unchanged { fuel_of work.new ≡ fuel_of work.old }
{
    match res.seen {
        Seen::Stopped => Turn::Done(res),
        Seen::Failure => done_in_place(work, level, res),
        Seen::Running => after_next(work, level, level.next, level.index, false, 0.0),
        Seen::Success => {
            let left = res.left;
            if !sooner(level.count != 0, left, level.rest) {
                return done_in_place(
                    work,
                    level,
                    Visit {
                        seen: Seen::Failure,
                        left: smaller(level.rest, left),
                    },
                );
            }
            after_next(work, level, level.next, level.index + 1, true, left)
        }
    }
}
