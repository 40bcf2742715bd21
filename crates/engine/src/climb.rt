// Down from one open node to the next until there is a result, and up with it until a child is due.
ghost use Rattle.std.specs.Prelude.{◌≡◌, List, ◌<◌, ◌≤◌, Float};
ghost use Rattle.std.specs.Float.{binary64};
ghost use Rattle.rules.specs.Levels.{entries, cleared};
ghost use Rattle.lent.specs.Lent.{levels_in, SameRoom};
ghost use Rattle.work.specs.Array.{fuel_of};
ghost use Rattle.work.specs.Flat.{out, lent_in, tick};
ghost use Rattle.work.specs.Flat as flat;
ghost use Rattle.engine.specs.Stands.{Held};
ghost use Rattle.engine.specs.Climbs.{Downs, Ups};

use crate::decorators::{close_decorators, decorating, open_decorators};
use crate::room::{keep, kept};
use leaves::visit_leaf;
use lent::Room;
use rules::Kind;
use turns::{Level, Turn, entered, opened, resumed};
use work::{FUEL, Reads, Seen, Visit, decorates, is_leaf, kind_of, put_seen, stopped};

// Where a walk stands: so many nodes are open, the innermost of which is `level`; the others are in the room.
#[derive(Clone, Copy)]
pub struct Stand {
    pub deep: usize,
    pub level: Level,
}

// Where a way up ends.
#[derive(Clone, Copy)]
pub enum Risen {
    // The child of the innermost node is due, with what is left as its dt.
    Due(Stand, f64),
    // The outermost node has given its own result, or the walk has stopped.
    Done(Visit),
}

// A status goes onto the board; where the walk has stopped, there is none.
pub fn show(work: &mut [u32; 260], p: usize, seen: Seen)
    requires { p < 256 }
    ensures ts_value { (l : Float) (ts : List Float) → flat.seen p (out seen l work.old ts) ≡ out seen l work.new ts }
    ensures work_unchanged { fuel_of work.new ≡ fuel_of work.old }
{
    if let Seen::Stopped = seen {
        return;
    }
    put_seen(work, p, seen);
}

// The child of the innermost node is visited; nodes are opened until one gives a result.
fn down(
    work: &mut [u32; 260],
    reads: &Reads,
    times: &mut [f64],
    room: &mut Room,
    stand: Stand,
    dt: f64,
) -> (Stand, Visit)
    requires { Held stand.deep stand.level (levels_in room.old) }
    ensures downs { Downs binary64 (lent_in reads.now)
        stand.deep stand.level dt (levels_in room.old) work.old times.old
        result.0.deep result.0.level result.1.seen result.1.left (levels_in room.new) work.new times.new }
    ensures same_room { SameRoom room.old room.new }
{
    let mut at = stand;
    let mut rest = dt;
    loop {
        let q = at.level.child;
        let kind = kind_of(work[q]);
        if is_leaf(kind) {
            return (at, visit_leaf(work, reads, times, kind, q, rest));
        }
        let fuel = work[FUEL];
        if fuel == 0 {
            return (at, stopped());
        }
        if 16 <= at.deep {
            return (at, stopped());
        }
        work[FUEL] = fuel - 1;
        if 0 < at.deep {
            keep(room, at.deep - 1, at.level);
        }
        if decorates(kind) {
            if 255 <= q {
                return (at, stopped());
            }
            let p = open_decorators(work, room, at.deep + 1, q, rest);
            at = Stand {
                deep: at.deep + 1 + p - q,
                level: decorating(kind_of(work[p]), p, rest),
            };
        } else {
            match opened(work, times, kind, q, rest) {
                Turn::Due(level, left) => {
                    at = Stand {
                        deep: at.deep + 1,
                        level,
                    };
                    rest = left;
                }
                Turn::Done(visit) => {
                    show(work, q, visit.seen);
                    return (at, visit);
                }
            }
        }
    }
}

// A result goes up until a child is due, or the outermost node has given its own.
fn up(
    work: &mut [u32; 260],
    reads: &Reads,
    times: &mut [f64],
    room: &Room,
    stand: Stand,
    given: Visit,
) -> Risen
    requires { Held stand.deep stand.level (levels_in room.now) }
    ensures { Ups binary64 (lent_in reads.now) (levels_in room.now)
        stand.deep stand.level given.seen given.left work.old times.old
        result work.new times.new }
{
    let mut at = stand;
    let mut visit = given;
    while 0 < at.deep {
        if let Seen::Stopped = visit.seen {
            return Risen::Done(visit);
        }
        match resumed(work, reads, times, at.level, visit) {
            Turn::Due(level, left) => {
                return Risen::Due(Stand { level, ..at }, left);
            }
            Turn::Done(own) => {
                show(work, at.level.node, own.seen);
                let (deep, closed) = close_decorators(work, reads, times, room, at.deep - 1, own);
                at.deep = deep;
                visit = closed;
                if 0 < deep {
                    at.level = kept(room, deep - 1);
                }
            }
        }
    }
    Risen::Done(visit)
}

// The walk from the root.
pub fn climb(
    work: &mut [u32; 260],
    reads: &Reads,
    times: &mut [f64],
    room: &mut Room,
    dt: f64,
) -> Visit
    requires { 16 ≤ entries (levels_in room.old) }
    ensures times_value { tick binary64 (lent_in reads.now) 16 0 dt work.old times.old ≡ out result.seen result.left work.new times.new }
    ensures rests_unchanged { cleared (levels_in room.new) ≡ cleared (levels_in room.old) }
    ensures room_bound { 16 ≤ entries (levels_in room.new) }
    ensures same_room { SameRoom room.old room.new }
{
    let mut stand = Stand {
        deep: 0,
        level: entered(Kind::Race, 0, dt),
    };
    let mut rest = dt;
    loop {
        let (given, visit) = down(work, reads, times, room, stand, rest);
        match up(work, reads, times, room, given, visit) {
            Risen::Due(next, left) => {
                stand = next;
                rest = left;
            }
            Risen::Done(result) => {
                return result;
            }
        }
    }
}
