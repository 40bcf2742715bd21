// Decorators one below the other: from level to level without the turns of a driver, for each has one child, which
// stands behind it.
ghost use Rattle.std.specs.Prelude.{◌≡◌, true, ◌<◌, ◌≤◌, length};
ghost use Rattle.std.specs.Float.{binary64};
ghost use Rattle.lent.specs.Lent.{levels_in, SameRoom};
ghost use Rattle.engine.specs.Stands.{decorator_level, Placed, Held};
ghost use Rattle.engine.specs.Climbs.{Next, decorator_at, Opens, Closes};

use crate::climb::show;
use crate::room::{keep, kind_in, node_in};
use leaves::decorated;
use lent::Room;
use rules::Kind;
use turns::{Level, entered};
use work::{FUEL, Reads, Visit, decorates, kind_of};

// A decorator that is open: its only child is due.
pub fn decorating(kind: Kind, p: usize, dt: f64) -> Level
    requires { p < 255 }
    ensures { result ≡ decorator_level kind p dt }
{
    Level {
        child: p + 1,
        ..entered(kind, p, dt)
    }
}

// Whether the child of the open decorator at p is a decorator that can be opened, so many nodes deep.
fn next_opens(work: &[u32; 260], deep: usize, p: usize) -> bool
    requires { p < 255 }
    ensures { result ≡ true → Next deep p work.now }
{
    deep < 16 && p < 254 && work[FUEL] != 0 && decorates(kind_of(work[p + 1]))
}

// Decorators are opened below the one at p, which is the innermost open node. Where the innermost is then.
pub fn open_decorators(
    work: &mut [u32; 260],
    room: &mut Room,
    deep: usize,
    p: usize,
    dt: f64,
) -> usize
    requires p_bound { p < 255 }
    requires deep_nonzero { 0 < deep }
    requires held { Held deep (decorator_at work.old p dt) (levels_in room.old) }
    ensures opens { Opens binary64 deep p dt (levels_in room.old) work.old result (levels_in room.new) work.new }
    ensures same_room { SameRoom room.old room.new }
{
    let mut at = deep;
    let mut q = p;
    // A place and a depth move together.
    while next_opens(work, at, q) {
        let level = decorating(kind_of(work[q]), q, dt);
        work[FUEL] -= 1;
        keep(room, at - 1, level);
        at += 1;
        q += 1;
    }
    q
}

// The decorators in the innermost entries take a result, one after the other. What is left of the open nodes, and the
// result that goes on.
pub fn close_decorators(
    work: &mut [u32; 260],
    reads: &Reads,
    times: &mut [f64],
    room: &Room,
    deep: usize,
    res: Visit,
) -> (usize, Visit)
    requires deep_bound { (deep ≤ 16) × (deep ≤ length room.now.opens.now) × (deep ≤ length room.now.wholes.now) }
    requires placed { Placed deep (levels_in room.now) }
    ensures { Closes binary64 reads.now.limits.now room.now.opens.now room.now.wholes.now
        deep res.seen res.left work.old times.old
        result.0 result.1.seen result.1.left work.new times.new }
{
    let mut visit = res;
    for at in (0..deep).rev() {
        let entry = room.opens[at];
        if !decorates(kind_in(entry)) {
            return (at + 1, visit);
        }
        let p = node_in(entry);
        visit = decorated(work, reads, times, p, visit, room.wholes[at]);
        show(work, p, visit.seen);
    }
    (0, visit)
}
