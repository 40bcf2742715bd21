// If, a child at a time.
ghost use Rattle.std.specs.Prelude.{◌≡◌, List, Float};
ghost use Rattle.work.specs.Array.{fuel_of};
ghost use Rattle.work.specs.Flat.{out, Visitor, if_node};
ghost use Rattle.turns.specs.Levels.{Fine, Entered, Keeps, goes, if_resumed};

use crate::level::{Level, Turn};
use work::{Visit, child, choice, choose, end_of, place_of, stopped};

// The branch that was chosen, or the condition.
pub fn if_opened(work: &[u32; 260], level: Level) -> Turn
    requires { Entered level }
    ensures ts_value { (v : Visitor) (ts : List Float) → if_node v level.node level.whole work.now ts ≡ goes if_resumed v result work.now ts }
    ensures keeps { Keeps level result }
{
    let p = level.node;
    let stop = end_of(work, p);
    let place = place_of(work[p]);
    if 0 < place {
        let held = child(work, stop, place, p + 1);
        if stop <= held {
            return Turn::Done(stopped());
        }
        let first = Level {
            child: held,
            stop,
            index: place,
            ..level
        };
        return Turn::Due(first, level.whole);
    }
    if 255 <= p {
        return Turn::Done(stopped());
    }
    let first = Level {
        child: p + 1,
        stop,
        ..level
    };
    Turn::Due(first, level.whole)
}

// The condition chooses the branch; the branch gives the result.
pub fn if_resumed(work: &mut [u32; 260], times: &mut [f64], level: Level, res: Visit) -> Turn
    requires { Fine level }
    ensures times_value { (v : Visitor) → if_resumed v level (out res.seen res.left work.old times.old) ≡ goes if_resumed v result work.new times.new }
    ensures keeps { Keeps level result }
    ensures work_unchanged { fuel_of work.new ≡ fuel_of work.old }
{
    if level.index != 0 {
        return Turn::Done(res);
    }
    let Some(chosen) = choice(res.seen) else {
        return Turn::Done(res);
    };
    let p = level.node;
    let stop = level.stop;
    choose(work, times, p, stop, chosen);
    let branch = child(work, stop, chosen, p + 1);
    if stop <= branch {
        return Turn::Done(stopped());
    }
    let next = Level {
        child: branch,
        index: chosen,
        ..level
    };
    Turn::Due(next, res.left)
}
