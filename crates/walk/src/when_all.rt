// WhenAll and WhenAny, Race and After, which visit several children in one tick. WhenAny is WhenAll
// with Success and Failure exchanged.
ghost use Rattle.std.specs.Prelude.{◌≡◌, ◌<◌};
ghost use Rattle.std.specs.Float.{binary64};
ghost use Rattle.rules.specs.Outcome.{largest};
ghost use Rattle.work.specs.Flat.{out, lent_in, turn_out, turning, when_all, race, after, visiting};

use crate::visit;
use leaves::{keeps_waiting, past_waits};
use work::{
    Reads, Seen, Visit, child, end_of, fresh, mark_of, passed, place_of, put_mark, put_place,
    smaller, sooner, waiting,
};

// Every child without mark; one that ends is made fresh and marked.
#[cycle(walk)]
pub fn when_all(
    work: &mut [u32; 260],
    reads: &Reads,
    times: &mut [f64],
    // Whether Success and Failure change places: a value, no step.
    any: bool,
    p: usize,
    depth: u8,
    dt: f64,
) -> Visit
    requires { p < 256 }
    ensures { turn_out any (when_all (turning any (visiting binary64 (lent_in reads.now) depth)) (largest binary64) p dt work.old times.old)
        ≡ out result.seen result.left work.new times.new }
{
    let stop = end_of(work, p);
    let mut q = p + 1;
    if stop <= q {
        return Visit {
            seen: Seen::Success.turned(any),
            left: passed(work, dt),
        };
    }
    let mut least = f64::MAX;
    let mut all_marked = true;
    while q < stop {
        // Read before the visit, which writes the word: the next turn need not wait for this one.
        let mut next = end_of(work, q);
        if mark_of(work[q]) == 0 {
            if keeps_waiting(work, reads, times, q, dt) {
                all_marked = false;
                // Where one Wait waits, many often do. One try for sixteen places, so that those that fail cost little.
                if next % 16 == 2 {
                    next = past_waits(work, reads, times, next, stop, dt);
                }
            } else {
                let result = visit(work, reads, times, q, depth, dt);
                match result.seen.turned(any) {
                    Seen::Stopped | Seen::Failure => return result,
                    Seen::Running => {
                        all_marked = false;
                    }
                    Seen::Success => {
                        fresh(work, times, q, next);
                        put_mark(work, q);
                        least = smaller(least, result.left);
                    }
                }
            }
        }
        q = next;
    }
    if all_marked {
        return Visit {
            seen: Seen::Success.turned(any),
            left: least,
        };
    }
    waiting()
}

// The first child that ends gives the result.
#[cycle(walk)]
pub fn race(
    work: &mut [u32; 260],
    reads: &Reads,
    times: &mut [f64],
    p: usize,
    depth: u8,
    dt: f64,
) -> Visit
    requires { p < 256 }
    ensures { race (visiting binary64 (lent_in reads.now) depth) p dt work.old times.old
        ≡ out result.seen result.left work.new times.new }
{
    let stop = end_of(work, p);
    let mut q = p + 1;
    while q < stop {
        let mut next = end_of(work, q);
        let result = visit(work, reads, times, q, depth, dt);
        if result.seen != Seen::Running {
            return result;
        }
        if next % 16 == 2 {
            next = past_waits(work, reads, times, next, stop, dt);
        }
        q = next;
    }
    waiting()
}

// Children must succeed in their order, each with less left than the one before it.
#[cycle(walk)]
pub fn after(
    work: &mut [u32; 260],
    reads: &Reads,
    times: &mut [f64],
    p: usize,
    depth: u8,
    dt: f64,
) -> Visit
    requires { p < 256 }
    ensures { after (visiting binary64 (lent_in reads.now) depth) (largest binary64) p dt work.old times.old
        ≡ out result.seen result.left work.new times.new }
{
    let stop = end_of(work, p);
    let mut place = place_of(work[p]);
    let mut q = child(work, stop, place, p + 1);
    let mut least = f64::MAX;
    let mut none_running = true;
    while q < stop {
        let next = end_of(work, q);
        let result = visit(work, reads, times, q, depth, dt);
        match result.seen {
            Seen::Stopped => return result,
            Seen::Failure => {
                put_place(work, p, place);
                return result;
            }
            Seen::Running => {
                none_running = false;
                least = 0.0;
            }
            Seen::Success => {
                if !sooner(none_running, result.left, least) {
                    put_place(work, p, place);
                    return Visit {
                        seen: Seen::Failure,
                        left: smaller(least, result.left),
                    };
                }
                place += 1;
                least = result.left;
            }
        }
        q = next;
    }
    put_place(work, p, place);
    if none_running {
        return Visit {
            seen: Seen::Success,
            left: least,
        };
    }
    waiting()
}
