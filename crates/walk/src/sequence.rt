// Sequence and Select, and their memoryless forms. Select is Sequence with Success and Failure
// exchanged.
ghost use Rattle.std.specs.Prelude.{◌≡◌, ◌<◌};
ghost use Rattle.std.specs.Float.{binary64};
ghost use Rattle.work.specs.Flat.{out, lent_in, turn_out, turning, sequence, memoryless, visiting};

use crate::visit;
use work::{
    Reads, Seen, Visit, child, end_of, fresh, passed, place_of, put_place, up_on, updates, waiting,
};

// From the place on. Moving on makes the old and the new child fresh.
#[cycle(walk)]
pub fn sequence(
    work: &mut [u32; 260],
    reads: &Reads,
    times: &mut [f64],
    // Whether Success and Failure change places: a value, no step.
    exchange: bool,
    p: usize,
    depth: u8,
    dt: f64,
) -> Visit
    requires { p < 256 }
    ensures { turn_out exchange (sequence (turning exchange (visiting binary64 (lent_in reads.now) depth)) p dt work.old times.old)
        ≡ out result.seen result.left work.new times.new }
{
    let stop = end_of(work, p);
    let mut i = place_of(work[p]);
    let mut q = child(work, stop, i, p + 1);
    if stop <= q {
        return waiting();
    }
    let mut rest = dt;
    loop {
        let result = visit(work, reads, times, q, depth, rest);
        match result.seen.turned(exchange) {
            Seen::Stopped => return result,
            Seen::Running => {
                put_place(work, p, i);
                return waiting();
            }
            Seen::Failure => {
                put_place(work, p, i);
                return result;
            }
            Seen::Success => {
                let next = end_of(work, q);
                let update = updates(work);
                if stop <= next {
                    put_place(work, p, up_on(update, i));
                    return result;
                }
                let behind = end_of(work, next);
                fresh(work, times, q, behind);
                i += 1;
                if !update {
                    put_place(work, p, i);
                    return waiting();
                }
                q = next;
                rest = result.left;
            }
        }
    }
}

// All children are made fresh first, then walked from the first; moving on makes the old one fresh.
#[cycle(walk)]
pub fn memoryless(
    work: &mut [u32; 260],
    reads: &Reads,
    times: &mut [f64],
    exchange: bool,
    p: usize,
    depth: u8,
    dt: f64,
) -> Visit
    requires { p < 256 }
    ensures { turn_out exchange (memoryless (turning exchange (visiting binary64 (lent_in reads.now) depth)) p dt work.old times.old)
        ≡ out result.seen result.left work.new times.new }
{
    let stop = end_of(work, p);
    let mut q = p + 1;
    if stop <= q {
        return Visit {
            seen: Seen::Success.turned(exchange),
            left: passed(work, dt),
        };
    }
    fresh(work, times, q, stop);
    let mut rest = dt;
    loop {
        // Read before the visit, which writes the word: the next turn need not wait for this one.
        let next = end_of(work, q);
        let result = visit(work, reads, times, q, depth, rest);
        let seen = result.seen;
        let left = result.left;
        match seen.turned(exchange) {
            Seen::Stopped | Seen::Failure => return Visit { seen, left },
            Seen::Running => return waiting(),
            Seen::Success => {
                rest = left;
                if stop <= next {
                    return Visit {
                        seen,
                        left: passed(work, rest),
                    };
                }
                fresh(work, times, q, next);
                q = next;
            }
        }
    }
}
