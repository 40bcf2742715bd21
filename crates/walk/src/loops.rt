// While and WhileAll: the body goes round while the condition is Running. Each turn visits a child, so
// there are no more turns than fuel.
ghost use Rattle.std.specs.Prelude.{◌≡◌, ◌<◌};
ghost use Rattle.std.specs.Float.{binary64};
ghost use Rattle.work.specs.Flat.{out, lent_in, while_loop, while_all, visiting};

use crate::visit;
use work::{
    FUEL, Reads, Seen, Visit, child, end_of, index_after, move_on, place_of, put_place, stopped,
    updates, waiting,
};

// The condition with the whole event, then the body with the rest, from the place on.
#[tactic(auto, unfolding(work::specs::Flat::while_loop, work::specs::Flat::while_go, work::specs::Flat::moved, work::specs::Array::moved_words, work::specs::Array::moved_times))]
#[cycle(walk)]
pub fn while_loop(
    work: &mut [u32; 260],
    reads: &Reads,
    times: &mut [f64],
    p: usize,
    depth: u8,
    dt: f64,
) -> Visit
    requires { p < 256 }
    ensures { while_loop (visiting binary64 (lent_in reads.now) depth) p dt work.old times.old
        ≡ out result.seen result.left work.new times.new }
{
    if 255 <= p {
        return stopped();
    }
    let condition = visit(work, reads, times, p + 1, depth, dt);
    if condition.seen != Seen::Running {
        return condition;
    }
    let stop = end_of(work, p);
    let body = end_of(work, p + 1);
    let mut i = place_of(work[p]);
    let mut q = child(work, stop, i, body);
    let mut rest = dt;
    let turns = work[FUEL];
    for _ in 0..turns {
        if stop <= q {
            return stopped();
        }
        let result = visit(work, reads, times, q, depth, rest);
        match result.seen {
            Seen::Stopped => return result,
            Seen::Running => {
                put_place(work, p, i);
                return waiting();
            }
            Seen::Failure => {
                put_place(work, p, i);
                return result;
            }
            Seen::Success => {
                if !updates(work) {
                    put_place(work, p, i);
                    return waiting();
                }
                let next = end_of(work, q);
                i = index_after(i, next, stop);
                q = move_on(work, times, q, next, stop, body);
                rest = result.left;
            }
        }
    }
    stopped()
}

// The condition when it is due, at place 0, always with the whole event; then the body with the rest.
#[tactic(auto, unfolding(work::specs::Flat::while_all, work::specs::Flat::while_all_go, work::specs::Flat::moved, work::specs::Array::moved_words, work::specs::Array::moved_times))]
#[cycle(walk)]
pub fn while_all(
    work: &mut [u32; 260],
    reads: &Reads,
    times: &mut [f64],
    p: usize,
    depth: u8,
    dt: f64,
) -> Visit
    requires { p < 256 }
    ensures { while_all (visiting binary64 (lent_in reads.now) depth) p dt work.old times.old
        ≡ out result.seen result.left work.new times.new }
{
    if 255 <= p {
        return stopped();
    }
    let stop = end_of(work, p);
    let body = end_of(work, p + 1);
    let mut i = place_of(work[p]);
    let mut q = child(work, stop, i, p + 1);
    let mut rest = dt;
    let turns = work[FUEL];
    for _ in 0..turns {
        if i == 0 {
            let condition = visit(work, reads, times, p + 1, depth, dt);
            match condition.seen {
                Seen::Stopped => return condition,
                Seen::Running => {
                    i = 1;
                    q = body;
                }
                _ => {
                    put_place(work, p, 1);
                    return condition;
                }
            }
        } else {
            if stop <= q {
                return stopped();
            }
            let result = visit(work, reads, times, q, depth, rest);
            match result.seen {
                Seen::Stopped => return result,
                Seen::Running => {
                    put_place(work, p, i);
                    return waiting();
                }
                Seen::Failure => {
                    put_place(work, p, i);
                    return result;
                }
                Seen::Success => {
                    let next = end_of(work, q);
                    i = index_after(i, next, stop);
                    q = move_on(work, times, q, next, stop, body);
                    rest = result.left;
                }
            }
        }
    }
    stopped()
}
