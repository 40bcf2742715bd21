// The rules of the nodes that visit no other: leaves, and decorators once their child has given a result.
#![tactic(auto)]

mod decorator;
mod waits;

ghost use Rattle.std.specs.Prelude.{◌≡◌, List, ◌<◌, Float};
ghost use Rattle.std.specs.Float.{binary64};
ghost use Rattle.work.specs.Flat.{out, lent_in, wait, action, leaf, visit_leaf};

pub use decorator::decorated;
use rules::{Kind, cleaned};
pub use waits::{keeps_waiting, past_waits};
use work::{
    ASKED, FUEL, Reads, Seen, USED, Visit, number_at, passed, put_seen, put_time, stopped, time_at,
    updates, waiting,
};

#[tactic(auto, unfolding(work::specs::Flat::wait))]
fn wait(work: &[u32; 260], reads: &Reads, times: &mut [f64], p: usize, dt: f64) -> Visit
    requires { p < 256 }
    ensures { wait binary64 (lent_in reads.now) p dt work.now times.old
        ≡ out result.seen result.left work.now times.new }
{
    if !updates(work) {
        return waiting();
    }
    let limit = number_at(reads.limits, p);
    let elapsed = time_at(times, p) + dt;
    if elapsed >= limit {
        put_time(times, p, limit);
        return Visit {
            seen: Seen::Success,
            left: elapsed - limit,
        };
    }
    put_time(times, p, elapsed);
    waiting()
}

// The next answer; where there is none, the walk stops, and the action's place is noted.
#[tactic(auto, unfolding(work::specs::Flat::action))]
fn action(work: &mut [u32; 260], reads: &Reads, p: usize, dt: f64) -> Visit
    requires { p < 256 }
    ensures { (ts : List Float) → action binary64 (lent_in reads.now) p dt work.old ts
        ≡ out result.seen result.left work.new ts }
{
    let used = work[USED];
    let at = used as usize;
    if at < reads.statuses.len() && at < reads.leftovers.len() && used < u32::MAX {
        work[USED] = used + 1;
        let leftover = cleaned(reads.leftovers[at]);
        return Visit {
            seen: Seen::of(reads.statuses[at]),
            left: leftover,
        };
    }
    let left = passed(work, dt);
    work[ASKED] = p as u32 + 1;
    Visit {
        seen: Seen::Stopped,
        left,
    }
}

// The rule of a leaf.
#[tactic(auto, unfolding(work::specs::Flat::leaf))]
pub fn leaf(
    work: &mut [u32; 260],
    reads: &Reads,
    times: &mut [f64],
    kind: Kind,
    p: usize,
    dt: f64,
) -> Visit
    requires { p < 256 }
    ensures { leaf binary64 (lent_in reads.now) kind p dt work.old times.old
        ≡ out result.seen result.left work.new times.new }
{
    match kind {
        Kind::Wait => wait(work, reads, times, p, dt),
        Kind::Action => action(work, reads, p, dt),
        _ => waiting(),
    }
}

// A visit to a leaf: one of the fuel, its rule, and its status on the board.
#[tactic(auto, unfolding(work::specs::Flat::visit_leaf))]
pub fn visit_leaf(
    work: &mut [u32; 260],
    reads: &Reads,
    times: &mut [f64],
    kind: Kind,
    p: usize,
    dt: f64,
) -> Visit
    requires { p < 256 }
    ensures { visit_leaf binary64 (lent_in reads.now) kind p dt work.old times.old
        ≡ out result.seen result.left work.new times.new }
{
    let fuel = work[FUEL];
    if fuel == 0 {
        return stopped();
    }
    work[FUEL] = fuel - 1;
    let visit = leaf(work, reads, times, kind, p, dt);
    let seen = visit.seen;
    if seen == Seen::Stopped {
        return visit;
    }
    put_seen(work, p, seen);
    visit
}
