// Decorators: Invert, AlwaysSucceed and Timeout, each once its child has given a result.
ghost use Rattle.std.specs.Prelude.{◌≡◌, List, ℕ, ◌<◌, Float};
ghost use Rattle.std.specs.Float.{binary64};
ghost use Rattle.work.specs.Flat.{out, lent, and_then, times_out, decorated};

use rules::Kind;
use work::{Reads, Seen, Visit, kind_of, number_at, passed, put_time, time_at, waiting};

// The time goes on while the child is Running.
#[tactic(auto, unfolding(work::specs::Flat::times_out))]
fn timed(work: &[u32; 260], reads: &Reads, times: &mut [f64], p: usize, dt: f64) -> Visit
    requires { p < 256 }
    ensures { (a : List ℕ) (b : List Float) → times_out binary64 (lent reads.now.limits.now a b) p dt work.now times.old
        ≡ out result.seen result.left work.now times.new }
{
    let limit = number_at(reads.limits, p);
    let elapsed = time_at(times, p) + passed(work, dt);
    put_time(times, p, elapsed);
    if elapsed >= limit {
        return Visit {
            seen: Seen::Failure,
            left: elapsed - limit,
        };
    }
    waiting()
}

// What the decorator at p makes of its child's result.
#[tactic(auto, unfolding(work::specs::Flat::decorated))]
pub fn decorated(
    work: &[u32; 260],
    reads: &Reads,
    times: &mut [f64],
    p: usize,
    child: Visit,
    dt: f64,
) -> Visit
    requires { p < 256 }
    ensures { (a : List ℕ) (b : List Float)
        → and_then (out child.seen child.left work.now times.old) (decorated binary64 (lent reads.now.limits.now a b) p dt)
        ≡ out result.seen result.left work.now times.new }
{
    let kind = kind_of(work[p]);
    match kind {
        Kind::Invert => Visit {
            seen: child.seen.turned(true),
            left: child.left,
        },
        Kind::Timeout => {
            if child.seen == Seen::Running {
                return timed(work, reads, times, p, dt);
            }
            child
        }
        _ => Visit {
            seen: child.seen.succeeded(),
            left: child.left,
        },
    }
}
