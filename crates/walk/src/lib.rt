// The cycle of calls: the tick of a node asks its driver, and the driver visits each child that is due. The depth that is
// left falls; the children of a node, and the turns of a loop, are a loop.
#![tactic(auto)]

mod loops;
mod sequence;
mod when_all;

ghost use Rattle.std.specs.Prelude.{◌≡◌, ◌<◌};
ghost use Rattle.std.specs.Float.{binary64};
ghost use Rattle.work.specs.Flat.{out, lent_in, decorator, if_node, by_kind, tick, visiting};

use leaves::{decorated, leaf, visit_leaf};
use loops::{while_all, while_loop};
use rules::Kind;
use sequence::{memoryless, sequence};
use when_all::{after, race, when_all};
use work::{
    FUEL, Reads, Seen, Visit, child, choice, choose, decorates, end_of, exchanges, is_leaf,
    kind_of, place_of, put_seen, stopped,
};

// One of the fuel, the rule of the node's kind, and its status on the board.
#[tactic(auto, unfolding(work::specs::Flat::tick))]
#[cycle(walk)]
pub fn tick_node(
    work: &mut [u32; 260],
    reads: &Reads,
    times: &mut [f64],
    p: usize,
    depth: u8,
    dt: f64,
) -> Visit
    requires { p < 256 }
    ensures { tick binary64 (lent_in reads.now) depth p dt work.old times.old
        ≡ out result.seen result.left work.new times.new }
{
    if depth == 0 {
        return stopped();
    }
    let fuel = work[FUEL];
    if fuel == 0 {
        return stopped();
    }
    let kind = kind_of(work[p]);
    work[FUEL] = fuel - 1;
    let result = by_kind(work, reads, times, kind, p, depth - 1, dt);
    // Handed on field by field: as a whole, a result is copied with its padding.
    let seen = result.seen;
    let left = result.left;
    if seen == Seen::Stopped {
        return Visit { seen, left };
    }
    put_seen(work, p, seen);
    Visit { seen, left }
}

// A child: a leaf gives its result at once.
#[tactic(auto, unfolding(work::specs::Flat::visit))]
#[cycle(walk)]
pub fn visit(
    work: &mut [u32; 260],
    reads: &Reads,
    times: &mut [f64],
    p: usize,
    depth: u8,
    dt: f64,
) -> Visit
    requires { p < 256 }
    ensures { visiting binary64 (lent_in reads.now) depth p dt work.old times.old
        ≡ out result.seen result.left work.new times.new }
{
    let kind = kind_of(work[p]);
    if is_leaf(kind) {
        return visit_leaf(work, reads, times, kind, p, dt);
    }
    tick_node(work, reads, times, p, depth, dt)
}

// The rule of each kind.
#[tactic(auto, unfolding(work::specs::Flat::by_kind))]
#[cycle(walk)]
fn by_kind(
    work: &mut [u32; 260],
    reads: &Reads,
    times: &mut [f64],
    kind: Kind,
    p: usize,
    depth: u8,
    dt: f64,
) -> Visit
    requires { p < 256 }
    ensures { by_kind binary64 (lent_in reads.now) (visiting binary64 (lent_in reads.now) depth) kind p dt work.old times.old
        ≡ out result.seen result.left work.new times.new }
{
    match kind {
        Kind::Wait | Kind::WaitForever | Kind::Action => leaf(work, reads, times, kind, p, dt),
        Kind::Invert | Kind::AlwaysSucceed | Kind::Timeout => {
            decorators(work, reads, times, p, depth, dt)
        }
        Kind::If => if_node(work, reads, times, p, depth, dt),
        Kind::Select | Kind::Sequence => sequence(
            work,
            reads,
            times,
            exchanges(kind),
            p,
            depth,
            dt,
        ),
        Kind::MemorylessSequence | Kind::MemorylessSelector => memoryless(
            work,
            reads,
            times,
            exchanges(kind),
            p,
            depth,
            dt,
        ),
        Kind::While => while_loop(work, reads, times, p, depth, dt),
        Kind::WhileAll => while_all(work, reads, times, p, depth, dt),
        Kind::WhenAll | Kind::WhenAny => when_all(
            work,
            reads,
            times,
            exchanges(kind),
            p,
            depth,
            dt,
        ),
        Kind::After => after(work, reads, times, p, depth, dt),
        Kind::Race => race(work, reads, times, p, depth, dt),
    }
}

// Invert, AlwaysSucceed, Timeout, one below the other: down to the first node that is none of them,
// and up again with its result.
#[cycle(walk)]
fn decorators(
    work: &mut [u32; 260],
    reads: &Reads,
    times: &mut [f64],
    p: usize,
    depth: u8,
    dt: f64,
) -> Visit
    requires { p < 256 }
    ensures { decorator binary64 (lent_in reads.now) (visiting binary64 (lent_in reads.now) depth) p dt work.old times.old
        ≡ out result.seen result.left work.new times.new }
{
    if 255 <= p {
        return stopped();
    }
    // Down: a place and the depth that is left move together.
    let mut q = p + 1;
    let mut below = depth;
    while decorates(kind_of(work[q])) {
        if below == 0 {
            return stopped();
        }
        let fuel = work[FUEL];
        if fuel == 0 {
            return stopped();
        }
        work[FUEL] = fuel - 1;
        if 255 <= q {
            return stopped();
        }
        below -= 1;
        q += 1;
    }
    let mut result = visit(work, reads, times, q, below, dt);
    if result.seen == Seen::Stopped {
        return result;
    }
    for at in (p + 1..q).rev() {
        result = decorated(work, reads, times, at, result, dt);
        put_seen(work, at, result.seen);
    }
    decorated(work, reads, times, p, result, dt)
}

// The condition, then the branch that it chooses.
#[tactic(auto, unfolding(work::specs::Flat::if_node, work::specs::Flat::branch))]
#[cycle(walk)]
fn if_node(
    work: &mut [u32; 260],
    reads: &Reads,
    times: &mut [f64],
    p: usize,
    depth: u8,
    dt: f64,
) -> Visit
    requires { p < 256 }
    ensures { if_node (visiting binary64 (lent_in reads.now) depth) p dt work.old times.old
        ≡ out result.seen result.left work.new times.new }
{
    let stop = end_of(work, p);
    let place = place_of(work[p]);
    if 0 < place {
        let held = child(work, stop, place, p + 1);
        if stop <= held {
            return stopped();
        }
        return visit(work, reads, times, held, depth, dt);
    }
    if 255 <= p {
        return stopped();
    }
    let condition = visit(work, reads, times, p + 1, depth, dt);
    let Some(chosen) = choice(condition.seen) else {
        return condition;
    };
    choose(work, times, p, stop, chosen);
    let branch = child(work, stop, chosen, p + 1);
    if stop <= branch {
        return stopped();
    }
    visit(work, reads, times, branch, depth, condition.left)
}
