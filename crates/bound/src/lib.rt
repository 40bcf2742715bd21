// The finish bound: document 01, "The finish bound".
#![tactic(auto)]

ghost use Rattle.std.specs.Prelude.{◌≡◌, List, ℕ, length, get_or};
ghost use Rattle.std.specs.Float.{binary64};
ghost use Rattle.rules.specs.Tree.{Tree, Forest};
ghost use Rattle.rules.specs.Bound.{bound, boundable, bound_call};
ghost use Rattle.lent.specs.Lent.{rows_of};
ghost use Rattle.limits.specs.Ticks.{clipped};
ghost use Rattle.limits.specs.Node.{joined};
ghost use Rattle.bound.specs.Ready.{Step, TreeAt, TreesFrom, ReadyAt, ReadyFrom, Rooted, answer_of};

use lent::Table;
use limits::{Join, Ticks, alone, bounded, own_ticks, together, told, whole};
use rules::{BoundAnswer, Kind};
use tables::{MOST_DEEP, check_table};

// The ticks of the subtree at a place, from the leaves of the tree upward.
#[cycle(ticks_trees)]
fn ticks(table: &Table, ends: &[u16; 256], step: u64, at: usize) -> Ticks
    requires step { Step step }
    requires ready { ReadyAt table.now ends.now at }
    ensures { (t : Tree) → TreeAt table.now ends.now at t → result ≡ clipped (bound step t) }
{
    let kind = Kind::of(table.kinds[at]);
    let own = own_ticks(table.limits[at], step);
    let count = kind.children(table.ns[at]);
    if count == 0 {
        return alone(kind, own);
    }
    let first = ticks(table, ends, step, at + 1);
    let next = usize::from(ends[at + 1]);
    let rest = trees(table, ends, step, Join::of(kind), next, count - 1);
    together(kind, own, first, rest)
}

// The ticks of the trees from a place on, counted together.
#[cycle(ticks_trees)]
fn trees(table: &Table, ends: &[u16; 256], step: u64, join: Join, from: usize, count: u16) -> Ticks
    requires step { Step step }
    requires readys { ReadyFrom table.now ends.now from count }
    ensures { (ts : Forest) (stop : ℕ) → TreesFrom table.now ends.now from count ts stop → result ≡ clipped (joined join step ts) }
{
    let mut all = join.none();
    let mut at = from;
    for _ in 0..count {
        let one = ticks(table, ends, step, at);
        all = join.with(all, one);
        at = usize::from(ends[at]);
    }
    all
}

// Whether every limit is whole and no After is without children.
fn all_bounded(table: &Table) -> bool
    ensures { (ends : List ℕ) (t : Tree) → Rooted table.now ends t → result ≡ boundable binary64 t }
{
    let mut rows = table.kinds.iter().zip(table.ns).zip(table.limits);
    rows.all(|((number, n), limit)| {
        let kind = Kind::of(*number);
        bounded(kind, kind.children(*n), *limit)
    })
}

// The root's ticks, or why there are none to tell.
fn root_ticks(table: &Table, step: f64) -> Result<Ticks, BoundAnswer>
    ensures { answer_of result ≡ bound_call binary64 table.now.kinds.now table.now.ns.now table.now.limits.now step }
{
    let mut ends = [0u16; 256];
    check_table(table, &mut ends, MOST_DEEP)?;
    let Some(d) = whole(step) else {
        return Err(BoundAnswer::NoBound);
    };
    if d == 0 || !all_bounded(table) {
        return Err(BoundAnswer::NoBound);
    }
    Ok(ticks(table, &ends, d, 0))
}

// The finish bound of a table for a step, or why there is none to tell.
pub fn finish_bound(table: &Table, step: f64) -> BoundAnswer
    ensures { result ≡ bound_call binary64 table.now.kinds.now table.now.ns.now table.now.limits.now step }
{
    match root_ticks(table, step) {
        Ok(ticks) => told(ticks),
        Err(refused) => refused,
    }
}
