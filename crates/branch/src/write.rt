// Writing the tree with the branch replaced: one pass over the nodes of the result.
ghost use Rattle.std.specs.Prelude.{◌≡◌, ◌≤◌};
ghost use Rattle.lent.specs.Lent.{room_in, SameTree};
ghost use Rattle.branch.specs.Write.{source_of, from, at, always, InBoth, InOld, Fits, filled_room, exchange_of};

use lent::{Cells, Table, TreeMut};
use rules::{Record, cleaned};

// The nodes from at to stop give way to so many added ones, and the result has so many nodes.
#[derive(Clone, Copy)]
pub struct Cut {
    pub at: usize,
    pub stop: usize,
    pub added: usize,
    pub nodes: usize,
}

// The place that a node of the result has in the tree, or in the branch.
#[derive(Clone, Copy)]
enum Source {
    Old(usize),
    New(usize),
}

fn source_of(cut: Cut, i: usize) -> Source
    requires { (cut.stop ≤ 256) × (i ≤ 256) }
    ensures { result ≡ source_of cut i }
{
    if i < cut.at {
        return Source::Old(i);
    }
    let behind = i - cut.at;
    if behind < cut.added {
        return Source::New(behind);
    }
    Source::Old(cut.stop + (behind - cut.added))
}

// What stands at that place.
fn from_both<T: Copy>(old: &[T], new: &[T], place: Source) -> T
    requires { InBoth old.now new.now place }
    ensures { (d : T) → result ≡ from (at d old.now) (at d new.now) place }
{
    match place {
        Source::Old(j) => old[j],
        Source::New(j) => new[j],
    }
}

// The same, where each node of the branch has a new cell.
fn from_old<T: Copy>(old: &[T], fresh: T, place: Source) -> T
    requires { InOld old.now place }
    ensures { (d : T) → result ≡ from (at d old.now) (always fresh) place }
{
    match place {
        Source::Old(j) => old[j],
        Source::New(_) => fresh,
    }
}

// The room's first nodes become the result; what stands behind them stays.
pub fn write(
    cut: Cut,
    record: Record,
    table: &Table,
    cells: &Cells,
    branch: &Table,
    to: &mut TreeMut,
)
    requires { Fits cut (exchange_of «record» table.now cells.now cut.at branch.now (room_in to.old)) }
    ensures same_tree { SameTree to.old to.new }
    ensures written { room_in to.new ≡ filled_room cut (exchange_of «record» table.now cells.now cut.at branch.now (room_in to.old)) }
{
    for i in 0..cut.nodes {
        let from = source_of(cut, i);
        to.kinds[i] = from_both(table.kinds, branch.kinds, from);
        to.ns[i] = from_both(table.ns, branch.ns, from);
        to.limits[i] = cleaned(from_both(table.limits, branch.limits, from));
        to.times[i] = from_old(cells.times, 0.0, from);
        to.places[i] = from_old(cells.places, 0, from);
        to.marks[i] = from_old(cells.marks, 0, from);
        to.sinces[i] = from_old(cells.sinces, record.ticks, from);
    }
}
