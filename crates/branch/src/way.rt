// The way from the root down to a node, and whether it passes a spot where no state is held.
ghost use Rattle.std.specs.Prelude.{◌≡◌, not, ◌&&◌, eqb, ltb};
ghost use Rattle.rules.specs.Exchange.{spot};
ghost use Rattle.branch.specs.Way.{Lies, Leads};

use lent::{Cells, Table};
use rules::Kind;

// A body child other than the one in progress.
fn in_body(i: usize, progress: usize) -> bool
    ensures { result ≡ ltb 0 i && not (eqb i progress) }
{
    i != 0 && i != progress
}

// Whether no state is held for child i of a node with n children and that place in its cell.
fn is_spot(kind: Kind, n: u16, place: u16, i: usize) -> bool
    ensures { result ≡ spot kind n place i }
{
    match kind {
        // At place n the last child is in progress.
        Kind::Select | Kind::Sequence => i != usize::from(place.min(n.saturating_sub(1))),
        Kind::If => i != usize::from(place),
        Kind::While => in_body(i, usize::from(place) + 1),
        // At place 0 the first child of the body is.
        Kind::WhileAll => in_body(i, usize::from(place.max(1))),
        _ => false,
    }
}

// How many nodes stand above the node at a place of a tree whose subtrees end as ends says, if it lies in a spot; none where
// state is held for it.
pub fn way_to(table: &Table, ends: &[u16; 256], cells: &Cells, at: usize) -> Option<usize>
    requires { Lies table.now.kinds.now table.now.ns.now ends.now cells.now.places.now cells.now.marks.now at }
    ensures { Leads table.now.kinds.now table.now.ns.now ends.now cells.now.places.now cells.now.marks.now at result }
{
    if at == 0 {
        return None;
    }
    // The node lies below `up`, the innermost of so many nodes above it, in child number i, which
    // begins at `child`, or behind it; `spot`: `up` lies in a spot, and then all below does.
    let mut up: usize = 0;
    let mut above: usize = 1;
    let mut child: usize = 1;
    let mut i: usize = 0;
    let mut spot = false;
    loop {
        let stop = usize::from(ends[child]);
        if stop <= at {
            child = stop;
            i += 1;
        } else {
            if cells.marks[child] == 1 {
                return None;
            }
            spot |= is_spot(Kind::of(table.kinds[up]), table.ns[up], cells.places[up], i);
            if child == at {
                return spot.then_some(above);
            }
            up = child;
            above += 1;
            child += 1;
            i = 0;
        }
    }
}
