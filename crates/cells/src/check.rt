// One pass over the cells, with the open nodes on a stack of fixed size.
ghost use Rattle.std.specs.Prelude.{◌≡◌, cond, ◌||◌, ◌≤◌, eqb};
ghost use Rattle.rules.specs.declared.exchanged.Exchanged.TheVariants as exchanged;
ghost use Rattle.cells.specs.Check.{Room, Checks, still_open};

use crate::cell::cell_allowed;
use lent::{Cells, Table};
use rules::{Exchanged, Kind};

// The place of a bad cell.
#[derive(Clone, Copy, PartialEq, Eq)]
pub struct BadCell(pub usize);

impl From<BadCell> for Exchanged {
    ghost from_gives = { λ b e. e ≡ exchanged.BadCell b.0 };

    fn from(bad: BadCell) -> Exchanged {
        Exchanged::BadCell(bad.0)
    }
}

// An open node: where it ends, and whether its children may be marked.
#[derive(Clone, Copy)]
struct Open {
    stop: usize,
    may_end: bool,
}

// How many nodes are open at a place, of those that were: the others end there.
fn still_open(opens: &[Open; 16], depth: usize, at: usize) -> usize
    requires { depth ≤ 16 }
    ensures { result ≡ still_open opens.now at depth }
{
    let mut left = depth;
    while 1 < left && opens[left - 1].stop <= at {
        left -= 1;
    }
    left
}

// Up to where all cells are below a child that has ended, once a cell with a mark is passed.
fn ended_until(mark: u8, stop: usize, until: usize) -> usize
    ensures { result ≡ cond (eqb mark 1) stop until }
{
    if mark == 1 { stop } else { until }
}

// The smallest place of a bad cell in the tree of n nodes that stands in the table, whose subtrees
// end as ends says.
pub fn check_cells(table: &Table, ends: &[u16; 256], cells: &Cells, n: usize) -> Result<(), BadCell>
    requires { Room table.now cells.now n }
    ensures { Checks table.now ends.now cells.now n result }
{
    // The open nodes, the first of which stands for the root's parent, and the innermost. The stack is fixed memory
    // with its depth beside it: a stack type's pop would answer an Option that is never None.
    let mut inner = Open {
        stop: n,
        may_end: false,
    };
    let mut opens = [inner; 16];
    let mut depth: usize = 1;
    // Up to where all cells are below a child that has ended.
    let mut until: usize = 0;
    for at in 0..n {
        if inner.stop <= at {
            // The innermost ends here, and others with it.
            depth = still_open(&opens, depth, at);
            inner = opens[depth - 1];
        }
        let kind = Kind::of(table.kinds[at]);
        let mark = cells.marks[at];
        if !cell_allowed(
            at < until,
            inner.may_end,
            kind,
            table.ns[at],
            cells.times[at],
            cells.places[at],
            mark,
        ) {
            return Err(BadCell(at));
        }
        let stop = usize::from(ends[at]);
        if at + 1 < stop {
            // Neither is so in a good table.
            if 16 <= depth || n < stop {
                return Err(BadCell(at));
            }
            inner = Open {
                stop,
                may_end: kind.marks_children(),
            };
            opens[depth] = inner;
            depth += 1;
            until = ended_until(mark, stop, until);
        }
    }
    Ok(())
}

// Whether the cells below a node are below a child that has ended.
pub fn ended_below(ended: bool, mark: u8) -> bool
    ensures { result ≡ ended || eqb mark 1 }
{
    ended || mark == 1
}
