// One pass over table and cells, with the open nodes on a stack of fixed size. Of what it accepts it writes the words.
ghost use Rattle.std.specs.Prelude.{◌≡◌, true, false, ◌+◌, ◌≤◌, ◌<◌, length};
ghost use Rattle.rules.specs.Cells.{cell_of, in_use};
ghost use Rattle.load.specs.Scans.{LentIn, ScansIn, PlainWait, PassesIn};
ghost use Rattle.load.specs.Sixteens.{GroupsIn, Cleared};

use crate::found::Fault;
use crate::fresh::look_fresh;
use crate::sixteens::find_plain;
use crate::words::{with_below, word};
use cells::{cell_allowed, ended_below};
use lent::{Cells, Table};
use rules::Kind;
use tables::{elapsed, row_of, zero_bits};

// The cell of a Wait without a place.
fn leaf_allowed(may_end: bool, time: f64, mark: u8) -> bool
    ensures { result ≡ in_use may_end Kind.Wait 0 (cell_of time 0 mark) }
{
    match mark {
        0 => elapsed(time),
        1 => may_end && zero_bits(time),
        _ => false,
    }
}

// A Wait without a place, whose limit and cell are good, where no ended child is above it. The two comparisons of the limit stand
// apart: side by side they are compiled to twenty instructions more.
fn plain_wait(may_end: bool, kind: u8, n: u16, limit: f64, time: f64, place: u16, mark: u8) -> bool
    ensures { result ≡ true → PlainWait may_end kind n limit time place mark }
{
    u32::from(kind) + u32::from(n) + u32::from(place) == 0
        && 0.0 <= limit
        && leaf_allowed(may_end, time, mark)
        && limit < f64::INFINITY
}

// The words of sixteen plain Waits without a mark.
fn clear_sixteen(work: &mut [u32; 260], at: usize)
    requires at_bound { at + 16 ≤ 260 }
    ensures { Cleared work.old work.new at 16 }
{
    work[at..at + 16].fill(0);
}

// The first place from `from` on, at most `to`, where no plain Wait stands; of those before it the words are written.
fn past_waits(
    table: &Table,
    cells: &Cells,
    work: &mut [u32; 260],
    from: usize,
    to: usize,
    may_end: bool,
    plain: &[bool; 16],
) -> usize
    requires from_le_to { (from ≤ to) × (to ≤ 256) }
    requires in_table { (to ≤ length table.now.kinds.now) × (to ≤ length table.now.ns.now) × (to ≤ length table.now.limits.now) }
    requires in_cells { (to ≤ length cells.now.times.now) × (to ≤ length cells.now.places.now) × (to ≤ length cells.now.marks.now) }
    requires groups { GroupsIn table.now cells.now plain.now }
    ensures { PassesIn table.now cells.now may_end work.old work.new from to result }
{
    let mut begin = from;
    while begin + 16 <= to && begin % 16 == 1 && plain[begin / 16] {
        clear_sixteen(work, begin);
        begin += 16;
    }
    for at in begin..to {
        let mark = cells.marks[at];
        if !plain_wait(
            may_end,
            table.kinds[at],
            table.ns[at],
            table.limits[at],
            cells.times[at],
            cells.places[at],
            mark,
        ) {
            return at;
        }
        work[at] = word(0, 0, 0, mark, false);
    }
    to
}

// Where no plain Wait can stand: below an ended child, or at a node of another kind.
fn no_run(ended: bool, kind: u8) -> bool
    ensures { ended ≡ true → result ≡ true }
{
    ended || kind != 0
}

// How far plain Waits are looked for: all but the last of the children that are left. A long run that begins within a group of sixteen is looked at
// up to the node before the next group, so that the run behind it begins with the group.
fn run_end(none: bool, last: usize, at: usize, left: u16) -> usize
    requires { (at < last) × (last ≤ 256) × (0 < left) }
    ensures { (at ≤ result) × (result < last) × (result < at + left) × (none ≡ true → result ≡ at) }
{
    if none {
        return at;
    }
    let end = last.min(at + usize::from(left)) - 1;
    if end < at + 32 || at % 16 == 1 {
        return end;
    }
    (at + 15) / 16 * 16
}

// An open node: where it begins, how many of its parent's children are still to be read, whether those
// are below a child that has ended, and whether they may be marked.
#[derive(Clone, Copy)]
struct Open {
    begin: u16,
    owed: u16,
    ended: bool,
    may_end: bool,
}

// Whether the slices hold exactly one tree of at most 256 nodes, at most 16 deep, whose cells are ones that their nodes allow.
fn look(table: &Table, cells: &Cells, work: &mut [u32; 260], rows: usize) -> Result<usize, Fault>
    requires lent { LentIn table.now cells.now rows }
    ensures { ScansIn table.now cells.now false work.old work.new result }
{
    let last = rows.min(256);
    let plain = find_plain(table, cells, last);
    // `left`, `ended` and `may_end` are those of the innermost open node's children; at first one tree
    // is owed, the root.
    // The stack is fixed memory with its depth beside it: a stack type's pop would answer an Option that is never None.
    let mut opens = [Open {
        begin: 0,
        owed: 0,
        ended: false,
        may_end: false,
    }; 16];
    let mut open: usize = 0;
    let mut left: u16 = 1;
    let mut ended = false;
    let mut may_end = false;
    let mut fault: Option<usize> = None;
    let mut at: usize = 0;
    while at < last {
        let to = run_end(no_run(ended, table.kinds[at]), last, at, left);
        let begin = past_waits(table, cells, work, at, to, may_end, &plain);
        left -= (begin - at) as u16;
        let number = table.kinds[begin];
        let n = table.ns[begin];
        let Some(children) = row_of(number, n, table.limits[begin]) else {
            return Err(Fault::Table(begin));
        };
        let kind = Kind::of(number);
        let place = cells.places[begin];
        let mark = cells.marks[begin];
        if !cell_allowed(ended, may_end, kind, n, cells.times[begin], place, mark) {
            fault = fault.or(Some(begin));
        }
        work[begin] = word(0, number, place, mark, false);
        at = begin + 1;
        left -= 1;
        if 0 < children {
            opens[open] = Open {
                begin: begin as u16,
                owed: left,
                ended,
                may_end,
            };
            left = children;
            ended = ended_below(ended, mark);
            may_end = kind.marks_children();
            open += 1;
            if 16 <= open {
                return Err(Fault::Table(at));
            }
        } else {
            // A subtree ends here, and with it each open node that has no child left.
            while left == 0 {
                if open == 0 {
                    if at < rows {
                        return Err(Fault::Table(at));
                    }
                    return match fault {
                        Some(p) => Err(Fault::Cell(p)),
                        None => Ok(at),
                    };
                }
                open -= 1;
                left = opens[open].owed;
                ended = opens[open].ended;
                may_end = opens[open].may_end;
                let done = usize::from(opens[open].begin);
                work[done] = with_below(work[done], at - done - 1);
            }
        }
    }
    Err(Fault::Table(at))
}

// The words of the tree that the slices hold, whose walk starts from the lent cells or fresh; the words behind the nodes stay.
pub fn scan(
    table: &Table,
    cells: &Cells,
    work: &mut [u32; 260],
    rows: usize,
    fresh: bool,
) -> Result<usize, Fault>
    requires lent { LentIn table.now cells.now rows }
    ensures { ScansIn table.now cells.now fresh work.old work.new result }
{
    if fresh {
        return look_fresh(table, work);
    }
    look(table, cells, work, rows)
}
