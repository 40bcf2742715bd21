// What a walk leaves: children that have ended are shown, the words are put back, and the answer and the record are told.
#![tactic(auto)]

mod back;

ghost use Rattle.std.specs.Prelude.{◌≡◌, ◌≤◌, length};
ghost use Rattle.lent.specs.Lent.{run_in, SameCells};
ghost use Rattle.cells.specs.Long.{Long};
ghost use Rattle.settle.specs.Settled.{settled, settled_as};

use back::put_back;
use cells::copy_first;
use lent::CellsMut;
use rules::{Called, Record};
use shown::show_ended;
use told::{counted, told_done, told_stopped};
use work::{Seen, Visit};

// A walk of n nodes that a question or too little fuel ends leaves cells and board as they were: only times were changed in
// place, and come back from the spare. In place, as the checks are; its values one by one, as in
// `call::value`.
#[inline(always)]
pub fn settled(
    record: Record,
    ns: &[u16],
    work: &mut [u32; 260],
    visit: Visit,
    cells: &mut CellsMut,
    spare_times: &[f64],
    board: &mut [u8],
    n: usize,
    fuel: u32,
    lent: usize,
) -> Called
    requires long { Long n (run_in cells.old) }
    requires n_bound { (n ≤ 256) × (n ≤ length spare_times.now) × (n ≤ length board.old) }
    ensures same_cells { SameCells cells.old cells.new }
    ensures left { settled_as visit ns.now n fuel lent «record» (run_in cells.old) spare_times.now board.old work.old
        ≡ settled result.answer result.record (run_in cells.new) board.new work.new }
{
    if visit.seen == Seen::Stopped {
        copy_first(spare_times, cells.times, n);
        return Called {
            answer: told_stopped(work, ns, visit),
            record,
        };
    }
    show_ended(work, n);
    let counted = counted(record, visit);
    put_back(work, cells, board, n, counted.ticks);
    Called {
        answer: told_done(work, visit, fuel, lent),
        record: counted,
    }
}
