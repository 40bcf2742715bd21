// The call by value: the checks, then the walk, in place, with the cells at entry in the spare.
// Whoever keeps the record gets it back with the answer.
#![tactic(auto)]

mod enter;
mod walker;

ghost use Rattle.std.specs.Prelude.{◌≡◌, ◌≤◌, is_some};
ghost use Rattle.rules.specs.Call.{left};
ghost use Rattle.rules.specs.Levels.{flat_left};
ghost use Rattle.lent.specs.Lent.{run_in, given_of, SameCells};
ghost use Rattle.refusals.specs.Due.{call_of, whole_call, Due};
ghost use Rattle.call.specs.Room.{entries_at, cleared_at, levels_at};

use cells::{clear, copy_cells};
use enter::enter;
use lent::{Answers, CellsMut, Table};
use refusals::checks;
use rules::{Called, Event, Record};
use settle::settled;
pub use walker::{Deep, Walker};
use work::Reads;

// The walk in place, with the cells at entry in the spare, and what it leaves; its values one by one, as in `value`.
fn carry_out<W: Walker>(
    walker: &mut W,
    record: Record,
    table: &Table,
    work: &mut [u32; 260],
    cells: &mut CellsMut,
    spare: &mut CellsMut,
    board: &mut [u8],
    event: Event,
    fuel: u32,
    answers: &Answers,
    n: usize,
    fresh: bool,
) -> Called
    requires due { Due fresh (given_of «record» table.now cells.old spare.old board.old event fuel answers.now) work.old n }
    requires bound { 16 ≤ entries_at (W.room walker.old) }
    ensures leaves { call_of fresh (given_of «record» table.now cells.old spare.old board.old event fuel answers.now)
        ≡ left result.answer result.record (run_in cells.new) (run_in spare.new) board.new }
    ensures room_after { W.room walker.new ≡ cleared_at (W.room walker.old) }
    ensures same_cells { SameCells cells.old cells.new }
    ensures same_spare { SameCells spare.old spare.new }
    ensures same { W.Same walker.old walker.new }
{
    copy_cells(&cells.as_cells(), spare, n);
    if fresh {
        clear(cells.times, n, 0.0);
    }
    let reads = Reads {
        limits: table.limits,
        statuses: answers.statuses,
        leftovers: answers.leftovers,
    };
    let visit = enter(walker, work, &reads, cells.times, n, event, fuel);
    settled(
        record,
        table.ns,
        work,
        visit,
        cells,
        spare.as_cells().times,
        board,
        n,
        fuel,
        answers.count(),
    )
}

// A tick or a restart: the checks, then the walk, of the cells at entry or as from a fresh tree. `fresh` stays a flag: the
// calls' definition (`call_of`) has it so, and three places look at it. A call's values go one by one, what is read and what is
// written apart: as one struct each function would have to say of every field that it stays.
pub fn value<W: Walker>(
    walker: &mut W,
    record: Record,
    table: &Table,
    cells: &mut CellsMut,
    spare: &mut CellsMut,
    board: &mut [u8],
    event: Event,
    fuel: u32,
    answers: &Answers,
    fresh: bool,
) -> Called
    ensures leaves { whole_call (is_some (W.room walker.old)) fresh (given_of «record» table.now cells.old spare.old board.old event fuel answers.now)
        (levels_at (W.room walker.old))
        ≡ flat_left (left result.answer result.record (run_in cells.new) (run_in spare.new) board.new) (levels_at (W.room walker.new)) }
    ensures same_cells { SameCells cells.old cells.new }
    ensures same_spare { SameCells spare.old spare.new }
    ensures same { W.Same walker.old walker.new }
{
    let entries = walker.entries();
    let mut work = [0u32; 260];
    match checks(
        record, table, &mut work, cells, spare, board, event, answers, entries, fresh,
    ) {
        Err(answer) => Called { answer, record },
        Ok((n, used)) => carry_out(
            walker, record, table, &mut work, cells, spare, board, used, fuel, answers, n, fresh,
        ),
    }
}
