// The call by value, in a host's numbers: the record goes by reference.
ghost use Rattle.std.specs.Prelude.{◌≡◌, is_some};
ghost use Rattle.lent.specs.Lent.{run_in, given_of, SameCells};
ghost use Rattle.refusals.specs.Due.{whole_call};
ghost use Rattle.call.specs.Room.{levels_at};
ghost use Rattle.host.specs.Host.{told_flat, host_flat_left};

use call::{Walker, value};
use host::Told;
use lent::{Answers, CellsMut, Table};
use rules::{Event, Record, Said};

// A tick or a restart; its values one by one, as in `call::value`.
pub fn said<W: Walker>(
    walker: &mut W,
    record: &mut Record,
    table: &Table,
    cells: &mut CellsMut,
    spare: &mut CellsMut,
    board: &mut [u8],
    event: Event,
    fuel: u32,
    answers: &Answers,
    fresh: bool,
) -> Said
    ensures same_cells { SameCells cells.old cells.new }
    ensures same_spare { SameCells spare.old spare.new }
    ensures same { W.Same walker.old walker.new }
    ensures left { told_flat (whole_call (is_some (W.room walker.old)) fresh
        (given_of «record».old table.now cells.old spare.old board.old event fuel answers.now) (levels_at (W.room walker.old)))
        ≡ host_flat_left result «record».new (run_in cells.new) (run_in spare.new) board.new (levels_at (W.room walker.new)) }
{
    let told = Told::from(value(
        walker, *record, table, cells, spare, board, event, fuel, answers, fresh,
    ));
    *record = told.record;
    told.said
}
