// The refusals of an exchange, in document 02's order.
ghost use Rattle.std.specs.Prelude.{◌≡◌, length};
ghost use Rattle.rules.specs.Exchange.{Room, room_length};
ghost use Rattle.branch.specs.Write.{exchange_of};
ghost use Rattle.exchange.specs.Due.{Passed, Planned};

use branch::write::Cut;
use branch::{depth_of, way_to};
use cells::check_cells;
use lent::{Cells, Table};
use rules::{Exchanged, Record};
use tables::{BadTable, MOST_DEEP, check_table};

// Refusals 3, 4, 9, 2 and 17; or how many nodes the tree and the branch have. Of good tables the ends say where each subtree ends.
fn checks(
    record: Record,
    table: &Table,
    ends: &mut [u16; 256],
    cells: &Cells,
    at: usize,
    branch: &Table,
    new_ends: &mut [u16; 256],
) -> Result<(usize, usize), Exchanged>
    requires { (length ends.old ≡ 256) × (length new_ends.old ≡ 256) }
    ensures { (to : Room) → Passed (exchange_of «record» table.now cells.now at branch.now to) ends.new new_ends.new result }
{
    let n = check_table(table, ends, MOST_DEEP)?;
    // No `map_err`: what its closure gives is not known where the error is returned.
    let added = match check_table(branch, new_ends, MOST_DEEP) {
        Ok(added) => added,
        Err(BadTable(place)) => return Err(Exchanged::BadBranch(place)),
    };
    if cells.len() < n {
        return Err(Exchanged::TooShort);
    }
    check_cells(table, ends, cells, n)?;
    if record.finished {
        return Err(Exchanged::Finished);
    }
    if n <= at {
        return Err(Exchanged::NoNode);
    }
    Ok((n, added))
}

// Refusals 3 to 20, where there is room for so many nodes; or what is to be written.
pub fn planned(
    record: Record,
    table: &Table,
    cells: &Cells,
    at: usize,
    branch: &Table,
    room: usize,
) -> Result<Cut, Exchanged>
    ensures { (to : Room) → room_length to ≡ room → Planned (exchange_of «record» table.now cells.now at branch.now to) result }
{
    let mut ends = [0u16; 256];
    let mut new_ends = [0u16; 256];
    let (n, added) = checks(record, table, &mut ends, cells, at, branch, &mut new_ends)?;
    let above = way_to(table, &ends, cells, at).ok_or(Exchanged::StateHeld)?;
    let stop = usize::from(ends[at]);
    let nodes = n - (stop - at) + added;
    if 256 < nodes || 16 < above + depth_of(&new_ends, added) {
        return Err(Exchanged::TooLarge);
    }
    if room < nodes {
        return Err(Exchanged::ShortRoom);
    }
    Ok(Cut {
        at,
        stop,
        added,
        nodes,
    })
}
