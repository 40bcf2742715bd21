// The exchange of a branch that has not been started: document 02, request 13.
#![tactic(auto)]

mod gate;

ghost use Rattle.std.specs.Prelude.{◌≡◌};
ghost use Rattle.rules.specs.Exchange.{left_exchange, exchange_call};
ghost use Rattle.lent.specs.Lent.{room_in, SameTree};
ghost use Rattle.branch.specs.Write.{exchange_of};

use branch::write::write;
use gate::planned;
use lent::{Cells, Table, TreeMut};
use rules::{Exchanged, Record};

// The tree with the branch at a place replaced, written to the room; or why not, and nothing is.
pub fn exchange(
    record: Record,
    table: &Table,
    cells: &Cells,
    at: usize,
    branch: &Table,
    to: &mut TreeMut,
) -> Exchanged
    ensures same_tree { SameTree to.old to.new }
    ensures left { exchange_call (exchange_of «record» table.now cells.now at branch.now (room_in to.old)) ≡ left_exchange result (room_in to.new) }
{
    match planned(record, table, cells, at, branch, to.len()) {
        Err(refused) => refused,
        Ok(cut) => {
            write(cut, record, table, cells, branch, to);
            Exchanged::Done(cut.nodes)
        }
    }
}
