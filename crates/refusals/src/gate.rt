// The checks before a walk, in document 01's order.
ghost use Rattle.std.specs.Prelude.{◌≡◌, ℕ, replicate};
ghost use Rattle.lent.specs.Lent.{run_of, given_of};
ghost use Rattle.refusals.specs.Due.{timed_of, short_for, Unmatched, refused_as, Passed};

use lent::{Answers, Cells, CellsMut, Table};
use load::{Fault, scan};
use rules::{Answer, Event, Record};
use tables::{MOST_DEEP, bad_answer, check_table, number_of};

// The event to use.
fn event_of(event: Event) -> Option<Event>
    ensures { result ≡ timed_of event }
{
    match event {
        Event::Update(dt) => Some(Event::Update(number_of(dt)?)),
        Event::Other => Some(Event::Other),
    }
}

// Whether cells, spare or board have fewer than n entries.
fn too_short(cells: &Cells, spare: &Cells, board: &[u8], n: usize) -> bool
    ensures { result ≡ short_for n (run_of cells.now) (run_of spare.now) board.now }
{
    cells.len() < n || spare.len() < n || board.len() < n
}

// Refusal 3 or 4, where memory is shorter than the table.
fn unmatched(table: &Table) -> Answer
    ensures { Unmatched table.now.kinds.now table.now.ns.now table.now.limits.now result }
{
    let mut ends = [0u16; 256];
    match check_table(table, &mut ends, MOST_DEEP) {
        Err(bad) => Answer::from(bad),
        Ok(_) => Answer::TooShort,
    }
}

// Refusal 3, 13 or 9. A bad cell is told only where there is room.
fn refused(fault: Fault, entries: usize) -> Answer
    ensures { result ≡ refused_as fault entries }
{
    match fault {
        Fault::Table(p) => Answer::BadTable(p),
        Fault::Cell(p) => {
            if 16 <= entries {
                Answer::BadCell(p)
            } else {
                Answer::NoRoom
            }
        }
    }
}

// Refusals 3, 4, 13, 9, 5, 6 and 2; a tree that starts fresh knows no 9 and no 2. Of a tree that is due, work gets the words, and how
// many nodes it has is told, with the event to use. The lengths come first, for then one pass tells the others: a good table has a node
// in each of its rows. In place: a call is compiled for each of what walks, and would else call out. Its values one by one, as in
// `call::value`.
#[inline(always)]
pub fn checks(
    record: Record,
    table: &Table,
    work: &mut [u32; 260],
    cells: &CellsMut,
    spare: &CellsMut,
    board: &[u8],
    event: Event,
    answers: &Answers,
    entries: usize,
    fresh: bool,
) -> Result<(usize, Event), Answer>
    requires { work.old ≡ replicate 260 0 }
    ensures { (fuel : ℕ) → Passed fresh entries (given_of «record» table.now cells.now spare.now board.now event fuel answers.now)
        work.new result }
{
    let rows = table.rows();
    let lent = cells.as_cells();
    if too_short(&lent, &spare.as_cells(), board, rows) {
        return Err(unmatched(table));
    }
    // A match: of `map_err` the proof knows nothing of the error's arm.
    let n = match scan(table, &lent, work, rows, fresh) {
        Ok(n) => n,
        Err(fault) => return Err(refused(fault, entries)),
    };
    if entries < 16 {
        return Err(Answer::NoRoom);
    }
    let used = event_of(event).ok_or(Answer::BadTime)?;
    if let Some(i) = bad_answer(answers) {
        return Err(Answer::BadAnswer(i));
    }
    if !fresh && record.finished {
        return Err(Answer::Finished);
    }
    Ok((n, used))
}
