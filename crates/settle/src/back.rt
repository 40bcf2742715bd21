// Putting the working array back into the runs that a host lends.
ghost use Rattle.std.specs.Prelude.{◌≡◌, ◌≤◌, length, bit_or};
ghost use Rattle.std.specs.List.{fold};
ghost use Rattle.work.specs.Word.{place_of, mark_of, seen_of};
ghost use Rattle.lent.specs.Lent.{SameCells};
ghost use Rattle.settle.specs.Back.{over, stamped_over};

use lent::CellsMut;
use work::{anew_of, mark_of, place_of, seen_of};

// Places, marks and statuses, many nodes at a time.
// By index: over `enumerate` it takes a third longer, and what a loop writes through `iter_mut().zip(..)` is not known to a proof behind it.
fn put_states(work: &[u32; 260], places: &mut [u16], marks: &mut [u8], board: &mut [u8], n: usize)
    requires { (n ≤ 256) × (n ≤ length places.old) × (n ≤ length marks.old) × (n ≤ length board.old) }
    ensures places_after { places.new ≡ over place_of n work.now places.old }
    ensures marks_after { marks.new ≡ over mark_of n work.now marks.old }
    ensures board_after { board.new ≡ over seen_of n work.now board.old }
{
    for i in 0..n {
        let word = work[i];
        places[i] = place_of(word) as u16;
        marks[i] = mark_of(word) as u8;
        board[i] = seen_of(word) as u8;
    }
}

// The bits of all words: whether one says that its node was made fresh, without a branch for each.
fn all_bits(words: &[u32]) -> u32
    ensures { result ≡ fold bit_or 0 words.now }
{
    words.iter().fold(0, |all, word| all | *word)
}

// The tick's number where it made a node fresh: mostly nowhere.
fn put_sinces(work: &[u32; 260], sinces: &mut [u64], n: usize, this: u64)
    requires { (n ≤ 256) × (n ≤ length sinces.old) }
    ensures { sinces.new ≡ stamped_over this n work.now sinces.old }
{
    if !anew_of(all_bits(&work[..n])) {
        return;
    }
    // Each number is read, so that there is no branch; by index for the reasons above.
    for i in 0..n {
        let before = sinces[i];
        sinces[i] = if anew_of(work[i]) { this } else { before };
    }
}

// Places, marks and statuses of the first n nodes, and the tick's number where it made one fresh; what stands behind stays.
pub fn put_back(work: &[u32; 260], cells: &mut CellsMut, board: &mut [u8], n: usize, this: u64)
    requires n_bound { (n ≤ 256) × (n ≤ length cells.old.places.now) × (n ≤ length cells.old.marks.now)
        × (n ≤ length cells.old.sinces.now) × (n ≤ length board.old) }
    ensures same_cells { SameCells cells.old cells.new }
    ensures times_after { cells.new.times.now ≡ cells.old.times.now }
    ensures places_after { cells.new.places.now ≡ over place_of n work.now cells.old.places.now }
    ensures marks_after { cells.new.marks.now ≡ over mark_of n work.now cells.old.marks.now }
    ensures sinces_after { cells.new.sinces.now ≡ stamped_over this n work.now cells.old.sinces.now }
    ensures board_after { board.new ≡ over seen_of n work.now board.old }
{
    put_sinces(work, cells.sinces, n, this);
    put_states(work, cells.places, cells.marks, board, n);
}
