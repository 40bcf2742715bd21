// Copying the first elements of one run onto another; what stands behind stays.
ghost use Rattle.std.specs.Prelude.{◌≡◌, ◌≤◌, length};
ghost use Rattle.lent.specs.Lent.{run_of, run_in, SameCells};
ghost use Rattle.cells.specs.Long.{Long};
ghost use Rattle.cells.specs.Onto.{onto, onto_cells};

use lent::{Cells, CellsMut};

// A loop: `copy_from_slice` calls memmove, which a host without a C library need not have.
pub fn copy_first<T: Copy>(from: &[T], to: &mut [T], n: usize)
    requires { (n ≤ length from.now) × (n ≤ length to.old) }
    ensures { to.new ≡ onto n from.now to.old }
{
    for i in 0..n {
        to[i] = from[i];
    }
}

// Cell by cell: with few cells, fewer than 8, four loops cost more than one.
fn copy_few(from: &Cells, to: &mut CellsMut, n: usize)
    requires long { Long n (run_of from.now) }
    requires long_2 { Long n (run_in to.old) }
    ensures copied { run_in to.new ≡ onto_cells n (run_of from.now) (run_in to.old) }
    ensures same_cells { SameCells to.old to.new }
{
    for i in 0..n {
        to.times[i] = from.times[i];
        to.places[i] = from.places[i];
        to.marks[i] = from.marks[i];
        to.sinces[i] = from.sinces[i];
    }
}

pub fn copy_cells(from: &Cells, to: &mut CellsMut, n: usize)
    requires long { Long n (run_of from.now) }
    requires long_2 { Long n (run_in to.old) }
    ensures copied { run_in to.new ≡ onto_cells n (run_of from.now) (run_in to.old) }
    ensures same_cells { SameCells to.old to.new }
{
    if n < 8 {
        copy_few(from, to, n);
        return;
    }
    copy_first(from.times, to.times, n);
    copy_first(from.places, to.places, n);
    copy_first(from.marks, to.marks, n);
    copy_first(from.sinces, to.sinces, n);
}
