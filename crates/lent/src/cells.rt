// A run of cells: times, places, marks, and the number of the tick that last made each fresh.
ghost use Rattle.std.specs.Prelude.{◌≡◌};
ghost use Rattle.rules.specs.Call.{run_length};
ghost use Rattle.lent.specs.Lent.{run_of, run_in, SameCells};

#[derive(Clone, Copy)]
pub struct Cells<'a> {
    pub times: &'a [f64],
    pub places: &'a [u16],
    pub marks: &'a [u8],
    pub sinces: &'a [u64],
}

impl<'a> Cells<'a> {
    // How many cells there are.
    #[tactic(auto, using(crate::specs::Lengths::cells_length))]
    pub fn len(&self) -> usize
        ensures { result ≡ run_length (run_of self.now) }
    {
        let states = self.places.len().min(self.marks.len());
        self.times.len().min(states).min(self.sinces.len())
    }
}

// The same, to be written.
#[derive(Drop)]
pub struct CellsMut<'a> {
    pub times: &'a mut [f64],
    pub places: &'a mut [u16],
    pub marks: &'a mut [u8],
    pub sinces: &'a mut [u64],
}

impl<'a> CellsMut<'a> {
    // The same cells, to be read.
    pub fn as_cells(&self) -> Cells<'_>
        ensures { run_of result ≡ run_in self.now }
    {
        Cells {
            times: self.times,
            places: self.places,
            marks: self.marks,
            sinces: self.sinces,
        }
    }
}
