// The room of a walk without recursion: an entry for each level.
ghost use Rattle.std.specs.Prelude.{◌≡◌};
ghost use Rattle.rules.specs.Levels.{entries};
ghost use Rattle.lent.specs.Lent.{levels_in};

#[derive(Drop)]
pub struct Room<'a> {
    pub opens: &'a mut [u64],
    pub counts: &'a mut [u32],
    pub wholes: &'a mut [f64],
    pub rests: &'a mut [f64],
}

impl<'a> Room<'a> {
    // How many entries there are.
    pub fn entries(&self) -> usize
        ensures { result ≡ entries (levels_in self.now) }
    {
        let numbers = self.opens.len().min(self.counts.len());
        numbers.min(self.wholes.len().min(self.rests.len()))
    }
}
