// A table, and the answers of a tick: runs that are only read.
ghost use Rattle.std.specs.Prelude.{◌≡◌, length};
ghost use Rattle.lent.specs.Lent.{rows_of, answers_of};

// A row for each node: kind, number and limit.
#[derive(Clone, Copy)]
pub struct Table<'a> {
    pub kinds: &'a [u8],
    pub ns: &'a [u16],
    pub limits: &'a [f64],
}

impl<'a> Table<'a> {
    // How many rows there are.
    #[tactic(auto, using(crate::specs::Lengths::rows_length))]
    pub fn rows(&self) -> usize
        ensures { result ≡ length (rows_of self.now) }
    {
        self.kinds.len().min(self.ns.len().min(self.limits.len()))
    }
}

// The statuses and leftovers of actions.
#[derive(Clone, Copy)]
pub struct Answers<'a> {
    pub statuses: &'a [u8],
    pub leftovers: &'a [f64],
}

impl<'a> Answers<'a> {
    // How many answers there are.
    #[tactic(auto, using(crate::specs::Lengths::answers_length))]
    pub fn count(&self) -> usize
        ensures { result ≡ length (answers_of self.now) }
    {
        self.statuses.len().min(self.leftovers.len())
    }
}
