// What the pass refuses.
ghost use Rattle.std.specs.Prelude.{◌≡◌};
ghost use Rattle.load.specs.declared.found.Fault.TheVariants as fault;

use tables::BadTable;

// The smallest faulty place of a table, or the smallest place of a bad cell in a good table.
#[derive(Clone, Copy, PartialEq, Eq)]
pub enum Fault {
    Table(usize),
    Cell(usize),
}

impl From<BadTable> for Fault {
    ghost from_gives = { λ bad r. r ≡ fault.Table bad.0 };

    fn from(bad: BadTable) -> Fault {
        Fault::Table(bad.0)
    }
}
