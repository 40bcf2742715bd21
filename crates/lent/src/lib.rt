// What a host lends, each run as one value: its slices are parallel, and it is as long as the shortest.
#![tactic(auto)]

mod cells;
mod room;
mod table;
mod tree;

pub use cells::{Cells, CellsMut};
pub use room::Room;
pub use table::{Answers, Table};
pub use tree::TreeMut;
