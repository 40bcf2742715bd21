// One line of the bench program: what it asks for is done, and what it prints is put into a room.
#![tactic(auto)]

mod held;
mod said;
mod step;

pub use held::{Answered, Held, Rows};
pub use step::one;
