// The drivers a child at a time: what each does when its node is entered, and when the child that it waits for has given a result.
#![tactic(auto)]

mod branches;
mod level;
mod loops;
mod node;
mod sequence;
mod when_all;

pub use level::{Level, Turn, entered};
pub use node::{opened, resumed};
