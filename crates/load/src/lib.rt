// The working array is written: table and cells are looked at in one pass that refuses or writes it.
#![tactic(auto)]

mod found;
mod fresh;
mod pass;
mod sixteens;
mod words;

pub use found::Fault;
pub use pass::scan;
