// The checks before a walk: the refusals in their order, or the walk that is due.
#![tactic(auto)]

mod gate;

pub use gate::checks;
