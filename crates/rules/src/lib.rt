// The kinds of nodes, what a node answers and what it is asked with: the types that the rules in
// specs/ speak of.
#![tactic(auto)]

mod answer;
mod behavior;
mod event;
mod exchanged;
mod number;
mod status;

pub use answer::{Answer, BoundAnswer, Called, Record, Said, age};
pub use behavior::{Kind, NoKind};
pub use event::Event;
pub use exchanged::{ExchangeSaid, Exchanged};
pub use number::cleaned;
pub use status::{NoStatus, Status};
