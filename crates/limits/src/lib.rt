// A number of ticks that stops at the first one that is not told, and how a node's ticks are worked
// out from those of its children.
#![tactic(auto)]

mod node;
mod ticks;
mod time;

pub use node::{Join, alone, bounded, together};
pub use ticks::{ABOVE, Ticks, larger, product, smaller, sum, ticks_of, told};
pub use time::{MOST_WHOLE, own_ticks, whole, whole_limit};
