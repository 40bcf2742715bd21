// The working array of a tick, what is read and written there, and how a driver moves on. specs/ has the tick over it.
#![tactic(auto)]

mod array;
mod moves;
mod reads;
mod result;
mod word;

pub use array::{
    ASKED, FUEL, UPDATE, USED, child, end_of, fresh, number_at, passed, put_mark, put_place,
    put_seen, put_time, time_at, updates, words_of,
};
pub use moves::{
    choice, choose, decorates, exchanges, index_after, is_leaf, move_on, sooner, up_on,
};
pub use reads::Reads;
pub use result::{Seen, Visit, smaller, stopped, waiting};
pub use word::{anew_of, below_of, kind_of, mark_of, place_of, seen_of, with_seen};
