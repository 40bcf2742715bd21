// A branch of a tree: the way down to it, how deep a tree is, and a tree written with the branch replaced.
#![tactic(auto)]

mod depth;
mod way;
pub mod write;

pub use depth::depth_of;
pub use way::way_to;
