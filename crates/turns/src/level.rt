// An open node, which stands on a level of its own, and what its driver does next.
ghost use Rattle.std.specs.Prelude.{◌≡◌, ◌<◌};
ghost use Rattle.work.specs.Array.{set_place, fuel_of};
ghost use Rattle.turns.specs.Levels.{entered_level};

use rules::Kind;
use work::{Visit, put_place};

// What a driver knows between two visits.
#[derive(Clone, Copy)]
pub struct Level {
    pub kind: Kind,
    // The dt of the node's own visit.
    pub whole: f64,
    pub node: usize,
    // The child's number; of an If or a WhileAll 0 for its condition, which is the place that the cell has then: the
    // rules promise place 0.
    pub index: u32,
    // The child that is visited, and where it ends; of a loop, where the body begins.
    pub child: usize,
    pub next: usize,
    // Where the children end.
    pub stop: usize,
    // The turns that are left, and 0 before a While's condition was looked at; of WhenAll and After 1 while no child was
    // Running: the C interface lends one number for either.
    pub count: u32,
    // The least leftover so far; of WhileAll the rest.
    pub rest: f64,
}

#[derive(Clone, Copy)]
pub enum Turn {
    // A child is due, with what is left as its dt.
    Due(Level, f64),
    // The node is done, with a result.
    Done(Visit),
}

// A node that is done, and keeps the number of its child as its place.
pub fn done_in_place(work: &mut [u32; 260], level: Level, res: Visit) -> Turn
    requires { level.node < 256 }
    ensures value { result ≡ Turn.Done res }
    ensures work_after { work.new ≡ set_place work.old level.node level.index }
    ensures work_unchanged { fuel_of work.new ≡ fuel_of work.old }
{
    put_place(work, level.node, level.index);
    Turn::Done(res)
}

// A node that is entered with dt.
pub fn entered(kind: Kind, node: usize, dt: f64) -> Level
    ensures { result ≡ entered_level kind node dt }
{
    Level {
        kind,
        node,
        child: 0,
        next: 0,
        stop: 0,
        index: 0,
        count: 0,
        whole: dt,
        rest: dt,
    }
}
