// What ticks the tree that a working array holds: with recursion, or without it in lent room.
ghost use Rattle.std.specs.Prelude.{◌≡◌, ◌≤◌, Option, Some, None, ⊤, refl};
ghost use Rattle.std.specs.Float.{binary64};
ghost use Rattle.rules.specs.Levels.{Levels};
ghost use Rattle.lent.specs.Lent.{levels_in, SameRoom};
ghost use Rattle.work.specs.Flat.{out, lent_in, tick};
ghost use Rattle.call.specs.Room.{entries_at, cleared_at};

use engine::tick_flat;
use lent::Room;
use walk::tick_node;
use work::{Reads, Visit};

pub trait Walker {
    // Its room, where it needs one.
    ghost room: { Self → Option Levels };

    // It still holds the slices that it held.
    ghost Same: { Self → Self → Type 0 };

    ghost untouched: { (w : Self) → Same w w };

    // How many open nodes there is room for.
    fn entries(&self) -> usize
        ensures { result ≡ entries_at (room self.now) };

    // The tree is ticked from its root.
    fn walk(&mut self, work: &mut [u32; 260], reads: &Reads, times: &mut [f64], dt: f64) -> Visit
        requires { 16 ≤ entries_at (room self.old) }
        ensures walked { tick binary64 (lent_in reads.now) 16 0 dt work.old times.old ≡ out result.seen result.left work.new times.new }
        ensures room_after { room self.new ≡ cleared_at (room self.old) }
        ensures same { Same self.old self.new };
}

// With recursion, which needs no room.
#[derive(Clone, Copy)]
pub struct Deep;

impl Walker for Deep {
    ghost room = { λ _. None };

    ghost Same = { λ _ _. ⊤ };

    ghost untouched = { λ _. tt };

    fn entries(&self) -> usize {
        16
    }

    fn walk(&mut self, work: &mut [u32; 260], reads: &Reads, times: &mut [f64], dt: f64) -> Visit {
        tick_node(work, reads, times, 0, 16, dt)
    }
}

impl<'a> Walker for Room<'a> {
    ghost room = { λ r. Some (levels_in r) };

    ghost Same = { SameRoom };

    ghost untouched = { λ _. (refl, refl, refl, refl) };

    fn entries(&self) -> usize {
        Room::entries(self)
    }

    fn walk(&mut self, work: &mut [u32; 260], reads: &Reads, times: &mut [f64], dt: f64) -> Visit {
        tick_flat(work, reads, times, self, dt)
    }
}
