// The tick without recursion: its open nodes stand in lent room, an entry for each level.
#![tactic(auto)]

mod climb;
mod decorators;
mod room;

ghost use Rattle.std.specs.Prelude.{◌≡◌, ◌≤◌};
ghost use Rattle.std.specs.Float.{binary64};
ghost use Rattle.rules.specs.Levels.{entries, cleared};
ghost use Rattle.lent.specs.Lent.{levels_in, SameRoom};
ghost use Rattle.work.specs.Flat.{out, lent_in, tick};

use climb::climb;
pub use climb::{Risen, Stand};
use lent::Room;
use room::clear_room;
use work::{Reads, Visit};

// The tree that the working array holds is ticked from its root; the sixteen entries are zero behind it.
pub fn tick_flat(
    work: &mut [u32; 260],
    reads: &Reads,
    times: &mut [f64],
    room: &mut Room,
    dt: f64,
) -> Visit
    requires { 16 ≤ entries (levels_in room.old) }
    ensures times_value { tick binary64 (lent_in reads.now) 16 0 dt work.old times.old ≡ out result.seen result.left work.new times.new }
    ensures rests_after { levels_in room.new ≡ cleared (levels_in room.old) }
    ensures same_room { SameRoom room.old room.new }
{
    let result = climb(work, reads, times, room, dt);
    clear_room(room);
    result
}
