// The walk over the first cells of the lent times.
ghost use Rattle.std.specs.Prelude.{◌≡◌, ◌≤◌, length, set, take, drop};
ghost use Rattle.std.specs.Float.{binary64};
ghost use Rattle.rules.specs.Outcome.{dt};
ghost use Rattle.work.specs.Flat.{out, lent_in, tick};
ghost use Rattle.refine.specs.Words.{bit};
ghost use Rattle.refusals.specs.Enter.{updates};
ghost use Rattle.call.specs.Room.{entries_at, cleared_at};

use crate::walker::Walker;
use rules::Event;
use work::{FUEL, Reads, UPDATE, Visit};

// 1 for an update.
fn update_bit(event: Event) -> u32
    ensures { result ≡ bit (updates event) }
{
    u32::from(matches!(event, Event::Update(_)))
}

// The tree of n nodes that the working array holds is ticked; the times behind it stay.
pub fn enter<W: Walker>(
    walker: &mut W,
    work: &mut [u32; 260],
    reads: &Reads,
    times: &mut [f64],
    n: usize,
    event: Event,
    fuel: u32,
) -> Visit
    requires n_in_bounds { n ≤ length times.old }
    requires bound { 16 ≤ entries_at (W.room walker.old) }
    ensures times_value { tick binary64 (lent_in reads.now) 16 0 (dt event)
        (set (set work.old 256 fuel) 259 (bit (updates event))) (take n times.old)
        ≡ out result.seen result.left work.new (take n times.new) }
    ensures times_unchanged { drop n times.new ≡ drop n times.old }
    ensures room_after { W.room walker.new ≡ cleared_at (W.room walker.old) }
    ensures same { W.Same walker.old walker.new }
{
    work[FUEL] = fuel;
    work[UPDATE] = update_bit(event);
    walker.walk(work, reads, &mut times[..n], event.dt())
}
