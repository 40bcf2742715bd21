// The lent room: an entry for each level, in four slices. The kind of an open node, its places and its index
// stand in one number, the kind in the lowest eight bits: the C interface lends such numbers.
ghost use Rattle.std.specs.Prelude.{◌≡◌, ◌≤◌, ◌<◌};
ghost use Rattle.rules.specs.Levels.{entries, cleared};
ghost use Rattle.lent.specs.Lent.{levels_in, SameRoom};
ghost use Rattle.turns.specs.Levels.{Fine};
ghost use Rattle.engine.specs.Stands.{packed_in, kind_as, node_as, unpacked_from, level_at, put_at};

use cells::clear;
use lent::Room;
use rules::Kind;
use turns::Level;

// All sixteen entries are made zero.
pub fn clear_room(room: &mut Room)
    requires { 16 ≤ entries (levels_in room.old) }
    ensures cleared { levels_in room.new ≡ cleared (levels_in room.old) }
    ensures same_room { SameRoom room.old room.new }
{
    clear(room.opens, 16, 0);
    clear(room.counts, 16, 0);
    clear(room.wholes, 16, 0.0);
    clear(room.rests, 16, 0.0);
}

fn packed(level: Level) -> u64
    requires { Fine level }
    ensures { result ≡ packed_in level }
{
    let stop = level.stop as u64 + 512 * u64::from(level.index);
    let next = level.next as u64 + 512 * stop;
    let child = level.child as u64 + 512 * next;
    let node = level.node as u64 + 512 * child;
    u64::from(u8::from(level.kind)) + 256 * node
}

pub fn kind_in(x: u64) -> Kind
    ensures { result ≡ kind_as x }
{
    Kind::of((x % 256) as u8)
}

pub fn node_in(x: u64) -> usize
    ensures { result ≡ node_as x }
{
    (x / 256 % 512) as usize
}

// The level that was packed into x, with its count and times.
fn unpacked(x: u64, count: u32, whole: f64, rest: f64) -> Level
    ensures { result ≡ unpacked_from x count whole rest }
{
    let child = x / 256 / 512;
    let next = child / 512;
    let stop = next / 512;
    let index = stop / 512;
    Level {
        kind: kind_in(x),
        node: node_in(x),
        child: (child % 512) as usize,
        next: (next % 512) as usize,
        stop: (stop % 512) as usize,
        index: index as u32,
        count,
        whole,
        rest,
    }
}

pub fn keep(room: &mut Room, at: usize, level: Level)
    requires at_bound { at < entries (levels_in room.old) }
    requires fine { Fine level }
    ensures put { levels_in room.new ≡ put_at (levels_in room.old) at level }
    ensures same_room { SameRoom room.old room.new }
{
    room.opens[at] = packed(level);
    room.counts[at] = level.count;
    room.wholes[at] = level.whole;
    room.rests[at] = level.rest;
}

pub fn kept(room: &Room, at: usize) -> Level
    requires { at < entries (levels_in room.now) }
    ensures { result ≡ level_at (levels_in room.now) at }
{
    unpacked(
        room.opens[at],
        room.counts[at],
        room.wholes[at],
        room.rests[at],
    )
}
