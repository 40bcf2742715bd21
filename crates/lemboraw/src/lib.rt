// The library for hosts: the calls on numbers and slices, with the record by reference. Slice by slice: the C interface needs it.
#![tactic(auto)]

mod numbers;

ghost use Rattle.std.specs.Prelude.{◌≡◌};
ghost use Rattle.std.specs.Float.{binary64};
ghost use Rattle.rules.specs.Outcome.{event_of};
ghost use Rattle.rules.specs.Call.{run, given, age};
ghost use Rattle.rules.specs.Levels.{levels};
ghost use Rattle.rules.specs.Exchange.{room, given_exchange};
ghost use Rattle.rules.specs.Bound.{bound_call};
ghost use Rattle.host.specs.Host.{host_tick, host_restart, host_left, host_tick_flat, host_restart_flat, host_flat_left, host_exchange, host_exchanged, memory_of, bound_of};

use bound::finish_bound;
use call::Deep;
use host::{Bound, event_of, memory_of};
use lent::{Answers, Cells, CellsMut, Room, Table, TreeMut};
use numbers::said;
use rules::{ExchangeSaid, Record, Said, age};

// A tick: the cells, the board and the record change only as its answer says.
#[unsafe(no_mangle)]
#[tactic(auto, unfolding(host::specs::Host::host_tick, refusals::specs::Due::call_of))]
pub extern "C" fn lemboraw_tick(
    record: &mut Record,
    kinds: &[u8],
    ns: &[u16],
    limits: &[f64],
    times: &mut [f64],
    places: &mut [u16],
    marks: &mut [u8],
    sinces: &mut [u64],
    spare_times: &mut [f64],
    spare_places: &mut [u16],
    spare_marks: &mut [u8],
    spare_sinces: &mut [u64],
    board: &mut [u8],
    update: bool,
    dt: f64,
    fuel: u32,
    statuses: &[u8],
    leftovers: &[f64],
) -> Said
    ensures { host_tick (given «record».old kinds.now ns.now limits.now
        (run times.old places.old marks.old sinces.old)
        (run spare_times.old spare_places.old spare_marks.old spare_sinces.old)
        board.old (event_of update dt) fuel statuses.now leftovers.now)
        ≡ host_left result «record».new
        (run times.new places.new marks.new sinces.new)
        (run spare_times.new spare_places.new spare_marks.new spare_sinces.new)
        board.new }
{
    let table = Table { kinds, ns, limits };
    let mut cells = CellsMut {
        times,
        places,
        marks,
        sinces,
    };
    let mut spare = CellsMut {
        times: spare_times,
        places: spare_places,
        marks: spare_marks,
        sinces: spare_sinces,
    };
    let answers = Answers {
        statuses,
        leftovers,
    };
    let event = event_of(update, dt);
    said(
        &mut Deep, record, &table, &mut cells, &mut spare, board, event, fuel, &answers, false,
    )
}

// A restart: a tick as from a fresh tree, of cells that may hold anything. If it does not end in answer 0, the cells, the
// board and the record are as they were.
#[unsafe(no_mangle)]
#[tactic(auto, unfolding(host::specs::Host::host_restart, refusals::specs::Due::call_of))]
pub extern "C" fn lemboraw_restart(
    record: &mut Record,
    kinds: &[u8],
    ns: &[u16],
    limits: &[f64],
    times: &mut [f64],
    places: &mut [u16],
    marks: &mut [u8],
    sinces: &mut [u64],
    spare_times: &mut [f64],
    spare_places: &mut [u16],
    spare_marks: &mut [u8],
    spare_sinces: &mut [u64],
    board: &mut [u8],
    update: bool,
    dt: f64,
    fuel: u32,
    statuses: &[u8],
    leftovers: &[f64],
) -> Said
    ensures { host_restart (given «record».old kinds.now ns.now limits.now
        (run times.old places.old marks.old sinces.old)
        (run spare_times.old spare_places.old spare_marks.old spare_sinces.old)
        board.old (event_of update dt) fuel statuses.now leftovers.now)
        ≡ host_left result «record».new
        (run times.new places.new marks.new sinces.new)
        (run spare_times.new spare_places.new spare_marks.new spare_sinces.new)
        board.new }
{
    let table = Table { kinds, ns, limits };
    let mut cells = CellsMut {
        times,
        places,
        marks,
        sinces,
    };
    let mut spare = CellsMut {
        times: spare_times,
        places: spare_places,
        marks: spare_marks,
        sinces: spare_sinces,
    };
    let answers = Answers {
        statuses,
        leftovers,
    };
    let event = event_of(update, dt);
    said(
        &mut Deep, record, &table, &mut cells, &mut spare, board, event, fuel, &answers, true,
    )
}

// A tick without recursion: as the tick in all else. Its open nodes stand in the lent room, an entry for each of sixteen
// levels, which is zero behind a walk.
#[unsafe(no_mangle)]
#[tactic(auto, using(crate::proofs::Told::tick_told))]
pub extern "C" fn lemboraw_tick_flat(
    record: &mut Record,
    kinds: &[u8],
    ns: &[u16],
    limits: &[f64],
    times: &mut [f64],
    places: &mut [u16],
    marks: &mut [u8],
    sinces: &mut [u64],
    spare_times: &mut [f64],
    spare_places: &mut [u16],
    spare_marks: &mut [u8],
    spare_sinces: &mut [u64],
    board: &mut [u8],
    update: bool,
    dt: f64,
    fuel: u32,
    statuses: &[u8],
    leftovers: &[f64],
    opens: &mut [u64],
    counts: &mut [u32],
    wholes: &mut [f64],
    rests: &mut [f64],
) -> Said
    ensures { host_tick_flat (given «record».old kinds.now ns.now limits.now
        (run times.old places.old marks.old sinces.old)
        (run spare_times.old spare_places.old spare_marks.old spare_sinces.old)
        board.old (event_of update dt) fuel statuses.now leftovers.now)
        (levels opens.old counts.old wholes.old rests.old)
        ≡ host_flat_left result «record».new
        (run times.new places.new marks.new sinces.new)
        (run spare_times.new spare_places.new spare_marks.new spare_sinces.new)
        board.new (levels opens.new counts.new wholes.new rests.new) }
{
    let table = Table { kinds, ns, limits };
    let mut cells = CellsMut {
        times,
        places,
        marks,
        sinces,
    };
    let mut spare = CellsMut {
        times: spare_times,
        places: spare_places,
        marks: spare_marks,
        sinces: spare_sinces,
    };
    let answers = Answers {
        statuses,
        leftovers,
    };
    let mut room = Room {
        opens,
        counts,
        wholes,
        rests,
    };
    let event = event_of(update, dt);
    said(
        &mut room, record, &table, &mut cells, &mut spare, board, event, fuel, &answers, false,
    )
}

// A restart without recursion: as the restart in all else, in lent room as the tick's.
#[unsafe(no_mangle)]
#[tactic(auto, using(crate::proofs::Told::restart_told))]
pub extern "C" fn lemboraw_restart_flat(
    record: &mut Record,
    kinds: &[u8],
    ns: &[u16],
    limits: &[f64],
    times: &mut [f64],
    places: &mut [u16],
    marks: &mut [u8],
    sinces: &mut [u64],
    spare_times: &mut [f64],
    spare_places: &mut [u16],
    spare_marks: &mut [u8],
    spare_sinces: &mut [u64],
    board: &mut [u8],
    update: bool,
    dt: f64,
    fuel: u32,
    statuses: &[u8],
    leftovers: &[f64],
    opens: &mut [u64],
    counts: &mut [u32],
    wholes: &mut [f64],
    rests: &mut [f64],
) -> Said
    ensures { host_restart_flat (given «record».old kinds.now ns.now limits.now
        (run times.old places.old marks.old sinces.old)
        (run spare_times.old spare_places.old spare_marks.old spare_sinces.old)
        board.old (event_of update dt) fuel statuses.now leftovers.now)
        (levels opens.old counts.old wholes.old rests.old)
        ≡ host_flat_left result «record».new
        (run times.new places.new marks.new sinces.new)
        (run spare_times.new spare_places.new spare_marks.new spare_sinces.new)
        board.new (levels opens.new counts.new wholes.new rests.new) }
{
    let table = Table { kinds, ns, limits };
    let mut cells = CellsMut {
        times,
        places,
        marks,
        sinces,
    };
    let mut spare = CellsMut {
        times: spare_times,
        places: spare_places,
        marks: spare_marks,
        sinces: spare_sinces,
    };
    let answers = Answers {
        statuses,
        leftovers,
    };
    let mut room = Room {
        opens,
        counts,
        wholes,
        rests,
    };
    let event = event_of(update, dt);
    said(
        &mut room, record, &table, &mut cells, &mut spare, board, event, fuel, &answers, true,
    )
}

// The exchange of a branch that has not been started: the tree with the branch at a place replaced is written to the
// room; on any answer but 0 nothing is written.
#[unsafe(no_mangle)]
#[tactic(auto, unfolding(host::specs::Host::host_exchange))]
pub extern "C" fn lemboraw_exchange(
    record: Record,
    kinds: &[u8],
    ns: &[u16],
    limits: &[f64],
    times: &[f64],
    places: &[u16],
    marks: &[u8],
    sinces: &[u64],
    at: usize,
    new_kinds: &[u8],
    new_ns: &[u16],
    new_limits: &[f64],
    room_kinds: &mut [u8],
    room_ns: &mut [u16],
    room_limits: &mut [f64],
    room_times: &mut [f64],
    room_places: &mut [u16],
    room_marks: &mut [u8],
    room_sinces: &mut [u64],
) -> ExchangeSaid
    ensures { host_exchange (given_exchange «record» kinds.now ns.now limits.now
        (run times.now places.now marks.now sinces.now) at
        new_kinds.now new_ns.now new_limits.now
        (room room_kinds.old room_ns.old room_limits.old room_times.old room_places.old
        room_marks.old room_sinces.old))
        ≡ host_exchanged result (room room_kinds.new room_ns.new room_limits.new room_times.new
        room_places.new room_marks.new room_sinces.new) }
{
    let table = Table { kinds, ns, limits };
    let cells = Cells {
        times,
        places,
        marks,
        sinces,
    };
    let branch = Table {
        kinds: new_kinds,
        ns: new_ns,
        limits: new_limits,
    };
    let mut to = TreeMut {
        kinds: room_kinds,
        ns: room_ns,
        limits: room_limits,
        times: room_times,
        places: room_places,
        marks: room_marks,
        sinces: room_sinces,
    };
    ExchangeSaid::from(exchange::exchange(record, &table, &cells, at, &branch, &mut to))
}

// How many ticks ago a branch was made fresh: the tick count less the number in its cell, with wrap.
#[unsafe(no_mangle)]
pub extern "C" fn lemboraw_age(ticks: u64, since: u64) -> u64
    ensures { result ≡ age ticks since }
{
    age(ticks, since)
}

// The number of a kind with its memory on or off; a number that is no kind stays.
#[unsafe(no_mangle)]
pub extern "C" fn lemboraw_memory(kind: u8, on: bool) -> u8
    ensures { result ≡ memory_of kind on }
{
    memory_of(kind, on)
}

// The finish bound of a table at a step.
#[unsafe(no_mangle)]
pub extern "C" fn lemboraw_bound(kinds: &[u8], ns: &[u16], limits: &[f64], step: f64) -> Bound
    ensures { result ≡ bound_of (bound_call binary64 kinds.now ns.now limits.now step) }
{
    Bound::from(finish_bound(&Table { kinds, ns, limits }, step))
}
