// One line: what it asks for is done, and what it prints is put into a room.
ghost use Rattle.std.specs.Prelude.{◌≡◌, ◌<◌, ◌≤◌, length, take};
ghost use Rattle.frames.specs.Line.{answers_of};
ghost use Rattle.bench_line.specs.Bench.{event_of, printed};
ghost use Rattle.rules.specs.Call.{Run};
ghost use Rattle.lent.specs.Lent.{run_in, SameCells};
ghost use Rattle.bench_line.specs.Held.{state_of, restarts_of, with_row, SameRows, SameAnswered, Prints, Serves, Steps};

use crate::held::{Answered, Held, Rows};
use crate::said::said;
use call::Deep;
use frames::{Call, Event, Frame, Input, NODES};
use lent::{Answers, CellsMut, Table};
use rules::Answer;

// Puts a frame without answers at the start of a room.
fn put(frame: Frame, room: &mut [u8]) -> usize
    requires frame_value { answers_of frame ≡ 0 }
    requires in_bounds { 45 ≤ length room.old }
    ensures { Prints (printed frame) room.old result room.new }
{
    writer::write(frame, &[], &[], room).unwrap_or(0)
}

fn event_of(event: Event) -> rules::Event
    ensures { result ≡ event_of event }
{
    match event {
        Event::Other(_) => rules::Event::Other,
        Event::Update(dt) => rules::Event::Update(frames::time(dt)),
    }
}

fn restarts(call: Call) -> bool
    ensures { result ≡ restarts_of call }
{
    matches!(call, Call::Restart)
}

// Keeps a node as the table's next row.
fn keep(held: &mut Held, rows: &mut Rows, kind: u8, n: u16, limit: u64)
    requires { held.old.nodes < 257 }
    ensures kept { (c : Run) → state_of held.new rows.new c ≡ with_row (state_of held.old rows.old c) kind n limit }
    ensures same_rows { SameRows rows.old rows.new }
{
    let at = held.nodes;
    rows.kinds[at] = kind;
    rows.ns[at] = n;
    rows.limits[at] = frames::time(limit);
    held.nodes = at + 1;
}

// The call that a line asks for, with these answers. Nobody sees its spare and its board.
fn serve(
    held: &mut Held,
    rows: &Rows,
    cells: &mut CellsMut,
    call: Call,
    event: Event,
    fuel: u32,
    answers: &Answers,
) -> Answer
    ensures served { Serves (state_of held.old rows.now (run_in cells.old)) call event fuel answers.now.statuses.now answers.now.leftovers.now
        result (state_of held.new rows.now (run_in cells.new)) }
    ensures same_cells { SameCells cells.old cells.new }
{
    let mut times = [0.0; NODES];
    let mut places = [0; NODES];
    let mut marks = [0; NODES];
    let mut sinces = [0; NODES];
    let mut board = [0u8; NODES];
    let called = call::value(
        &mut Deep,
        held.record,
        &Table {
            kinds: &rows.kinds[..held.nodes],
            ns: &rows.ns[..held.nodes],
            limits: &rows.limits[..held.nodes],
        },
        cells,
        &mut CellsMut {
            times: &mut times,
            places: &mut places,
            marks: &mut marks,
            sinces: &mut sinces,
        },
        &mut board,
        event_of(event),
        fuel,
        answers,
        restarts(call),
    );
    held.record = called.record;
    held.begun = true;
    called.answer
}

// Does what a line asks for, and answers how many bytes it printed.
pub fn one(
    held: &mut Held,
    rows: &mut Rows,
    cells: &mut CellsMut,
    line: &[u8],
    answered: &mut Answered,
    room: &mut [u8],
) -> usize
    requires { 45 ≤ length room.old }
    ensures steps { Steps (state_of held.old rows.old (run_in cells.old)) line.now room.old
        result (state_of held.new rows.new (run_in cells.new)) room.new }
    ensures same_rows { SameRows rows.old rows.new }
    ensures same_cells { SameCells cells.old cells.new }
    ensures same_answered { SameAnswered answered.old answered.new }
{
    let reading = frames::read(line, answered.statuses, answered.patterns);
    let input = frames::admit(held.nodes, held.begun, reading);
    held.lines = held.lines.wrapping_add(1);
    held.on = true;
    match input {
        Input::Node { kind, n, limit } => {
            keep(held, rows, kind, n, limit);
            0
        }
        Input::Asked {
            call,
            event,
            fuel,
            count,
        } => {
            let count = usize::from(count);
            frames::times(count, answered.patterns, answered.leftovers);
            let answers = Answers {
                statuses: &answered.statuses[..count],
                leftovers: &answered.leftovers[..count],
            };
            let answer = serve(held, rows, cells, call, event, fuel, &answers);
            put(said(call, answer), room)
        }
        Input::Malformed => {
            held.on = false;
            put(Frame::Malformed { line: held.lines }, room)
        }
    }
}
