// The bench program: lines from a reader, what they print to a writer. Document 01, "The bench program".
// It holds one table with its cells, and one part of the input at a time.
#![tactic(auto)]

mod cut;
mod fetch;
mod input;
mod output;

ghost use Rattle.std.specs.Prelude.{◌≤◌, ℕ, List, length, take, OnOk, OnErr, IfSome};
ghost use Rattle.std.specs.Io.KnownBytes.{Appends, Consumes};
ghost use Rattle.bench_line.specs.Bench.{bench};
ghost use Rattle.lent.specs.Lent.{run_in, SameCells};
ghost use Rattle.bench_line.specs.Held.{state_of, SameRows, SameAnswered};
ghost use Rattle.bench_lib.specs.Served.{Lined};
ghost use Rattle.bench_lib.specs.Streams.{Breaks};

use bench_line::{Answered, Held, Rows, one};
use cut::line_end;
use frames::{ANSWERS, NODES};
use input::Input;
use lent::CellsMut;
use output::Output;
use std::io;
use std::io::{ErrorKind, Read, Write};

// Serves the lines in hand in order, as long as the output has room.
fn lines(
    held: &mut Held,
    rows: &mut Rows,
    cells: &mut CellsMut,
    input: &mut Input,
    answered: &mut Answered,
    output: &mut Output,
)
    ensures lined { Lined (state_of held.old rows.old (run_in cells.old)) input.old (state_of held.new rows.new (run_in cells.new)) input.new output.new }
    ensures same_rows { SameRows rows.old rows.new }
    ensures same_cells { SameCells cells.old cells.new }
    ensures same_answered { SameAnswered answered.old answered.new }
{
    output.written = 0;
    while held.on && output.has_room() {
        let rest = &input.bytes[input.start..input.end];
        let Some(n) = line_end(rest, input.last) else {
            break;
        };
        let printed = one(
            held,
            rows,
            cells,
            &rest[..n],
            answered,
            &mut output.bytes[output.written..],
        );
        output.written += printed;
        input.start += n;
    }
}

// Writes what was printed.
fn flush<W: Write>(to: &mut W, printed: &[u8]) -> io::Result<()>
    ensures ok { OnOk result (Appends (W.contents to.old) (W.contents to.new) printed.now) }
    ensures err { OnErr result ((n : ℕ) × (n ≤ length printed.now)
        × Appends (W.contents to.old) (W.contents to.new) (take n printed.now)) }
{
    let mut done = 0;
    while done < printed.len() {
        let n = to.write(&printed[done..])?;
        if n == 0 {
            return Err(io::Error::new(ErrorKind::WriteZero, "nothing more can be written"));
        }
        done += n;
    }
    Ok(())
}

// Serves the lines of a reader up to its end or the first malformed line. Where a read or a write fails, nothing more is read or
// written.
pub fn between<R: Read, W: Write>(from: &mut R, to: &mut W) -> io::Result<()>
    // What is written is what the definition says of all that the reader had.
    ensures ok { OnOk result (IfSome (R.remaining from.old)
        (λ input. Appends (W.contents to.old) (W.contents to.new) (bench input))) }
    // Of a reader that does not say what it has: it is what the definition says of what was read.
    ensures read { OnOk result ((input : List ℕ)
        × Consumes (R.remaining from.old) (R.remaining from.new) input
        × Appends (W.contents to.old) (W.contents to.new) (bench input)) }
    // What was written is the beginning of what the definition says of what was read.
    ensures err { OnErr result (Breaks (R.remaining from.old) (R.remaining from.new)
        (W.contents to.old) (W.contents to.new)) }
{
    let mut held = Held::new();
    let mut rows = Rows {
        kinds: &mut [0; NODES],
        ns: &mut [0; NODES],
        limits: &mut [0.0; NODES],
    };
    let mut cells = CellsMut {
        times: &mut [0.0; NODES],
        places: &mut [0; NODES],
        marks: &mut [0; NODES],
        sinces: &mut [0; NODES],
    };
    let mut input = Input::new();
    let mut answered = Answered {
        statuses: &mut [0; ANSWERS],
        patterns: &mut [0; ANSWERS],
        leftovers: &mut [0.0; ANSWERS],
    };
    let mut output = Output::new();
    // Nothing says that the input ends: so many turns are more than any input needs.
    for _ in 0..u64::MAX {
        lines(
            &mut held,
            &mut rows,
            &mut cells,
            &mut input,
            &mut answered,
            &mut output,
        );
        flush(to, &output.bytes[..output.written])?;
        if !held.on {
            return Ok(());
        }
        if output.has_room() {
            if input.last {
                return Ok(());
            }
            input.read_on(from)?;
        }
    }
    Err(io::Error::new(ErrorKind::TimedOut, "gave up after 2^64 turns"))
}
