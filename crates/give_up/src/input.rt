// Nodes and the first tick of frames that stand in memory.
ghost use Rattle.std.specs.Prelude.{◌<◌, ◌≤◌, length, take, IfOk};
ghost use Rattle.std.specs.Io.KnownBytes.{Consumes, IsAtEnd};

use crate::tree::{Tick, Tree};
use frames::{ANSWERS, Input};
use std::io;
use std::io::Read;

// Room for every node line and the longest tick line.
const INPUT: usize = 65536;

// What whole lines ask for: the nodes, and the first call behind them. Of a new tree a restart is a tick. None where a line that
// is neither, or no line, ends the nodes.
fn lines(input: &[u8], tree: &mut Tree) -> Option<Tick> {
    let mut statuses = [0u8; ANSWERS];
    let mut patterns = [0u64; ANSWERS];
    let mut rest = input;
    while let Some(before) = rest.iter().position(|b| *b == b'\n') {
        let (line, after) = rest.split_at(before + 1);
        let reading = frames::read(line, &mut statuses, &mut patterns);
        match frames::admit(tree.nodes(), false, reading) {
            Input::Node { kind, n, limit } => tree.push(kind, n, frames::time(limit))?,
            Input::Asked {
                call: _,
                event,
                fuel,
                count,
            } => return Tick::new(event, fuel, usize::from(count), statuses, &patterns),
            Input::Malformed => return None,
        }
        rest = after;
    }
    None
}

// Reads until the room is full or the input ends, and answers how many bytes came.
fn fill<R: Read>(from: &mut R, room: &mut [u8]) -> io::Result<usize>
    ensures within { IfOk result (λ n. n ≤ length room.new) }
    ensures bytes { IfOk result
        (λ n. Consumes (R.remaining from.old) (R.remaining from.new) (take n room.new)) }
    ensures end { IfOk result (λ n. n < length room.new → IsAtEnd (R.remaining from.new)) }
{
    let mut done = 0;
    while done < room.len() {
        let n = from.read(&mut room[done..])?;
        if n == 0 {
            break;
        }
        done += n;
    }
    Ok(done)
}

// What the bytes of a reader ask for.
pub fn read<R: Read>(from: &mut R, tree: &mut Tree) -> io::Result<Option<Tick>> {
    let mut input = [0u8; INPUT];
    let n = fill(from, &mut input)?;
    Ok(lines(&input[..n], tree))
}
