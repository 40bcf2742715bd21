// What one cell may hold.
ghost use Rattle.std.specs.Prelude.{◌≡◌, cond, ◌&&◌, leb, eqb};
ghost use Rattle.rules.specs.Kinds.{timed};
ghost use Rattle.rules.specs.Table.{zero_bits};
ghost use Rattle.rules.specs.Cells.{cell_of, elapsed, last_place, cell_allowed};

use rules::Kind;
use tables::{elapsed, zero_bits};

// No time and no place, as in a fresh cell.
fn at_start(time: f64, place: u16) -> bool
    ensures { result ≡ zero_bits time && eqb place 0 }
{
    zero_bits(time) && place == 0
}

// Only Wait and Timeout have an elapsed time.
fn time_allowed(kind: Kind, time: f64) -> bool
    ensures { result ≡ cond (timed kind) (elapsed time) (zero_bits time) }
{
    if kind.timed() {
        elapsed(time)
    } else {
        zero_bits(time)
    }
}

// 0 is a place of every kind.
fn place_allowed(kind: Kind, n: u16, place: u16) -> bool
    ensures { result ≡ leb place (last_place kind n) }
{
    place == 0 || place <= kind.last_place(n)
}

// `ended`: below a child that has ended; `may_end`: a child of WhenAll or WhenAny.
#[tactic(auto, unfolding(rules::specs::Cells::cell_allowed))]
pub fn cell_allowed(
    ended: bool,
    may_end: bool,
    kind: Kind,
    n: u16,
    time: f64,
    place: u16,
    mark: u8,
) -> bool
    ensures { result ≡ cell_allowed ended may_end kind n (cell_of time place mark) }
{
    if ended {
        return at_start(time, place) && mark == 0;
    }
    match mark {
        0 => time_allowed(kind, time) && place_allowed(kind, n, place),
        1 => may_end && at_start(time, place),
        _ => false,
    }
}
