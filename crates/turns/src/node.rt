// The driver of each kind.
ghost use Rattle.std.specs.Prelude.{◌≡◌, false, List, ℕ, ◌<◌, ◌≤◌, Float};
ghost use Rattle.std.specs.Float.{binary64};
ghost use Rattle.work.specs.Array.{fuel_of};
ghost use Rattle.work.specs.Flat.{out, Lent, lent, Visitor, is_leaf, is_decorator, by_kind, visit};
ghost use Rattle.turns.specs.Levels.{Sound, KeepsSound, goes, entered_level, resumed_by};

use crate::branches::{if_opened, if_resumed};
use crate::level::{Level, Turn, entered};
use crate::loops::{while_all_opened, while_all_resumed, while_opened, while_resumed};
use crate::sequence::{memoryless_opened, memoryless_resumed, sequence_opened, sequence_resumed};
use crate::when_all::{
    after_opened, after_resumed, race_opened, race_resumed, when_all_opened, when_all_resumed,
};
use leaves::decorated;
use rules::Kind;
use work::{Reads, Visit, exchanges, stopped};

// A node with children that is no decorator is entered.
pub fn opened(work: &mut [u32; 260], times: &mut [f64], kind: Kind, p: usize, dt: f64) -> Turn
    requires { (p < 256) × (is_leaf kind ≡ false) × (is_decorator kind ≡ false) }
    ensures times_value { (T : Lent) (v : Visitor) → by_kind binary64 T v kind p dt work.old times.old
        ≡ goes (resumed_by binary64 T) v result work.new times.new }
    ensures keeps_sound { KeepsSound (entered_level kind p dt) result }
    ensures work_unchanged { fuel_of work.new ≡ fuel_of work.old }
{
    let level = entered(kind, p, dt);
    match kind {
        Kind::Wait
        | Kind::WaitForever
        | Kind::Action
        | Kind::Invert
        | Kind::AlwaysSucceed
        | Kind::Timeout => Turn::Done(stopped()),
        Kind::If => if_opened(work, level),
        Kind::Select | Kind::Sequence => sequence_opened(work, level),
        Kind::MemorylessSequence | Kind::MemorylessSelector => {
            memoryless_opened(work, times, exchanges(kind), level)
        }
        Kind::While => while_opened(level),
        Kind::WhileAll => while_all_opened(work, level),
        Kind::WhenAll | Kind::WhenAny => when_all_opened(work, exchanges(kind), level),
        Kind::After => after_opened(work, level),
        Kind::Race => race_opened(work, level),
    }
}

// The child that an open node waits for has given a result.
pub fn resumed(
    work: &mut [u32; 260],
    reads: &Reads,
    times: &mut [f64],
    level: Level,
    res: Visit,
) -> Turn
    requires { Sound level }
    ensures by_index { (a : List ℕ) (b : List Float) (tk : Visitor) → let T = lent reads.now.limits.now a b in let v = visit binary64 T tk in
        resumed_by binary64 T v level (out res.seen res.left work.old times.old)
        ≡ goes (resumed_by binary64 T) v result work.new times.new }
    ensures keeps_sound { KeepsSound level result }
    ensures work_bound { fuel_of work.new ≤ fuel_of work.old }
{
    let kind = level.kind;
    match kind {
        Kind::Wait | Kind::WaitForever | Kind::Action => Turn::Done(res),
        Kind::Invert | Kind::AlwaysSucceed | Kind::Timeout => Turn::Done(decorated(
            work,
            reads,
            times,
            level.node,
            res,
            level.whole,
        )),
        Kind::If => if_resumed(work, times, level, res),
        Kind::Select | Kind::Sequence => {
            sequence_resumed(work, times, exchanges(kind), level, res)
        }
        Kind::MemorylessSequence | Kind::MemorylessSelector => {
            memoryless_resumed(work, times, exchanges(kind), level, res)
        }
        Kind::While => while_resumed(work, times, level, res),
        Kind::WhileAll => while_all_resumed(work, times, level, res),
        Kind::WhenAll | Kind::WhenAny => {
            when_all_resumed(work, reads, times, exchanges(kind), level, res)
        }
        Kind::After => after_resumed(work, level, res),
        Kind::Race => race_resumed(work, reads, times, level, res),
    }
}
