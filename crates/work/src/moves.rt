// How a driver moves from one child to the next, and what it then makes fresh.
ghost use Rattle.std.specs.Prelude.{◌≡◌, ◌&&◌, ◌+◌, ◌-◌, ◌<◌, ◌≤◌};
ghost use Rattle.std.specs.Float.Ieee.{lt};
ghost use Rattle.work.specs.Array.{index_after, child_after, up_on, end_of, set_place, fresh_words, fresh_times, moved_words, moved_times, child_from, chosen_words, chosen_times};
ghost use Rattle.work.specs.Flat.{is_leaf, is_decorator, exchanges_of, choice_of};

use crate::array::{child, end_of, fresh, put_place};
use crate::result::Seen;
use rules::Kind;

// Wait, WaitForever and Action: the kinds that allow no children.
pub fn is_leaf(kind: Kind) -> bool
    ensures { result ≡ is_leaf kind }
{
    kind.most() == 0
}

// Invert, AlwaysSucceed and Timeout.
pub fn decorates(kind: Kind) -> bool
    ensures { result ≡ is_decorator kind }
{
    kind.most() == 1
}

// The kinds that are another with Success and Failure exchanged.
pub fn exchanges(kind: Kind) -> bool
    ensures { result ≡ exchanges_of kind }
{
    matches!(
        kind,
        Kind::Select | Kind::MemorylessSelector | Kind::WhenAny
    )
}

// The place goes up on an update.
pub fn up_on(update: bool, i: u32) -> u32
    requires { i < 4294967295 }
    ensures { result ≡ up_on update i }
{
    if update { i + 1 } else { i }
}

// Whether After goes on: a success in its turn, with less left than those before it.
pub fn sooner(in_turn: bool, left: f64, least: f64) -> bool
    ensures { result ≡ in_turn && lt left least }
{
    in_turn && left < least
}

// The index behind i, after the last child 0.
pub fn index_after(i: u32, next: usize, stop: usize) -> u32
    requires { i < 4294967295 }
    ensures { result ≡ index_after i next stop }
{
    if next < stop { i + 1 } else { 0 }
}

fn child_after(next: usize, stop: usize, body: usize) -> usize
    ensures { result ≡ child_after next stop body }
{
    if next < stop { next } else { body }
}

// A loop's body goes on behind the child from q to next, after the last child from the first: the old
// and the new child are made fresh. Where the new one stands.
#[tactic(auto, unfolding(crate::specs::Array::moved_words, crate::specs::Array::moved_times))]
pub fn move_on(
    work: &mut [u32; 260],
    times: &mut [f64],
    q: usize,
    next: usize,
    stop: usize,
    body: usize,
) -> usize
    requires { (next ≤ 256) × (body ≤ 256) }
    ensures value { result ≡ child_after next stop body }
    ensures work_after { work.new ≡ moved_words q next stop body work.old }
    ensures times_after { times.new ≡ moved_times q next stop body work.old times.old }
{
    fresh(work, times, q, next);
    let due = child_after(next, stop, body);
    let behind = end_of(work, due);
    fresh(work, times, due, behind);
    due
}

// The branch that If chooses by its condition, if it has ended.
pub fn choice(condition: Seen) -> Option<u32>
    ensures { result ≡ choice_of condition }
{
    match condition {
        Seen::Stopped | Seen::Running => None,
        Seen::Success => Some(1),
        Seen::Failure => Some(2),
    }
}

// The condition of the If at p and branch i are made fresh, and the choice is kept.
#[tactic(auto, unfolding(crate::specs::Array::decided_words, crate::specs::Array::chosen_words, crate::specs::Array::chosen_times))]
pub fn choose(work: &mut [u32; 260], times: &mut [f64], p: usize, stop: usize, i: u32)
    requires { (p < 255) × (stop ≤ 256) }
    ensures work_after { work.new ≡ chosen_words p stop i work.old }
    ensures times_after { times.new ≡ chosen_times p stop i work.old times.old }
{
    let behind = end_of(work, p + 1);
    fresh(work, times, p + 1, behind);
    put_place(work, p, i);
    let branch = child(work, stop, i, p + 1);
    let end = end_of(work, branch);
    fresh(work, times, branch, end);
}
