// What a call tells of a walk, and the record behind it.
#![tactic(auto)]

ghost use Rattle.std.specs.Prelude.{◌≡◌};
ghost use Rattle.rules.specs.Call.{ended, counted};
ghost use Rattle.told.specs.Told.{status_in, told_stopped, told_done};

use rules::{Answer, Record, Status};
use work::{ASKED, FUEL, Seen, USED, Visit};

// Only of a walk to its end is this told, so it is no conversion of either type.
fn status_of(seen: Seen) -> Status
    ensures { result ≡ status_in seen }
{
    match seen {
        Seen::Stopped | Seen::Running => Status::Running,
        Seen::Success => Status::Success,
        Seen::Failure => Status::Failure,
    }
}

// A walk that has stopped: an action asks, or the fuel is used up.
pub fn told_stopped(work: &[u32; 260], ns: &[u16], visit: Visit) -> Answer
    ensures { result ≡ told_stopped work.now ns.now visit }
{
    // One past the place, and 0 for none: one list of numbers, of which the theorems of `refine` are said.
    let asked = work[ASKED];
    if asked == 0 {
        return Answer::OutOfFuel;
    }
    let node = (asked - 1) as usize;
    Answer::Asked {
        action: ns.get(node).copied().unwrap_or(0),
        dt: visit.left,
    }
}

// A walk to its end.
pub fn told_done(work: &[u32; 260], visit: Visit, fuel: u32, lent: usize) -> Answer
    ensures { result ≡ told_done work.now visit fuel lent }
{
    Answer::Ticked {
        status: status_of(visit.seen),
        leftover: visit.left,
        visits: fuel.saturating_sub(work[FUEL]),
        used: (work[USED] as usize).min(lent),
    }
}

// A status other than Running is an end.
fn ends(seen: Seen) -> bool
    ensures { result ≡ ended (status_in seen) }
{
    matches!(seen, Seen::Success | Seen::Failure)
}

// One more tick; the count goes from its largest number to 0.
#[tactic(auto, unfolding(rules::specs::Call::counted))]
pub fn counted(record: Record, visit: Visit) -> Record
    ensures { result ≡ counted (status_in visit.seen) «record» }
{
    Record {
        finished: ends(visit.seen),
        ticks: record.ticks.wrapping_add(1),
    }
}
