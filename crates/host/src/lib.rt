// Answers, events and kinds as the numbers that a host sees.
#![tactic(auto)]

ghost use Rattle.std.specs.Prelude.{◌≡◌};
ghost use Rattle.rules.specs.Outcome.{event_of};
ghost use Rattle.rules.specs.Call.{said_of};
ghost use Rattle.host.specs.Host.{bound_of, memory_of};

use rules::{BoundAnswer, Called, Event, Kind, Record, Said};

// What a call said, and the record that stands after it.
#[derive(Clone, Copy)]
pub struct Told {
    pub said: Said,
    pub record: Record,
}

impl From<Called> for Told {
    ghost from_gives = { λ called told. (told.said ≡ said_of called.answer) × (told.«record» ≡ called.«record») };

    fn from(called: Called) -> Told {
        Told {
            said: Said::from(called.answer),
            record: called.record,
        }
    }
}

// The finish bound in the C interface's numbers: kind 0 a number of ticks, 1 none, 2 above the largest that is told.
#[repr(C)]
#[derive(Clone, Copy, Default)]
pub struct Bound {
    pub no: u8,
    pub kind: u8,
    pub place: usize,
    pub ticks: u64,
}

// The bound's answer; a field that it does not name is 0.
impl From<BoundAnswer> for Bound {
    ghost from_gives = { λ a b. b ≡ bound_of a };

    fn from(answer: BoundAnswer) -> Bound {
        let bare = Bound::default();
        match answer {
            BoundAnswer::Within(ticks) => Bound { ticks, ..bare },
            BoundAnswer::Never => Bound { kind: 1, ..bare },
            BoundAnswer::Above => Bound { kind: 2, ..bare },
            BoundAnswer::BadTable(place) => Bound {
                no: 3,
                place,
                ..bare
            },
            BoundAnswer::NoBound => Bound { no: 8, ..bare },
        }
    }
}

// An update carries its dt; the C interface has a flag and a time.
pub fn event_of(update: bool, dt: f64) -> Event
    ensures { result ≡ event_of update dt }
{
    if update {
        Event::Update(dt)
    } else {
        Event::Other
    }
}

// The number of a kind, which the C interface has, with its memory on or off; a number that is no kind stays.
pub fn memory_of(number: u8, on: bool) -> u8
    ensures { result ≡ memory_of number on }
{
    match Kind::try_from(number) {
        Ok(kind) => u8::from(kind.memory(on)),
        Err(_) => number,
    }
}
