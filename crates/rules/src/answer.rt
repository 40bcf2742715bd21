// What a call answers, and the record that stands between calls.
ghost use Rattle.std.specs.Prelude.{◌≡◌};
ghost use Rattle.rules.specs.Call.{age, said_of};

use crate::status::Status;

// Finished, and how many ticks were carried out.
#[repr(C)]
#[derive(Clone, Copy)]
pub struct Record {
    pub finished: bool,
    pub ticks: u64,
}

// An answer, and the record behind it.
#[derive(Clone, Copy)]
pub struct Called {
    pub answer: Answer,
    pub record: Record,
}

// How many ticks ago a cell was made fresh: the tick count less its number, with wrap.
pub fn age(ticks: u64, since: u64) -> u64
    ensures { result ≡ age ticks since }
{
    ticks.wrapping_sub(since)
}

// What a tick and a restart can say, as a case for each number of the C interface. No Result: a question and a
// walk that ran out of fuel are answers of a walk, as an end is, and no errors.
#[derive(Clone, Copy)]
pub enum Answer {
    Ticked {
        status: Status,
        leftover: f64,
        visits: u32,
        used: usize,
    },
    Asked {
        action: u16,
        dt: f64,
    },
    Finished,
    BadTable(usize),
    TooShort,
    BadTime,
    BadAnswer(usize),
    OutOfFuel,
    BadCell(usize),
    NoRoom,
}

// What the finish bound can say: a number of ticks, none, above 2^53; or 3 and 8. Five cases in one: as `finish`'s
// theorems (Answered) tell them apart.
#[derive(Clone, Copy, PartialEq, Eq)]
pub enum BoundAnswer {
    Within(u64),
    Never,
    Above,
    BadTable(usize),
    NoBound,
}

// An answer in document 01's numbers, which the C interface needs; a field that its line does not name is 0.
#[repr(C)]
#[derive(Clone, Copy, Default)]
pub struct Said {
    pub no: u8,
    pub status: u8,
    pub visits: u32,
    pub used: usize,
    pub extra: usize,
    pub time: f64,
}

// The answer in numbers.
impl From<Answer> for Said {
    ghost from_gives = { λ a s. s ≡ said_of a };

    fn from(answer: Answer) -> Said {
        let bare = Said::default();
        match answer {
            Answer::Ticked {
                status,
                leftover,
                visits,
                used,
            } => Said {
                status: u8::from(status),
                visits,
                used,
                time: leftover,
                ..bare
            },
            Answer::Asked { action, dt } => Said {
                no: 1,
                extra: usize::from(action),
                time: dt,
                ..bare
            },
            Answer::Finished => Said { no: 2, ..bare },
            Answer::BadTable(p) => Said {
                no: 3,
                extra: p,
                ..bare
            },
            Answer::TooShort => Said { no: 4, ..bare },
            Answer::BadTime => Said { no: 5, ..bare },
            Answer::BadAnswer(i) => Said {
                no: 6,
                extra: i,
                ..bare
            },
            Answer::OutOfFuel => Said { no: 7, ..bare },
            Answer::BadCell(p) => Said {
                no: 9,
                extra: p,
                ..bare
            },
            Answer::NoRoom => Said { no: 13, ..bare },
        }
    }
}
