// What a visit gives: a status together with its leftover time.
ghost use Rattle.std.specs.Prelude.{◌≡◌};
ghost use Rattle.rules.specs.Tree.{zero_time};
ghost use Rattle.rules.specs.Outcome.{smaller, status_of};
ghost use Rattle.work.specs.Flat.{seen_as, seen_no, turned, succeeded, result_of};

// The status of a visit; or the walk has stopped, to ask or for want of fuel. Four cases of one type: every driver has an arm
// for each, and `Some(Status::Running)` would be no plainer than `Seen::Running`.
#[derive(Clone, Copy, PartialEq, Eq)]
pub enum Seen {
    Stopped,
    Running,
    Success,
    Failure,
}

#[derive(Clone, Copy)]
pub struct Visit {
    pub seen: Seen,
    pub left: f64,
}

impl Seen {
    // The status of an answer's number, which is 1 to 3 in every answer that is not refused.
    pub fn of(number: u8) -> Seen
        ensures { result ≡ seen_as (status_of number) }
    {
        match number {
            1 => Seen::Running,
            2 => Seen::Success,
            _ => Seen::Failure,
        }
    }

    // Success and Failure exchanged, or not.
    pub fn turned(self, exchange: bool) -> Seen
        ensures { result ≡ turned exchange self }
    {
        if !exchange {
            return self;
        }
        match self {
            Seen::Success => Seen::Failure,
            Seen::Failure => Seen::Success,
            _ => self,
        }
    }

    // Failure becomes Success.
    pub fn succeeded(self) -> Seen
        ensures { result ≡ succeeded self }
    {
        match self {
            Seen::Failure => Seen::Success,
            _ => self,
        }
    }
}

// The board's number of a status.
impl From<Seen> for u32 {
    ghost from_gives = { λ seen number. number ≡ seen_no seen };

    fn from(seen: Seen) -> u32 {
        match seen {
            Seen::Stopped => 0,
            Seen::Running => 1,
            Seen::Success => 2,
            Seen::Failure => 3,
        }
    }
}

// "Running" means (Running, 0).
pub fn waiting() -> Visit
    ensures { result ≡ result_of Seen.Running zero_time }
{
    Visit {
        seen: Seen::Running,
        left: 0.0,
    }
}

pub fn stopped() -> Visit
    ensures { result ≡ result_of Seen.Stopped zero_time }
{
    Visit {
        seen: Seen::Stopped,
        left: 0.0,
    }
}

// Not `f64::min`, which passes over a NaN and leaves open which of two zeros it gives: the rules say both.
pub fn smaller(x: f64, y: f64) -> f64
    ensures { result ≡ smaller x y }
{
    if y < x { y } else { x }
}
