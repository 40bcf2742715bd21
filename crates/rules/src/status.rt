// What a visit to a node answers.
ghost use Rattle.std.specs.Prelude.{◌≡◌, ◌≤◌, ◌<◌, MatchResult};
ghost use Rattle.rules.specs.Outcome.{byte, status_of};

#[derive(Clone, Copy, PartialEq, Eq)]
pub enum Status {
    Running,
    Success,
    Failure,
}

// A number that is no status's.
#[derive(Clone, Copy, PartialEq, Eq)]
pub struct NoStatus(pub u8);

impl TryFrom<u8> for Status {
    type Error = NoStatus;

    ghost try_from_gives = { λ n r. MatchResult r (λ s. ((1 ≤ n) × (n ≤ 3)) × (s ≡ status_of n)) (λ e. ((1 ≤ n) → 3 < n) × (e.0 ≡ n)) };

    fn try_from(number: u8) -> Result<Status, NoStatus> {
        match number {
            1 => Ok(Status::Running),
            2 => Ok(Status::Success),
            3 => Ok(Status::Failure),
            _ => Err(NoStatus(number)),
        }
    }
}

// The board's byte of a status, which is also its number in frames and answers. The numbers are written out, and
// no cast gives them: 0 is kept for a node that was not visited.
impl From<Status> for u8 {
    ghost from_gives = { λ s n. n ≡ byte s };

    fn from(status: Status) -> u8 {
        match status {
            Status::Running => 1,
            Status::Success => 2,
            Status::Failure => 3,
        }
    }
}
