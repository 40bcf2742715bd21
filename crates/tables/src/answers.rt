// The check of the lent answers.
ghost use Rattle.std.specs.Prelude.{◌≡◌};
ghost use Rattle.rules.specs.Call.{answer_allowed};
ghost use Rattle.tables.specs.Checks.{first_bad};

use crate::number::is_number;
use lent::Answers;
use rules::Status;

fn allowed(status: u8, leftover: f64) -> bool
    ensures { result ≡ answer_allowed status leftover }
{
    Status::try_from(status).is_ok() && is_number(leftover)
}

// The first answer that is refused: a status other than 1 to 3, or a leftover that is no number.
pub fn bad_answer(answers: &Answers) -> Option<usize>
    ensures { result ≡ first_bad answers.now.statuses.now answers.now.leftovers.now }
{
    let mut answers = answers.statuses.iter().zip(answers.leftovers);
    answers.position(|(status, leftover)| !allowed(*status, *leftover))
}
