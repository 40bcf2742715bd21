// The evaluator's answers as frames.
ghost use Rattle.std.specs.Prelude.{◌≡◌, ◌%◌};
ghost use Rattle.bench_line.specs.Said.{said_of};

use frames::{Call, Frame};
use rules::Answer;

// A count, a place or an index in its four digits: what is left of it there, so no conversion.
fn four(x: usize) -> u16
    ensures { result ≡ x % 65536 }
{
    (x % 65536) as u16
}

// What a call answered: of a tick an 82 frame, of a restart an 83 frame.
pub fn said(call: Call, answer: Answer) -> Frame
    ensures { result ≡ said_of call answer }
{
    let told = rules::Said::from(answer);
    Frame::Said {
        call,
        no: told.no,
        status: told.status,
        time: frames::bits(told.time),
        visits: told.visits,
        used: four(told.used),
        extra: four(told.extra),
    }
}
