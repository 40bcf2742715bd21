// The order of input lines: nodes come first, at most 257 of them.
ghost use Rattle.std.specs.Prelude.{◌≡◌};
ghost use Rattle.frames.specs.Order.{admitted};

use crate::{Call, Event, Frame, NODES, Unread};

// What an input line asks for. A malformed one is served like the others, by a frame of its own, so it is a case and no `None`.
#[derive(Clone, Copy)]
pub enum Input {
    Node {
        kind: u8,
        n: u16,
        limit: u64,
    },
    Asked {
        call: Call,
        event: Event,
        fuel: u32,
        count: u16,
    },
    Malformed,
}

// What a line that was read asks for, after so many nodes, and where begun says whether a tick or a restart came before.
pub fn admit(nodes: usize, begun: bool, reading: Result<Frame, Unread>) -> Input
    ensures { result ≡ admitted nodes begun reading }
{
    match reading {
        Ok(Frame::Node { kind, n, limit }) if !begun && nodes < NODES => Input::Node {
            kind,
            n,
            limit,
        },
        Ok(
            Frame::Asked {
                call,
                event,
                fuel,
                count,
            },
        ) => Input::Asked {
            call,
            event,
            fuel,
            count,
        },
        _ => Input::Malformed,
    }
}
