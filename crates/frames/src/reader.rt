// Reading a line: the two digits of its kind, its fields, each after a space, then LF and nothing more.
ghost use Rattle.std.specs.Prelude.{◌≡◌, ◌≤◌, length};
ghost use Rattle.frames.specs.Line.{asked_no, said_no, answers_of, Reads};
ghost use Rattle.frames.specs.Parts.{EventIs, Body, Whole, Filled};

use crate::hex::Rest;
use crate::{Call, Event, Frame, MINUS_ZERO, Unread};

// How many bytes of a call's line stand in front of its answers.
const FRONT: usize = 36;

// An event from its two fields.
fn event(number: u64, dt: u64) -> Option<Event>
    ensures { EventIs number dt result }
{
    match (number, dt) {
        (0, 0) => Some(Event::Other(false)),
        (0, MINUS_ZERO) => Some(Event::Other(true)),
        (1, dt) => Some(Event::Update(dt)),
        _ => None,
    }
}

// What stands after the kind's digits, for each kind.
fn node(rest: &mut Rest) -> Option<Frame>
    ensures { Body 0x01 rest.old.bytes.now result }
{
    let kind = rest.field(2)? as u8;
    let n = rest.field(4)? as u16;
    let limit = rest.field(16)?;
    rest.end()?;
    Some(Frame::Node { kind, n, limit })
}

fn asked(rest: &mut Rest, call: Call) -> Option<Frame>
    ensures { Body (asked_no call) rest.old.bytes.now result }
{
    let number = rest.field(2)?;
    let dt = rest.field(16)?;
    let fuel = rest.field(8)? as u32;
    let count = rest.field(4)? as u16;
    if count > 1024 {
        return None;
    }
    rest.skip(usize::from(count))?;
    rest.end()?;
    let event = event(number, dt)?;
    Some(Frame::Asked {
        call,
        event,
        fuel,
        count,
    })
}

fn said(rest: &mut Rest, call: Call) -> Option<Frame>
    ensures { Body (said_no call) rest.old.bytes.now result }
{
    let no = rest.field(2)? as u8;
    let status = rest.field(2)? as u8;
    let time = rest.field(16)?;
    let visits = rest.field(8)? as u32;
    let used = rest.field(4)? as u16;
    let extra = rest.field(4)? as u16;
    rest.end()?;
    Some(Frame::Said {
        call,
        no,
        status,
        time,
        visits,
        used,
        extra,
    })
}

fn malformed(rest: &mut Rest) -> Option<Frame>
    ensures { Body 0x8f rest.old.bytes.now result }
{
    let line = rest.field(4)? as u16;
    rest.end()?;
    Some(Frame::Malformed { line })
}

// The frame whose line this is, without its answers.
fn head(line: &[u8]) -> Option<Frame>
    ensures { Whole line.now result }
{
    let mut rest = Rest { bytes: line };
    match rest.number(2)? {
        0x01 => node(&mut rest),
        0x02 => asked(&mut rest, Call::Tick),
        0x03 => asked(&mut rest, Call::Restart),
        0x82 => said(&mut rest, Call::Tick),
        0x83 => said(&mut rest, Call::Restart),
        0x8f => malformed(&mut rest),
        _ => None,
    }
}

// How many answers a frame has.
pub fn count(frame: Frame) -> usize
    ensures { result ≡ answers_of frame }
{
    match frame {
        Frame::Asked { count, .. } => usize::from(count),
        _ => 0,
    }
}

// The answers in a line; None where so many do not stand there.
fn fill(line: &[u8], count: usize, statuses: &mut [u8], leftovers: &mut [u64]) -> Option<()>
    requires statuses_long { count ≤ length statuses.old }
    requires leftovers_long { count ≤ length leftovers.old }
    ensures { Filled line.now count statuses.old leftovers.old result statuses.new leftovers.new }
{
    let (_, answers) = line.split_at(line.len().min(FRONT));
    let mut rest = Rest { bytes: answers };
    for i in 0..count {
        let (status, leftover) = rest.answer()?;
        statuses[i] = status;
        leftovers[i] = leftover;
    }
    Some(())
}

// Reads a line. Its answers are put into the two slices.
pub fn read(line: &[u8], statuses: &mut [u8], leftovers: &mut [u64]) -> Result<Frame, Unread>
    ensures { Reads line.now statuses.old leftovers.old result statuses.new leftovers.new }
{
    let frame = head(line).ok_or(Unread::NoFrame)?;
    let n = count(frame);
    if statuses.len().min(leftovers.len()) < n {
        return Err(Unread::TooShort);
    }
    fill(line, n, statuses, leftovers).ok_or(Unread::NoFrame)?;
    Ok(frame)
}
