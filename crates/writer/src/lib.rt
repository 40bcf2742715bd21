// Writing a frame: the two digits of its kind, its fields, each after a space, then LF.
#![tactic(auto)]

ghost use Rattle.std.specs.Prelude.{◌≡◌, ℕ, Ok, [], ◌∷◌, ◌+◌, ◌*◌, ◌≤◌, ◌<◌, length};
ghost use Rattle.frames.specs.Hex.{digit, digits};
ghost use Rattle.frames.specs.Line.{Fit, Good, body, kind_of, line, answers_of, asked_no, said_no, event_no, event_time, laid, wrote};
ghost use Rattle.frames.specs.Line.{answers as Line·answers};
ghost use Rattle.frames.specs.Line.{front as Line·front};
ghost use Rattle.frames.specs.Parts.{over, size_of, span, Puts};

use frames::{ANSWERS, Call, Event, Frame, MINUS_ZERO, Unwritten, count};

// The byte of a digit.
fn glyph(d: u64) -> u8
    requires { d < 16 }
    ensures { result ≡ digit d }
{
    if d < 10 {
        b'0' + d as u8
    } else {
        b'a' + (d - 10) as u8
    }
}

// Puts a number's last width digits at a place.
fn put_number(room: &mut [u8], at: usize, width: usize, value: u64)
    requires { at + width ≤ length room.old }
    ensures { room.new ≡ over room.old at (digits width value) }
{
    let mut rest = value;
    for i in (0..width).rev() {
        room[at + i] = glyph(rest % 16);
        rest /= 16;
    }
}

// Puts a space at a place and a number's last width digits after it, and answers the next place.
fn put(room: &mut [u8], at: usize, width: usize, value: u64) -> usize
    requires { at + width < length room.old }
    ensures { Puts room.old at ((width, value) ∷ []) room.new result }
{
    room[at] = b' ';
    put_number(room, at + 1, width, value);
    at + 1 + width
}

// How many bytes a frame's line has.
fn size(frame: Frame) -> usize
    ensures { result ≡ size_of frame }
{
    match frame {
        Frame::Node { .. } => 28,
        Frame::Asked { count, .. } => 37 + 20 * usize::from(count),
        Frame::Said { .. } => 45,
        Frame::Malformed { .. } => 8,
    }
}

// Two numbers for a call, one asked and one told: so neither is the conversion of a call.
fn asked_no(call: Call) -> u64
    ensures { result ≡ asked_no call }
{
    match call {
        Call::Tick => 0x02,
        Call::Restart => 0x03,
    }
}

fn said_no(call: Call) -> u64
    ensures { result ≡ said_no call }
{
    match call {
        Call::Tick => 0x82,
        Call::Restart => 0x83,
    }
}

fn event_no(event: Event) -> u64
    ensures { result ≡ event_no event }
{
    match event {
        Event::Other(_) => 0,
        Event::Update(_) => 1,
    }
}

fn event_time(event: Event) -> u64
    ensures { result ≡ event_time event }
{
    match event {
        Event::Other(false) => 0,
        Event::Other(true) => MINUS_ZERO,
        Event::Update(dt) => dt,
    }
}

// Puts a kind's digits and fields, each a width and a number, at the start of a room, and answers the next place.
fn begin(room: &mut [u8], kind: u64, fields: &[(usize, u64)]) -> usize
    requires { 2 + span fields.now ≤ length room.old }
    ensures { Puts (over room.old 0 (digits 2 kind)) 2 fields.now room.new result }
{
    put_number(room, 0, 2, kind);
    let mut at = 2;
    for (width, value) in fields {
        at = put(room, at, *width, *value);
    }
    at
}

// Puts what stands in front of a frame's answers at the start of a room, and answers the next place.
fn front(room: &mut [u8], frame: Frame) -> usize
    requires { size_of frame ≤ length room.old }
    ensures put { Puts (over room.old 0 (digits 2 (kind_of frame))) 2 (Line·front frame) room.new result }
    ensures fit { Fit (Line·front frame) }
{
    match frame {
        Frame::Node { kind, n, limit } => begin(
            room,
            0x01,
            &[(2, u64::from(kind)), (4, u64::from(n)), (16, limit)],
        ),
        Frame::Asked {
            call,
            event,
            fuel,
            count,
        } => {
            let fields = [
                (2, event_no(event)),
                (16, event_time(event)),
                (8, u64::from(fuel)),
                (4, u64::from(count)),
            ];
            begin(room, asked_no(call), &fields)
        }
        Frame::Said {
            call,
            no,
            status,
            time,
            visits,
            used,
            extra,
        } => {
            let fields = [
                (2, u64::from(no)),
                (2, u64::from(status)),
                (16, time),
                (8, u64::from(visits)),
                (4, u64::from(used)),
                (4, u64::from(extra)),
            ];
            begin(room, said_no(call), &fields)
        }
        Frame::Malformed { line } => begin(room, 0x8f, &[(4, u64::from(line))]),
    }
}

// Puts count answers at a place, and answers the next place.
fn answers(room: &mut [u8], from: usize, count: usize, statuses: &[u8], leftovers: &[u64]) -> usize
    requires room_long { from + 20 * count ≤ length room.old }
    requires statuses_long { count ≤ length statuses.now }
    requires leftovers_long { count ≤ length leftovers.now }
    ensures { Puts room.old from (Line·answers count 0 statuses.now leftovers.now) room.new result }
{
    let mut at = from;
    for i in 0..count {
        at = put(room, at, 2, u64::from(statuses[i]));
        at = put(room, at, 16, leftovers[i]);
    }
    at
}

// A frame's line, at the start of a room that has place for it.
fn lay(frame: Frame, statuses: &[u8], leftovers: &[u64], room: &mut [u8])
    requires frame_in_bounds { size_of frame ≤ length room.old }
    requires statuses_long { answers_of frame ≤ length statuses.now }
    requires leftovers_long { answers_of frame ≤ length leftovers.now }
    ensures room_after { room.new ≡ laid (line frame statuses.now leftovers.now) room.old }
    ensures fit { Fit (body frame statuses.now leftovers.now) }
{
    let from = front(room, frame);
    let end = answers(room, from, count(frame), statuses, leftovers);
    room[end] = b'\n';
}

// Writes a frame, with the answers in the two slices, at the start of a room. What is written is a frame's line.
pub fn write(
    frame: Frame,
    statuses: &[u8],
    leftovers: &[u64],
    room: &mut [u8],
) -> Result<usize, Unwritten>
    ensures room_after { (result, room.new) ≡ wrote frame statuses.now leftovers.now room.old }
    ensures by_index { (n : ℕ) → result ≡ Ok n → Good frame statuses.now leftovers.now }
{
    let n = count(frame);
    if statuses.len().min(leftovers.len()).min(ANSWERS) < n {
        return Err(Unwritten::NoFrame);
    }
    let bytes = size(frame);
    if room.len() < bytes {
        return Err(Unwritten::TooShort);
    }
    lay(frame, statuses, leftovers, room);
    Ok(bytes)
}
