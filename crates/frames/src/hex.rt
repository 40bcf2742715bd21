// Numbers of lower-case hexadecimal digits, taken from the front of what is left of a line.
ghost use Rattle.std.specs.Prelude.{◌≡◌, ◌≤◌};
ghost use Rattle.frames.specs.Line.{fields};
ghost use Rattle.frames.specs.Parts.{Nibble, Number, FieldAt, AnswerAt, Skips, Ends};

// The bytes of a line that were not taken yet.
#[derive(Drop)]
pub struct Rest<'a> {
    pub bytes: &'a [u8],
}

// The number of a digit.
fn nibble(b: u8) -> Option<u64>
    ensures { Nibble b result }
{
    match b {
        b'0'..=b'9' => Some(u64::from(b - b'0')),
        b'a'..=b'f' => Some(u64::from(b - b'a') + 10),
        _ => None,
    }
}

impl<'a> Rest<'a> {
    // Takes a number of so many digits.
    pub fn number(&mut self, width: usize) -> Option<u64>
        requires { width ≤ 16 }
        ensures { Number self.old.bytes.now width result self.new.bytes.now }
    {
        let (digits, rest) = self.bytes.split_at_checked(width)?;
        let mut value = 0;
        for digit in digits {
            value = value * 16 + nibble(*digit)?;
        }
        self.bytes = rest;
        Some(value)
    }

    // Takes a space and a number of so many digits.
    pub fn field(&mut self, width: usize) -> Option<u64>
        requires { width ≤ 16 }
        ensures { FieldAt self.old.bytes.now width result self.new.bytes.now }
    {
        let (first, rest) = self.bytes.split_first()?;
        if *first != b' ' {
            return None;
        }
        self.bytes = rest;
        self.number(width)
    }

    // Takes an answer: its status and its leftover's pattern.
    pub fn answer(&mut self) -> Option<(u8, u64)>
        ensures { AnswerAt self.old.bytes.now result self.new.bytes.now }
    {
        let status = self.field(2)? as u8;
        let leftover = self.field(16)?;
        Some((status, leftover))
    }

    // Passes over count answers.
    pub fn skip(&mut self, count: usize) -> Option<()>
        ensures { Skips self.old.bytes.now count result self.new.bytes.now }
    {
        for _ in 0..count {
            self.answer()?;
        }
        Some(())
    }

    // Asks that LF is left and nothing more.
    pub fn end(&self) -> Option<()>
        ensures { Ends self.now.bytes.now result }
    {
        if self.bytes == [b'\n'].as_slice() {
            Some(())
        } else {
            None
        }
    }
}
