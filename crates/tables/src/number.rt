// Numbers that a host gives, and times in its cells. A comparison does not tell -0.0 from 0.0: in a
// cell the bits do, of which the sign is the top one.
ghost use Rattle.std.specs.Prelude.{◌≡◌};
ghost use Rattle.rules.specs.Table.{cleaned, number, zero_bits};
ghost use Rattle.rules.specs.Cells.{elapsed};
ghost use Rattle.tables.specs.Checks.{number_of};

use rules::cleaned;

// The sign bit alone, and the bits of +infinity.
pub const SIGN: u64 = 0x8000000000000000;

const INFINITY: u64 = 0x7ff0000000000000;

// The number to use: finite with the sign bit clear, once minus zero is taken as plus zero. The bits tell
// it in one comparison, where two of floats are compiled to twenty instructions more.
pub fn number_of(x: f64) -> Option<f64>
    ensures { result ≡ number_of x }
{
    let number = cleaned(x);
    if number.is_nan() {
        return None;
    }
    (f64::to_bits(number) < INFINITY).then_some(number)
}

// Whether there is a number to use. From zero, whatever its sign, up to any that is finite: a NaN is in no order.
pub fn is_number(x: f64) -> bool
    ensures { result ≡ number (cleaned x) }
{
    0.0 <= x && x < f64::INFINITY
}

// All bits are 0.
pub fn zero_bits(x: f64) -> bool
    ensures { result ≡ zero_bits x }
{
    !x.is_nan() && f64::to_bits(x) == 0
}

// No NaN, sign bit clear, +infinity allowed.
pub fn elapsed(x: f64) -> bool
    ensures { result ≡ elapsed x }
{
    !x.is_nan() && f64::to_bits(x) < SIGN
}
