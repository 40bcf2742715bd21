// Times and their bit patterns. Every pattern of a NaN is the one NaN, since no other can be made from its bits.
ghost use Rattle.std.specs.Prelude.{◌≡◌};
ghost use Rattle.std.specs.Float.{binary64};
ghost use Rattle.std.specs.Float.Ieee.{of_bits, to_bits};
ghost use Rattle.frames.specs.Times.{timed};

use crate::MINUS_ZERO;

// The time that a pattern is.
pub fn time(bits: u64) -> f64
    ensures { result ≡ of_bits binary64 bits }
{
    let magnitude = bits % MINUS_ZERO;
    if magnitude > 0x7ff0_0000_0000_0000 {
        return f64::NAN;
    }
    f64::from_bits(bits)
}

// A time's pattern.
pub fn bits(time: f64) -> u64
    ensures { result ≡ to_bits binary64 time }
{
    if time.is_nan() {
        return 0x7ff8_0000_0000_0000;
    }
    time.to_bits()
}

// Turns patterns into times, as many as both slices hold and at most n.
pub fn times(n: usize, patterns: &[u64], out: &mut [f64])
    ensures { out.new ≡ timed n patterns.now out.old }
{
    // By index: what `iter_mut` under `zip` and `take` leaves in the slice is not said in a form that closes.
    for i in 0..n.min(patterns.len()).min(out.len()) {
        out[i] = time(patterns[i]);
    }
}
