// Whole times, and the ticks that a limit takes by itself.
ghost use Rattle.std.specs.Prelude.{◌≡◌, ◌^◌, ◌≤◌, true};
ghost use Rattle.std.specs.Float.{binary64};
ghost use Rattle.rules.specs.Table.{cleaned};
ghost use Rattle.rules.specs.Bound.{whole_time, within, own_ticks};
ghost use Rattle.limits.specs.Ticks.{clipped};
ghost use Rattle.limits.specs.Whole.{whole_of};

use crate::ticks::{Ticks, ticks_of};
use rules::cleaned;

// Whole times go up to 2^40.
pub const MOST_WHOLE: u64 = 1099511627776;

// A whole time as a number.
pub fn whole(x: f64) -> Option<u64>
    ensures { result ≡ whole_of binary64 x }
{
    if -1.0 < x && x < 18446744073709551616.0 {
        let n = std::num::truncating_f64_to_u64(x);
        // The bits, and not ==, to which a minus zero is a zero.
        if n <= MOST_WHOLE && f64::to_bits(n as f64) == f64::to_bits(x) {
            return Some(n);
        }
    }
    None
}

// A limit as it is lent: minus zero is taken as plus zero.
pub fn whole_limit(limit: f64) -> Option<u64>
    ensures { result ≡ whole_of binary64 (cleaned limit) }
{
    whole(cleaned(limit))
}

// "Wait and Timeout's own limit L: the larger of 1 and L/d rounded up".
pub fn own_ticks(limit: f64, step: u64) -> Ticks
    requires { (1 ≤ step) × (step ≤ 2 ^ 40) }
    ensures { whole_time binary64 (cleaned limit) ≡ true → result ≡ clipped (within (own_ticks step (cleaned limit))) }
{
    ticks_of(whole_limit(limit)?.div_ceil(step).max(1))
}
