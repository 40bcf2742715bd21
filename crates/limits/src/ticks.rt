// A number of ticks, or none. Numbers above 2^53 are all one, the first of them, so that no sum or
// product wraps and each is still larger than every number that is told.
ghost use Rattle.std.specs.Prelude.{◌≡◌};
ghost use Rattle.rules.specs.Bound.{within, sum_l, max_l, min_l, times_l, told};
ghost use Rattle.limits.specs.Ticks.{lim, clipped};

use rules::BoundAnswer;

// None: it never ends.
pub type Ticks = Option<u64>;

// The first number that is not told.
pub const ABOVE: u64 = 9007199254740993;

pub fn ticks_of(n: u64) -> Ticks
    ensures { result ≡ clipped (within n) }
{
    Some(n.min(ABOVE))
}

// "A sum, product or largest with none in it is none".
pub fn sum(a: Ticks, b: Ticks) -> Ticks
    ensures { result ≡ clipped (sum_l (lim a) (lim b)) }
{
    ticks_of(a?.saturating_add(b?))
}

pub fn larger(a: Ticks, b: Ticks) -> Ticks
    ensures { result ≡ clipped (max_l (lim a) (lim b)) }
{
    ticks_of(a?.max(b?))
}

pub fn product(a: Ticks, b: Ticks) -> Ticks
    ensures { result ≡ clipped (times_l (lim a) (lim b)) }
{
    ticks_of(a?.saturating_mul(b?))
}

// The smallest that one has.
pub fn smaller(a: Ticks, b: Ticks) -> Ticks
    ensures { result ≡ clipped (min_l (lim a) (lim b)) }
{
    ticks_of(a.or(b)?.min(b.or(a)?))
}

pub fn told(ticks: Ticks) -> BoundAnswer
    ensures { result ≡ told (lim ticks) }
{
    match ticks {
        None => BoundAnswer::Never,
        Some(n) if n < ABOVE => BoundAnswer::Within(n),
        Some(_) => BoundAnswer::Above,
    }
}
