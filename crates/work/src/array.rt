// The working array: a word for each of 256 nodes, and behind them what the walk counts. Times stand
// beside it, in the host's own slice; a read past their end gives zero, and a store there does nothing.
// One array of numbers, which each visit hands on in one register; the theorems of `refine` (Whole.whole) are said of one list.
ghost use Rattle.std.specs.Prelude.{◌≡◌, ℕ, ◌+◌, ◌-◌, ◌<◌, ◌≤◌, set};
ghost use Rattle.work.specs.Array.{word_at, Covered, time_at, number_at, updates, passed, end_of, set_place, set_mark, set_seen, fresh_words, fresh_times, child_from};
ghost use Rattle.work.specs.Flat.{seen_no};

use crate::result::Seen;
use crate::word::{below_of, fresh_word, with_mark, with_place, with_seen};
use rules::cleaned;

// The fuel that is left, the answers that are used, the place of the action that asks and 1, and 1 for
// an update.
pub const FUEL: usize = 256;

pub const USED: usize = 257;

pub const ASKED: usize = 258;

pub const UPDATE: usize = 259;

pub fn updates(work: &[u32; 260]) -> bool
    ensures { result ≡ updates work.now }
{
    work[UPDATE] != 0
}

// The dt that is seen: 0 for an other event.
#[tactic(auto, unfolding(crate::specs::Array::passed))]
pub fn passed(work: &[u32; 260], dt: f64) -> f64
    ensures { result ≡ passed work.now dt }
{
    if updates(work) { dt } else { 0.0 }
}

// Where the subtree at p ends, at most 256.
#[tactic(auto, unfolding(crate::specs::Array::end_of))]
pub fn end_of(work: &[u32; 260], p: usize) -> usize
    requires { p ≤ 256 }
    ensures { (result ≡ end_of work.now p) × (result ≤ 256) × (p < 256 → p < result) }
{
    let end = p + 1 + below_of(work[p]);
    end.min(256)
}

// All bits that one of the sixteen words from `at` on has.
pub fn words_of(work: &[u32; 260], at: usize) -> u32
    requires { at + 16 ≤ 256 }
    ensures { (i : ℕ) → i < 16 → Covered (word_at work.now (at + i)) result }
{
    work[at..at + 16].iter().fold(0, |all, word| all | *word)
}

// Child i of those that begin at q, or the first place from `stop` on.
pub fn child(work: &[u32; 260], stop: usize, i: u32, q: usize) -> usize
    requires { (q ≤ 256) × (stop ≤ 256) }
    ensures { (result ≡ child_from work.now stop i q) × (result ≤ 256) }
{
    let mut at = q;
    for _ in 0..i {
        if stop <= at {
            return at;
        }
        at = end_of(work, at);
    }
    at
}

pub fn put_place(work: &mut [u32; 260], p: usize, i: u32)
    requires { p < 256 }
    ensures { work.new ≡ set_place work.old p i }
{
    work[p] = with_place(work[p], i);
}

pub fn put_mark(work: &mut [u32; 260], p: usize)
    requires { p < 256 }
    ensures { work.new ≡ set_mark work.old p }
{
    work[p] = with_mark(work[p]);
}

pub fn put_seen(work: &mut [u32; 260], p: usize, seen: Seen)
    requires { p < 256 }
    ensures { work.new ≡ set_seen work.old p (seen_no seen) }
{
    work[p] = with_seen(work[p], u32::from(seen));
}

pub fn time_at(times: &[f64], p: usize) -> f64
    ensures { result ≡ time_at times.now p }
{
    times.get(p).copied().unwrap_or(0.0)
}

pub fn put_time(times: &mut [f64], p: usize, v: f64)
    ensures { times.new ≡ set times.old p v }
{
    if p < times.len() {
        times[p] = v;
    }
}

// A limit or a leftover, as it stands where the host lent it: minus zero is taken as plus zero.
pub fn number_at(numbers: &[f64], p: usize) -> f64
    ensures { result ≡ number_at numbers.now p }
{
    cleaned(time_at(numbers, p))
}

// The nodes from `from` to `to` are made fresh.
pub fn fresh(work: &mut [u32; 260], times: &mut [f64], from: usize, to: usize)
    requires { to ≤ 256 }
    ensures work_after { work.new ≡ fresh_words from (to - from) work.old }
    ensures times_after { times.new ≡ fresh_times from (to - from) times.old }
{
    for at in from..to {
        put_time(times, at, 0.0);
        work[at] = fresh_word(work[at]);
    }
}
