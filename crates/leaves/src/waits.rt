// The visit that most children of a WhenAll take in most ticks, without the choices that any other visit makes: of one Wait, and of sixteen at once.
ghost use Rattle.std.specs.Prelude.{◌≡◌, true, false, List, ℕ, ◌+◌, ◌≤◌, ◌<◌, length, Float};
ghost use Rattle.std.specs.Float.{binary64};
ghost use Rattle.std.specs.Float.Ieee.{add, lt};
ghost use Rattle.rules.specs.Tree.{zero_time};
ghost use Rattle.work.specs.declared.result.Seen.TheVariants.{Running};
ghost use Rattle.work.specs.Array.{time_at};
ghost use Rattle.work.specs.Flat.{Visitor, out, lent, visit};
ghost use Rattle.leaves.specs.Waiting.{Waiting};

use rules::Kind;
use work::{FUEL, Reads, Seen, kind_of, put_time, time_at, updates, with_seen, words_of};

// Visits the node at p if it is a Wait that stays Running, and else does nothing. Its limit is only
// compared, so that the sign of zero makes no difference.
pub fn keeps_waiting(
    work: &mut [u32; 260],
    reads: &Reads,
    times: &mut [f64],
    p: usize,
    dt: f64,
) -> bool
    requires { p < 256 }
    ensures times_value { result ≡ true → (a : List ℕ) (b : List Float) (tick : Visitor) → visit binary64 (lent reads.now.limits.now a b) tick p dt work.old times.old
        ≡ out Running zero_time work.new times.new }
    ensures work_unchanged { result ≡ false → (work.new ≡ work.old) × (times.new ≡ times.old) }
{
    let w = work[p];
    let kind = kind_of(w);
    let Kind::Wait = kind else {
        return false;
    };
    let fuel = work[FUEL];
    if fuel == 0 {
        return false;
    }
    if !updates(work) {
        return false;
    }
    let limit = time_at(reads.limits, p);
    let elapsed = time_at(times, p) + dt;
    // Not `>=`, which is false as well where one of them is no number.
    if !(elapsed < limit) {
        return false;
    }
    work[FUEL] = fuel - 1;
    put_time(times, p, elapsed);
    work[p] = with_seen(w, u32::from(Seen::Running));
    true
}

// Whether none of the Waits with these times reaches its limit. Each is looked at, so that a compiler can do several at once.
fn none_ends(limits: &[f64], times: &[f64], dt: f64) -> bool
    ensures { result ≡ true → (j : ℕ) → j < length limits.now → j < length times.now → lt (add binary64 (time_at times.now j) dt) (time_at limits.now j) ≡ true }
{
    times
        .iter()
        .zip(limits)
        .fold(true, |none, (time, limit)| none & (*time + dt < *limit))
}

// Visits sixteen Waits from p on if all stay Running, and else does nothing.
fn sixteen_keep_waiting(
    work: &mut [u32; 260],
    reads: &Reads,
    times: &mut [f64],
    p: usize,
    dt: f64,
) -> bool
    requires { p + 16 ≤ 256 }
    ensures waiting { result ≡ true → Waiting reads.now.limits.now dt p (p + 16) work.old times.old work.new times.new }
    ensures work_unchanged { result ≡ false → (work.new ≡ work.old) × (times.new ≡ times.old) }
{
    let end = p + 16;
    // 0 only for Waits without a mark that this tick has neither visited nor made fresh.
    if 0 < words_of(work, p) {
        return false;
    }
    let fuel = work[FUEL];
    if fuel < 16 || !updates(work) {
        return false;
    }
    if reads.limits.len() < end || times.len() < end {
        return false;
    }
    if !none_ends(&reads.limits[p..end], &times[p..end], dt) {
        return false;
    }
    for time in &mut times[p..end] {
        *time += dt;
    }
    work[FUEL] = fuel - 16;
    work[p..end].fill(with_seen(0, u32::from(Seen::Running)));
    true
}

// Visits Waits that stay Running, sixteen at a time, from `from` on and before `stop`. Where the first stands that was not visited.
pub fn past_waits(
    work: &mut [u32; 260],
    reads: &Reads,
    times: &mut [f64],
    from: usize,
    stop: usize,
    dt: f64,
) -> usize
    requires { (from ≤ 256) × (stop ≤ 256) }
    ensures waiting { Waiting reads.now.limits.now dt from result work.old times.old work.new times.new }
    ensures upper_bound { from < result → result ≤ stop }
{
    let mut q = from;
    while q + 16 <= stop {
        if !sixteen_keep_waiting(work, reads, times, q, dt) {
            return q;
        }
        q += 16;
    }
    q
}
