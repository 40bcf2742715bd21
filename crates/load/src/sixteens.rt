// Groups of sixteen nodes, from place 1 on: which are plain Waits without a mark. No node of a group has a branch of its own, so many are looked at
// at once.
ghost use Rattle.std.specs.Prelude.{◌≡◌, true, ℕ, ◌+◌, ◌≤◌, ◌<◌, length, get_or};
ghost use Rattle.std.specs.Float.{nan};
ghost use Rattle.load.specs.Sixteens.{Bare, Timed, GroupsIn};

use lent::{Cells, Table};
use tables::SIGN;

// Whether the sixteen elements from `at` on are all zero.
fn are_zero<T: Copy + PartialEq>(items: &[T], at: usize, zero: T) -> bool
    requires { at + 16 ≤ length items.now }
    ensures { result ≡ true → (i : ℕ) → at ≤ i → i < at + 16 → T.eq (get_or items.now i zero) zero ≡ true }
{
    items[at..at + 16]
        .iter()
        .fold(true, |all, x| all & (*x == zero))
}

// Whether the group at `at` is of Waits without place and mark.
fn are_bare(table: &Table, cells: &Cells, at: usize) -> bool
    requires in_table { (at + 16 ≤ length table.now.kinds.now) × (at + 16 ≤ length table.now.ns.now) }
    requires in_cells { (at + 16 ≤ length cells.now.places.now) × (at + 16 ≤ length cells.now.marks.now) }
    ensures { result ≡ true → (k : ℕ) → k < 16
        → Bare table.now.kinds.now table.now.ns.now cells.now.places.now cells.now.marks.now (at + k) }
{
    are_zero(table.kinds, at, 0)
        && are_zero(cells.marks, at, 0)
        && are_zero(table.ns, at, 0)
        && are_zero(cells.places, at, 0)
}

// The time's bits; or the sign, if time and limit are not plainly good.
fn bits_of(time: f64, limit: f64) -> u64
    ensures { result < 0x8000000000000000 → Timed limit time }
{
    if time <= limit && limit < f64::INFINITY {
        f64::to_bits(time)
    } else {
        SIGN
    }
}

// Below the sign only if the first n times and limits are plainly good.
fn times_of(times: &[f64], limits: &[f64], n: usize) -> u64
    requires { (n ≤ length times.now) × (n ≤ length limits.now) }
    ensures { result < 0x8000000000000000 → (i : ℕ) → i < n → Timed (get_or limits.now i nan) (get_or times.now i nan) }
{
    times[..n]
        .iter()
        .zip(&limits[..n])
        .fold(0, |all, (time, limit)| all | bits_of(*time, *limit))
}

// Says of each group among the first `last` nodes, but for the last node, whether it is plain. The times are looked at only if some group may be.
pub fn find_plain(table: &Table, cells: &Cells, last: usize) -> [bool; 16]
    requires in_table { (last ≤ 256) × (last ≤ length table.now.kinds.now) × (last ≤ length table.now.ns.now) × (last ≤ length table.now.limits.now) }
    requires in_cells { (last ≤ length cells.now.times.now) × (last ≤ length cells.now.places.now) × (last ≤ length cells.now.marks.now) }
    ensures { GroupsIn table.now cells.now result }
{
    let mut plain = [false; 16];
    let mut any = false;
    for b in 0..last.saturating_sub(2) / 16 {
        if are_bare(table, cells, 16 * b + 1) {
            plain[b] = true;
            any = true;
        }
    }
    if any && SIGN <= times_of(cells.times, table.limits, last) {
        return [false; 16];
    }
    plain
}
