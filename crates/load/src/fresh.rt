// The words of a tree that starts fresh. Its cells are not looked at.
ghost use Rattle.std.specs.Prelude.{◌≡◌, true, List, ℕ, ◌≤◌, Float, length, replicate};
ghost use Rattle.load.specs.Load.{load_words};
ghost use Rattle.load.specs.Scans.{Scans};

use crate::found::Fault;
use crate::words::word;
use lent::Table;
use tables::{MOST_DEEP, check_table};

// The words of n nodes, of which ends says where each subtree ends.
fn load_fresh(work: &mut [u32; 260], kinds: &[u8], ends: &[u16; 256], n: usize)
    requires { (n ≤ 256) × (n ≤ length kinds.now) }
    ensures { work.new ≡ load_words true kinds.now ends.now (replicate n 0) (replicate n 0) 0 n work.old }
{
    for p in 0..n {
        let below = usize::from(ends[p]).saturating_sub(p + 1);
        work[p] = word(below, kinds[p], 0, 0, true);
    }
}

// Whether the slices hold exactly one tree, as a tick's table check has it.
pub fn look_fresh(table: &Table, work: &mut [u32; 260]) -> Result<usize, Fault>
    ensures { (times : List Float) (places marks : List ℕ) → Scans table.now.kinds.now table.now.ns.now table.now.limits.now
        times places marks true work.old work.new result }
{
    let mut ends = [0u16; 256];
    let n = check_table(table, &mut ends, MOST_DEEP)?;
    load_fresh(work, table.kinds, &ends, n);
    Ok(n)
}
