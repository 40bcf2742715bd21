// What the board shows of children that were not visited, put into the words behind a walk: the status
// with which a child has ended, by the kind and place of the node above it or by its own mark.
#![tactic(auto)]

ghost use Rattle.std.specs.Prelude.{◌≡◌, ℕ, true, ◌+◌, ◌≤◌, ◌<◌};
ghost use Rattle.work.specs.Array.{end_of};
ghost use Rattle.work.specs.Flat.{seen_no};
ghost use Rattle.shown.specs.Show.{ended_word, marked_word, Puts, put_at, over_words, Leaves, ended_at, marked_at, behind_of, each_from, ended_below, ended_words, Bare};

use rules::Kind;
use work::{Seen, below_of, end_of, kind_of, mark_of, place_of, seen_of, with_seen, words_of};

// Whether sixteen children from q on have none below them: each then ends where the next begins.
fn sixteen_leaves(work: &[u32; 260], q: usize) -> bool
    requires { q + 16 ≤ 256 }
    ensures { result ≡ true → Leaves q 16 work.now }
{
    below_of(words_of(work, q)) == 0
}

// The word of a child that shows a status if no visit has seen it; and only if it has a mark.
fn shown(w: u32, seen: Seen) -> u32
    ensures { result ≡ ended_word (seen_no seen) w }
{
    if seen_of(w) == 0 {
        with_seen(w, u32::from(seen))
    } else {
        w
    }
}

fn shown_marked(w: u32, seen: Seen) -> u32
    ensures { result ≡ marked_word (seen_no seen) w }
{
    if mark_of(w) == 1 { shown(w, seen) } else { w }
}

// Sixteen words from q on, each put through a function.
fn put_sixteen<F: Fn(u32) -> u32>(work: &mut [u32; 260], q: usize, put: &F)
    requires here { q + 16 ≤ 256 }
    requires callable { F.IsAlwaysCallable put.now }
    ensures { (f : ℕ → ℕ) → Puts (F.post put.now) f → work.new ≡ over_words f q 16 work.old }
{
    for i in 0..16 {
        work[q + i] = put(work[q + i]);
    }
}

// The child behind the one at q, whose word was w. A leaf is told apart, for then no turn of a loop
// waits for the word that the turn before it has read.
fn behind(work: &[u32; 260], q: usize, w: u32) -> usize
    requires { q < 256 }
    ensures { (result ≡ behind_of w q work.now) × (result ≤ 256) × (q < result) }
{
    if 0 < below_of(w) {
        end_of(work, q)
    } else {
        q + 1
    }
}

// So many children of the node at p, at most, each put through a function; leaves sixteen at once, without a branch for each.
fn put_each<F: Fn(u32) -> u32>(work: &mut [u32; 260], p: usize, most: u32, put: F)
    requires here { p < 256 }
    requires callable { F.IsAlwaysCallable put }
    ensures { (f : ℕ → ℕ) → Puts (F.post put) f → work.new ≡ each_from (put_at f) (end_of work.old p) most (p + 1) work.old }
{
    let stop = end_of(work, p);
    let mut q = p + 1;
    let mut left = most;
    while 16 <= left && q + 16 <= stop && sixteen_leaves(work, q) {
        put_sixteen(work, q, &put);
        q += 16;
        left -= 16;
    }
    // A place and a count move together.
    while 0 < left && q < stop {
        let w = work[q];
        let v = put(w);
        // Only a word that changes is written: else a choice without a branch would make each turn wait for the one before it.
        if v != w {
            work[q] = v;
        }
        q = behind(work, q, w);
        left -= 1;
    }
}

// The children of the node at p that have a mark.
fn show_marked(work: &mut [u32; 260], p: usize, seen: Seen)
    requires { p < 256 }
    ensures { work.new ≡ each_from (marked_at (seen_no seen)) (end_of work.old p) 256 (p + 1) work.old }
{
    put_each(work, p, 256, |w| shown_marked(w, seen));
}

// The children of the node at p before its place.
fn show_before(work: &mut [u32; 260], p: usize, place: u32, seen: Seen)
    requires { p < 256 }
    ensures { work.new ≡ each_from (ended_at (seen_no seen)) (end_of work.old p) place (p + 1) work.old }
{
    put_each(work, p, place, |w| shown(w, seen));
}

// The children of the node at p.
fn show_below(work: &mut [u32; 260], p: usize)
    requires { p < 256 }
    ensures { work.new ≡ ended_below p work.old }
{
    let w = work[p];
    if below_of(w) == 0 {
        return;
    }
    match kind_of(w) {
        Kind::WhenAll => show_marked(work, p, Seen::Success),
        Kind::WhenAny => show_marked(work, p, Seen::Failure),
        Kind::Sequence | Kind::After => show_before(work, p, place_of(w), Seen::Success),
        Kind::Select => show_before(work, p, place_of(w), Seen::Failure),
        _ => {}
    }
}

// 0 only if a word has no place and no mark, and with so many nodes ahead of it all below it stand among 256.
fn state_in(w: u32, ahead: u32) -> u32
    requires { ahead ≤ 256 }
    ensures { result ≡ 0 → Bare w ahead }
{
    (w % 256 + w / 0x10000 % 512 * 0x10000 + ahead) / 256
}

// Whether surely nothing is to be shown. Mostly no word has a place or a mark, and without a branch many words are looked at at a time.
// The n nodes count as the last of 256.
fn all_bare(work: &[u32; 260], n: usize) -> bool
    requires { n ≤ 256 }
    ensures { result ≡ true → ended_words 0 n work.now ≡ work.now }
{
    let mut states = 0;
    for (p, w) in work[..n].iter().enumerate() {
        states |= state_in(*w, (256 - n + p) as u32);
    }
    states == 0
}

// The first n nodes.
pub fn show_ended(work: &mut [u32; 260], n: usize)
    requires { n ≤ 256 }
    ensures { work.new ≡ ended_words 0 n work.old }
{
    if all_bare(work, n) {
        return;
    }
    for p in 0..n {
        show_below(work, p);
    }
}
