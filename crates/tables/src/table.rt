// The table check: one pass from left to right, with the open nodes on a stack of fixed size.
ghost use Rattle.std.specs.Prelude.{◌≡◌, ◌&&◌, ◌<◌, ◌≤◌, leb, length};
ghost use Rattle.rules.specs.Kinds.{fewest, most};
ghost use Rattle.rules.specs.Table.{cleaned, limit_allowed};
ghost use Rattle.rules.specs.declared.answer.Answer.TheVariants as answer;
ghost use Rattle.rules.specs.declared.answer.BoundAnswer.TheVariants as bound;
ghost use Rattle.rules.specs.declared.exchanged.Exchanged.TheVariants as exchanged;
ghost use Rattle.tables.specs.Checks.{row_of, Tabled};

use crate::number::is_number;
use lent::Table;
use rules::{Answer, BoundAnswer, Exchanged, Kind};

// A table is at most 16 deep.
pub const MOST_DEEP: usize = 16;

// The smallest faulty place of a table.
#[derive(Clone, Copy, PartialEq, Eq)]
pub struct BadTable(pub usize);

impl From<BadTable> for Answer {
    ghost from_gives = { λ bad r. r ≡ answer.BadTable bad.0 };

    fn from(bad: BadTable) -> Answer {
        Answer::BadTable(bad.0)
    }
}

impl From<BadTable> for BoundAnswer {
    ghost from_gives = { λ bad r. r ≡ bound.BadTable bad.0 };

    fn from(bad: BadTable) -> BoundAnswer {
        BoundAnswer::BadTable(bad.0)
    }
}

impl From<BadTable> for Exchanged {
    ghost from_gives = { λ bad r. r ≡ exchanged.BadTable bad.0 };

    fn from(bad: BadTable) -> Exchanged {
        Exchanged::BadTable(bad.0)
    }
}

// Only Wait and Timeout have a limit; in any other kind it is zero.
fn limit_allowed(kind: Kind, limit: f64) -> bool
    ensures { result ≡ limit_allowed kind (cleaned limit) }
{
    if kind.timed() {
        is_number(limit)
    } else {
        limit == 0.0
    }
}

// None are never too many, and most nodes have none: the test of that alone is a bit of a mask.
fn count_allowed(kind: Kind, children: u16) -> bool
    ensures { result ≡ leb (fewest kind) children && leb children (most kind) }
{
    if children == 0 {
        return kind.fewest() == 0;
    }
    kind.fewest() <= children && children <= kind.most()
}

// How many children a node that is allowed has. In place: each node of each check asks it.
#[inline(always)]
#[tactic(auto, using(crate::proofs::Rows::no_kind))]
pub fn row_of(number: u8, n: u16, limit: f64) -> Option<u16>
    ensures { result ≡ row_of number n (cleaned limit) }
{
    let Ok(kind) = Kind::try_from(number) else {
        return None;
    };
    if !limit_allowed(kind, limit) {
        return None;
    }
    let children = kind.children(n);
    count_allowed(kind, children).then_some(children)
}

// An open node: where it begins, and how many of its parent's children are still to be read.
#[derive(Clone, Copy)]
struct Open {
    begin: u16,
    owed: u16,
}

// Whether the slices hold exactly one tree of at most 256 nodes, at most so many levels deep. Of a good table
// ends says for each node where its subtree ends; the entries behind the nodes stay.
pub fn check_table(table: &Table, ends: &mut [u16; 256], deep: usize) -> Result<usize, BadTable>
    requires deep_nonzero { (0 < deep) × (deep ≤ 64) }
    requires ends_len { length ends.old ≡ 256 }
    ensures { Tabled deep table.now.kinds.now table.now.ns.now table.now.limits.now ends.old ends.new result }
{
    let rows = table.rows();
    let last = rows.min(256);
    // Each row is read, and through the reference the slices would be loaded anew for each.
    let Table { kinds, ns, limits } = *table;
    // The stack is fixed memory with its depth beside it: a stack type's pop would answer an Option that is never None.
    let mut opens = [Open { begin: 0, owed: 0 }; 64];
    let mut open: usize = 0;
    // How many of the innermost node's children are still to be read; at first 1, for the root.
    let mut left: u16 = 1;
    for begin in 0..last {
        let Some(children) = row_of(kinds[begin], ns[begin], limits[begin]) else {
            return Err(BadTable(begin));
        };
        let at = begin + 1;
        left -= 1;
        if 0 < children {
            opens[open] = Open {
                begin: begin as u16,
                owed: left,
            };
            left = children;
            open += 1;
            if deep <= open {
                return Err(BadTable(at));
            }
        } else {
            ends[begin] = at as u16;
            // A subtree ends here, and with it each open node that has no child left.
            while left == 0 {
                if open == 0 {
                    return if at < rows { Err(BadTable(at)) } else { Ok(at) };
                }
                open -= 1;
                left = opens[open].owed;
                ends[usize::from(opens[open].begin)] = at as u16;
            }
        }
    }
    Err(BadTable(last))
}
