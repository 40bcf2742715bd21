// A node's ticks, from its own limit's, its first child's and its other children's.
ghost use Rattle.std.specs.Prelude.{◌≡◌};
ghost use Rattle.std.specs.Float.{binary64};
ghost use Rattle.rules.specs.Table.{cleaned};
ghost use Rattle.limits.specs.Ticks.{lim, clipped};
ghost use Rattle.limits.specs.Node.{join_of, none_l, join_l, Alone, Together, row_bounded};

use crate::ticks::{Ticks, larger, product, smaller, sum};
use crate::time::whole_limit;
use rules::Kind;

// How the ticks of several nodes count together: four cases of one definition, and none of them is a caller's own.
#[derive(Clone, Copy, PartialEq, Eq)]
pub enum Join {
    Sum,
    Largest,
    Smallest,
    Product,
}

impl Join {
    // How the children behind the first count: an If's branches, a WhileAll's body.
    pub fn of(kind: Kind) -> Join
        ensures { result ≡ join_of kind }
    {
        match kind {
            Kind::Select | Kind::Sequence | Kind::WhileAll => Join::Sum,
            Kind::If | Kind::WhenAll | Kind::WhenAny | Kind::After => Join::Largest,
            _ => Join::Smallest,
        }
    }

    // The ticks of no node.
    pub fn none(self) -> Ticks
        ensures { result ≡ clipped (none_l self) }
    {
        match self {
            Join::Sum => Some(0),
            Join::Largest | Join::Product => Some(1),
            Join::Smallest => None,
        }
    }

    // One node more.
    pub fn with(self, all: Ticks, one: Ticks) -> Ticks
        ensures { result ≡ clipped (join_l self (lim all) (lim one)) }
    {
        match self {
            Join::Sum => sum(all, one),
            Join::Largest => larger(all, one),
            Join::Smallest => smaller(all, one),
            Join::Product => product(all, one),
        }
    }
}

// A node without children.
#[tactic(auto, unfolding(rules::specs::Bound::bound))]
pub fn alone(kind: Kind, own: Ticks) -> Ticks
    ensures { Alone kind own result }
{
    match kind {
        Kind::Wait => own,
        Kind::MemorylessSequence | Kind::MemorylessSelector => Some(1),
        Kind::WhenAll | Kind::WhenAny | Kind::After => Some(1),
        _ => None,
    }
}

// A node with children.
#[tactic(auto, unfolding(rules::specs::Bound::bound))]
pub fn together(kind: Kind, own: Ticks, first: Ticks, rest: Ticks) -> Ticks
    ensures { Together kind own first rest result }
{
    match kind {
        Kind::Invert | Kind::AlwaysSucceed | Kind::While => first,
        Kind::Timeout => Join::Smallest.with(own, first),
        Kind::Select | Kind::If | Kind::Sequence => Join::Sum.with(first, rest),
        Kind::WhileAll => Join::Product.with(first, rest),
        Kind::WhenAll | Kind::WhenAny | Kind::After => Join::Largest.with(first, rest),
        Kind::Race => Join::Smallest.with(first, rest),
        _ => None,
    }
}

// A whole limit, where the kind has one, and no After without children.
pub fn bounded(kind: Kind, n: u16, limit: f64) -> bool
    ensures { result ≡ row_bounded binary64 kind n (cleaned limit) }
{
    if kind.timed() {
        whole_limit(limit).is_some()
    } else {
        kind != Kind::After || n != 0
    }
}
