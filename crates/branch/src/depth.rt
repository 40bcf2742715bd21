// How deep a tree is, from the leaves upward.
ghost use Rattle.std.specs.Prelude.{◌≤◌};
ghost use Rattle.branch.specs.Depth.{Deepest, Depth};

// The depth of the deepest of the trees from a place to stop, of which deep says how deep each is.
fn deepest(deep: &[u8; 256], ends: &[u16; 256], from: usize, stop: usize) -> u8
    ensures { Deepest deep.now ends.now from stop result }
{
    let mut levels: u8 = 0;
    let mut at = from;
    while at < stop {
        // Neither is so in a good table.
        if 256 <= at {
            return levels;
        }
        let next = usize::from(ends[at]);
        if next <= at {
            return levels;
        }
        levels = levels.max(deep[at]);
        at = next;
    }
    levels
}

// The depth of the tree of n nodes whose subtrees end as ends says.
pub fn depth_of(ends: &[u16; 256], n: usize) -> usize
    requires { n ≤ 256 }
    ensures { Depth ends.now n result }
{
    let mut deep = [0u8; 256];
    for at in (0..n).rev() {
        let below = deepest(&deep, ends, at + 1, usize::from(ends[at]));
        deep[at] = below.saturating_add(1);
    }
    usize::from(deep[0])
}
