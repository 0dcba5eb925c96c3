// A node's contents, two numbers: zeroed, and carried over from the one number of an older node. Nothing else in this crate looks inside.
ghost use Rattle.std.specs.Prelude.{◌≡◌};
ghost use Rattle.sectortype.specs.HighLow.{carried_contents, contents_zero, zero_contents};
ghost use Rattle.sectortype.specs.Older.{carried};

use sectortype::{Contents, Node, OlderNode};

pub fn zero_contents() -> Contents
    ensures { result ≡ zero_contents }
{
    Contents { high: 0, low: 0 }
}

#[tactic(auto, unfolding(sectortype::specs::HighLow::contents_zero))]
pub(crate) fn contents_zero(c: Contents) -> bool
    ensures { result ≡ contents_zero c }
{
    c == zero_contents()
}

// The contents of an older node, from its one number: high 0.
pub fn carried_contents(low: u64) -> Contents
    ensures { result ≡ carried_contents low }
{
    Contents { high: 0, low }
}

// The node that an older one is now.
#[tactic(auto, unfolding(sectortype::specs::Older::carried))]
pub fn carried(n: OlderNode) -> Node
    ensures { result ≡ carried n }
{
    Node {
        contents: carried_contents(n.contents),
        succs: n.succs,
    }
}
