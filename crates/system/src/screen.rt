// What a member sees on the screen: whether a node is the working picture's.
ghost use Rattle.std.specs.Prelude.{◌≡◌};
ghost use Rattle.blocksystem.specs.Screen.{is_pictured};

use blocksystem::Pictures;
use sectortype::{Node, Nodes};

// Whether the picture has this node of the reference. A function of its own: its proof needs that a picture has 64 places, which is at hand where the
// picture alone is an argument.
fn has_node(picture: Nodes, reference: u64, node: Node) -> bool
    ensures { result ≡ is_pictured picture reference node }
{
    picture
        .slots
        .get(reference as usize)
        .is_some_and(|slot| slot.present & sector::same_node(node, slot.node))
}

// Whether the node is the one that the working picture has of this reference, high, low and list. It says no where the picture has none, and
// so for each reference above 63.
pub fn is_pictured(t: Pictures, reference: u64, node: Node) -> bool
    ensures { result ≡ is_pictured t.working reference node }
{
    has_node(t.working, reference, node)
}
