// Lists of references, and nodes, written out.
ghost use Rattle.std.specs.Prelude.{◌≡◌};
ghost use Rattle.words.specs.Numbers.{small_of};
ghost use Rattle.words.specs.Parsed.{joined_of, list_of, node_of};

use crate::contents::contents_of;
use crate::digits::number;
use crate::text::{cut, cut_at};
use sectortype::{Node, Succs};

// A reference is a byte: from 64 on it is the store that refuses one.
#[tactic(auto, unfolding(crate::specs::Numbers::small_of))]
fn byte(w: &[u8]) -> Option<u8>
    ensures { result ≡ small_of w.now 255 }
{
    let r = number(w)?;
    u8::try_from(r).ok()
}

// A list with one reference more. It has at most 8.
#[tactic(auto, unfolding(crate::specs::Parsed::joined_of))]
fn joined(mut l: Succs, w: &[u8]) -> Option<Succs>
    ensures { result ≡ joined_of l w.now }
{
    let r = byte(w)?;
    let count = l.count;
    if count > 7 {
        return None;
    }
    l.at[usize::from(count)] = r;
    l.count = count + 1;
    Some(l)
}

// References joined by commas, perhaps none.
#[tactic(auto, unfolding(crate::specs::Parsed::list_of))]
pub fn list(w: &[u8]) -> Option<Succs>
    ensures { result ≡ list_of w.now }
{
    let mut l = sector::zero_succs();
    if w.is_empty() {
        return Some(l);
    }
    for piece in cut_at(w, b',') {
        l = joined(l, piece)?;
    }
    Some(l)
}

// `CONTENTS:LIST`.
#[tactic(auto, unfolding(crate::specs::Parsed::node_of))]
pub fn node(w: &[u8]) -> Option<Node>
    ensures { result ≡ node_of w.now }
{
    let (first, second) = cut(w, b':')?;
    let contents = contents_of(first)?;
    let succs = list(second)?;
    Some(Node { contents, succs })
}
