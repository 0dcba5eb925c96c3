// The empty records, and a table or a map of nodes with one place set. The count is taken anew, so that it is the count whatever it was.
ghost use Rattle.std.specs.Prelude.{set, ◌≡◌};
ghost use Rattle.disklayout.specs.Calls.{zero_loc};
ghost use Rattle.sectortype.specs.Form.{zero_succs, leaf_node, zero_node, zero_entry, zero_slot, empty_table, empty_nodes, with_entry};
ghost use Rattle.sectortype.specs.Form.{with_slot};

use crate::contents::zero_contents;
use crate::form::{count_allocated, count_present};
use disklayout::Location;
use sectortype::{Contents, Entry, Node, Nodes, Slot, Succs, Table};

pub fn zero_succs() -> Succs
    ensures { result ≡ zero_succs }
{
    Succs {
        count: 0,
        at: [0; 8],
    }
}

pub fn zero_loc() -> Location
    ensures { result ≡ zero_loc }
{
    Location { addr: 0, len: 0 }
}

// A node that lists nothing.
pub fn leaf_node(contents: Contents) -> Node
    ensures { result ≡ leaf_node contents }
{
    Node {
        contents,
        succs: zero_succs(),
    }
}

pub fn zero_node() -> Node
    ensures { result ≡ zero_node }
{
    leaf_node(zero_contents())
}

pub fn zero_entry() -> Entry
    ensures { result ≡ zero_entry }
{
    Entry {
        allocated: false,
        located: false,
        loc: zero_loc(),
        succs: zero_succs(),
    }
}

pub fn zero_slot() -> Slot
    ensures { result ≡ zero_slot }
{
    Slot {
        present: false,
        node: zero_node(),
    }
}

pub fn empty_table() -> Table
    ensures { result ≡ empty_table }
{
    Table {
        count: 0,
        entries: [zero_entry(); 64],
    }
}

pub fn empty_nodes() -> Nodes
    ensures { result ≡ empty_nodes }
{
    Nodes {
        count: 0,
        slots: [zero_slot(); 64],
    }
}

// The places with x at r; for an r past them, as they are.
fn set_at<T: Copy>(mut places: [T; 64], r: usize, x: T) -> [T; 64]
    ensures { result ≡ set places r x }
{
    if r < 64 {
        places[r] = x;
    }
    places
}

// The table with another entry at r; for an r past the table, with its count taken anew and nothing else.
#[tactic(auto, unfolding(sectortype::specs::Form::with_entry))]
pub fn with_entry(t: Table, r: usize, e: Entry) -> Table
    ensures { result ≡ with_entry t r e }
{
    let entries = set_at(t.entries, r, e);
    let count = count_allocated(&entries);
    Table { count, entries }
}

// The map of nodes with another slot at r; for an r past it, with its count taken anew and nothing else.
#[tactic(auto, unfolding(sectortype::specs::Form::with_slot))]
pub fn with_slot(m: Nodes, r: usize, s: Slot) -> Nodes
    ensures { result ≡ with_slot m r s }
{
    let slots = set_at(m.slots, r, s);
    let count = count_present(&slots);
    Nodes { count, slots }
}
