// Upstream's SectorType as definitions: the records that cache and disk share, by value and of fixed size, each with its one written
// form, and their laws. No code: `sector` has the functions, each of which is proved to return what is defined here.
#![tactic(auto)]

use disklayout::Location;

// A list of up to 8 references, repeats allowed; places from count on hold 0. (A count beside an array, here and below: document 01's form
// for a map, and no heap.)
#[derive(Clone, Copy, PartialEq, Eq)]
pub struct Succs {
    pub count: u8,
    pub at: [u8; 8],
}

// A node's contents: two 64-bit numbers, as a card with its course and tee doesn't fit one. They are zeroed and compared by the definitions
// here and by `sector`; above `sector` only the words of a script, the programs and their fixtures name the two fields.
#[derive(Clone, Copy, PartialEq, Eq)]
pub struct Contents {
    pub high: u64,
    pub low: u64,
}

// What is stored under a reference: its contents and the references that it points to.
#[derive(Clone, Copy, PartialEq, Eq)]
pub struct Node {
    pub contents: Contents,
    pub succs: Succs,
}

// A node as it was stored when its contents were one number. `carried` says which node it is now.
#[derive(Clone, Copy, PartialEq, Eq)]
pub struct OlderNode {
    pub contents: u64,
    pub succs: Succs,
}

// A reference's entry in a table: its list (the graph) and perhaps its location; all zeros where it is not allocated. (Flags and not Options, here
// and in a slot: number 1 is given for an entry whose flag is down and whose rest is not zeros, `entry_form`, `slot_form`.)
#[derive(Clone, Copy, PartialEq, Eq)]
pub struct Entry {
    pub allocated: bool,
    pub located: bool,
    pub loc: Location,
    pub succs: Succs,
}

// Upstream's IndirectionTable: an entry for each of the 64 references, and how many are allocated.
#[derive(Clone, Copy, PartialEq, Eq)]
pub struct Table {
    pub count: u8,
    pub entries: [Entry; 64],
}

// A reference's node where there is one; else zeros.
#[derive(Clone, Copy, PartialEq, Eq)]
pub struct Slot {
    pub present: bool,
    pub node: Node,
}

// A map from references to nodes, and how many it has: the cached nodes, and a picture.
#[derive(Clone, Copy, PartialEq, Eq)]
pub struct Nodes {
    pub count: u8,
    pub slots: [Slot; 64],
}
