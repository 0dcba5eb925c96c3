// Upstream's BlockSystem as definitions: formatting, the joined call, names and pictures, what is lost, what is shown, and the theorems of
// demands 2 and 3. No code: `system` has the calls.
#![tactic(auto)]

use blockcache::CacheState;
use blockdisk::DiskState;
use disklayout::Location;
use sectortype::{Node, Nodes};

// What a joined call returns: the number that documents 01 and 02 give, the node of a read (zeros with every other answer), and cache and disk,
// unchanged where the number is not 0. (A number beside the state, here and below: document 01, "steps take self and return answer and state".)
#[derive(Clone, Copy)]
pub struct Outcome {
    pub answer: u64,
    pub node: Node,
    pub cache: CacheState,
    pub disk: DiskState,
}

// What a list of operations on cache and disk returns: the number that document 02 gives, the place of the operation that failed, from
// 0, and 0 with every other answer; and cache and disk, unchanged where the number is not 0.
#[derive(Clone, Copy)]
pub struct JoinedOperationsOutcome {
    pub answer: u64,
    pub place: u64,
    pub cache: CacheState,
    pub disk: DiskState,
}

// A place that is named, with the picture that belongs to it; nothing named is all zeros. "Named place" and "picture" are document 01's
// terms (its section "Pictures and named places"): a picture is nodes by reference.
#[derive(Clone, Copy)]
pub struct Named {
    pub present: bool,
    pub place: Location,
    pub picture: Nodes,
}

// Document 01's named places and pictures: the place that formatting, a start or a clean-up left named, the frozen place that step 4
// named, the working picture and the frozen one.
#[derive(Clone, Copy)]
pub struct Pictures {
    pub first: Named,
    pub second: Named,
    pub working: Nodes,
    pub frozen: Nodes,
}

// How many references are lost, added and altered for one named place.
#[derive(Clone, Copy)]
pub struct Counts {
    pub lost: u64,
    pub added: u64,
    pub altered: u64,
}
