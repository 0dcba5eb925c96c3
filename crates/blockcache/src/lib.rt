// Upstream's BlockCache as definitions: phases, three tables, what is outstanding, the cached nodes and the marks of the node blocks; what each of
// steps 1 to 20 and the chooser answers and leaves, upstream's predicates and that of step 19, and the theorem of demand 2. No code:
// `cache` has the step, the list of operations and the chooser.
#![tactic(auto)]

use blockdisk::DiskOp;
use disklayout::Location;
use queue::Requests;
use sectortype::{Node, Nodes, Table};

#[derive(Clone, Copy, PartialEq, Eq)]
pub enum Phase {
    Unready,
    Loading,
    Ready,
}

// The three tables of a Ready cache; the frozen one with a flag beside it.
#[derive(Clone, Copy, PartialEq, Eq)]
pub struct Tables {
    pub persistent: Table,
    pub ephemeral: Table,
    pub isfrozen: bool,
    pub frozen: Table,
}

// The persistent table's place (while Loading, the place being loaded) and the frozen table's, with a flag beside it.
#[derive(Clone, Copy, PartialEq, Eq)]
pub struct Places {
    pub persistent: Location,
    pub isfrozen: bool,
    pub frozen: Location,
}

// The id of the table request that is waited for: while Loading a read, while Ready a write.
#[derive(Clone, Copy, PartialEq, Eq)]
pub struct Awaited {
    pub waiting: bool,
    pub id: u64,
}

// The node requests that are waited for: writes with reference and location, reads with the reference alone.
#[derive(Clone, Copy, PartialEq, Eq)]
pub struct Outstanding {
    pub writes: Requests,
    pub reads: Requests,
}

// A mark for each of the 128 node blocks (document 02, Q-1), a bit each: bit k of the low word is block k's, bit k of the high one block 64 + k's.
#[derive(Clone, Copy, PartialEq, Eq)]
pub struct Marks {
    pub low: u64,
    pub high: u64,
}

// The blocks' marks, and the number of the block that the chooser gave last. Both are zeros outside Ready.
#[derive(Clone, Copy, PartialEq, Eq)]
pub struct Blocks {
    pub marks: Marks,
    pub last: u64,
}

#[derive(Clone, Copy, PartialEq, Eq)]
pub struct CacheState {
    pub phase: Phase,
    pub tables: Tables,
    pub places: Places,
    pub awaited: Awaited,
    pub outstanding: Outstanding,
    pub nodes: Nodes,
    pub blocks: Blocks,
}

// What a call of the cache names beside the cache: the device, and its freeze rule (document 02, Q-8), 1 or 2. A later setting is a field here.
#[derive(Clone, Copy)]
pub struct Settings {
    pub device: u64,
    pub rule: u64,
}

// Upstream's VOp. An AdvanceOp tells whether its uiop is NoOp; the two Send operations carry a location.
#[derive(Clone, Copy)]
pub enum VersionOp {
    StatesInternalOp,
    JournalInternalOp,
    SendPersistentLocOp(Location),
    SendFrozenLocOp(Location),
    AdvanceOp(bool),
    FreezeOp,
    CleanUpOp,
    PushSyncOp,
    PopSyncOp,
    CrashOp,
}

// A step's arguments: the reference, the version operation, the disk operation with its node and its table.
#[derive(Clone, Copy)]
pub struct Call {
    pub reference: u64,
    pub vop: VersionOp,
    pub dop: DiskOp,
    pub node: Node,
    pub table: Table,
}

// What a step of the cache returns: the number that documents 01 and 02 give, the node of a read (zeros with every other answer), and the cache,
// unchanged where the number is not 0.
#[derive(Clone, Copy)]
pub struct CacheOutcome {
    pub answer: u64,
    pub node: Node,
    pub cache: CacheState,
}

// Why a step is refused: the conditions of documents 01 and 02 by what they speak of, so that one name stands for one number.
#[derive(Clone, Copy, PartialEq, Eq)]
pub enum Refusal {
    // Outside the limits or not in its one written form, or there is no such step.
    Limits,
    // The version operation, the disk operation or the phase isn't the step's.
    Version,
    Disk,
    Phase,
    // A request's id is outstanding already, an answer's isn't awaited, or NoOp is given a write answer that is.
    Id,
    // The place given isn't valid, or isn't the one that the cache has.
    Place,
    // The address is held already.
    Held,
    // The reference is cached or allocated where it may not be, or isn't where it must be.
    Reference,
    // A node or a table differs from the one that the cache has, or can't be loaded.
    Contents,
    // A request that has to end first is outstanding.
    Outstanding,
    // The frozen table or its place is missing or incomplete, or still needs the node.
    Frozen,
    // The root, or a list in the graph names it.
    Named,
    // A successor isn't allocated.
    Successor,
    // 16 requests are outstanding.
    Full,
    // Every block is marked.
    NoBlock,
    // A read answer that the cache awaits, which is for the step that lets go.
    Awaited,
    // A list of more than 32 operations.
    TooLong,
    // Rule 2 holds the frozen place.
    Rule,
}

// One operation of step 20's list (document 02, Q-7), upstream's Op: an alloc, else a write, which is Dirty, of a node under a
// reference. Any 64-bit number may stand as the reference, and any node.
#[derive(Clone, Copy)]
pub struct Operation {
    pub alloc: bool,
    pub reference: u64,
    pub node: Node,
}

// What a list of operations returns: the number that document 02 gives; the place of the operation that failed, from 0, and 0 with
// every other answer; and the cache, unchanged where the number is not 0.
#[derive(Clone, Copy)]
pub struct OperationsOutcome {
    pub answer: u64,
    pub place: u64,
    pub cache: CacheState,
}

// What the chooser returns: the number that document 02 gives; the number of the block given, from 0, its address, and how many blocks are free
// (unmarked), zeros where the answer is not 0; and the cache, which has that block as the one given last, unchanged where the answer is not 0.
#[derive(Clone, Copy)]
pub struct Choice {
    pub answer: u64,
    pub block: u64,
    pub addr: u64,
    pub free: u64,
    pub cache: CacheState,
}
