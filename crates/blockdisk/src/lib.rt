// Upstream's BlockDisk as definitions: two table areas, 128 node blocks, four queues of what is outstanding, the freeze rule; what each call and a
// crash answers and leaves, upstream's predicates, and the theorem of demand 2. No code: `disk` has the calls.
#![tactic(auto)]

use disklayout::Location;
use queue::Requests;
use sectortype::{Node, Table};

// What a table area or a node block holds: one table or one node at a place within it, or nothing, all zeros.
#[derive(Clone, Copy, PartialEq, Eq)]
pub struct Record<T> {
    pub present: bool,
    pub loc: Location,
    pub held: T,
}

// All that is stored.
#[derive(Clone, Copy, PartialEq, Eq)]
pub struct Records {
    pub tables: [Record<Table>; 2],
    pub nodes: [Record<Node>; 128],
}

// All that is outstanding: upstream's req_read_indirection_tables, req_read_nodes, req_write_indirection_tables and req_write_nodes.
#[derive(Clone, Copy, PartialEq, Eq)]
pub struct Queues {
    pub tablereads: Requests,
    pub nodereads: Requests,
    pub tablewrites: Requests,
    pub nodewrites: Requests,
}

// All that upstream's disk has, and the freeze rule.
#[derive(Clone, Copy, PartialEq, Eq)]
pub struct DiskState {
    pub records: Records,
    pub queues: Queues,
    // The rule that the device was formatted with (document 02, Q-8), 1 or 2: no transition changes it. It stands last: in front of the
    // records it made the compiler copy these by themselves, three times more at each call.
    pub rule: u64,
}

// Whether a read answer brings something.
#[derive(Clone, Copy)]
pub enum Brought {
    Something,
    Nothing,
}

// Upstream's DiskOp: numbers alone; its node or its table stands beside it.
#[derive(Clone, Copy)]
pub enum DiskOp {
    ReqReadIndirectionTableOp(u64, Location),
    ReqReadNodeOp(u64, Location),
    ReqWriteIndirectionTableOp(u64, Location),
    ReqWriteNodeOp(u64, Location),
    RespReadIndirectionTableOp(u64, Brought),
    RespReadNodeOp(u64, Brought),
    RespWriteIndirectionTableOp(u64),
    RespWriteNodeOp(u64),
    NoDiskOp,
}

// A call of the disk: the operation with its node and its table.
#[derive(Clone, Copy)]
pub struct DiskCall {
    pub op: DiskOp,
    pub node: Node,
    pub table: Table,
}

// What a call of the disk returns: document 01's number, and the disk, unchanged where the number is not 0.
#[derive(Clone, Copy)]
pub struct DiskOutcome {
    pub answer: u64,
    pub disk: DiskState,
}

// What one walk over stored or offered records finds: each record is in its written form; each lies in its own area or block.
#[derive(Clone, Copy)]
pub struct Checked {
    pub form: bool,
    pub placed: bool,
}

// Why the disk refuses a request or an answer: document 01's numbers 15 to 18 (`refusal_number`).
#[derive(Clone, Copy, PartialEq, Eq)]
pub enum DiskRefusal {
    // 15: a request's id is already in its queue, or an answer's id isn't.
    Id,
    // 16: a request's place is not allowed.
    Place,
    // 17: a read answer brings something other than what is stored.
    Brought,
    // 18: a request's queue holds 16.
    Full,
}
