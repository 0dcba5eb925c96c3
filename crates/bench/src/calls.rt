// What a round carries, the arguments of a call, and the two places that make a joined call: a step, and step 20 with its list.
ghost use Rattle.std.specs.Prelude.{◌≡◌};

use blockcache::{Call, Operation, VersionOp};
use blockdisk::{DiskOp, Records};
use blocksystem::{JoinedOperationsOutcome, Outcome};
use disklayout::Location;
use sectortype::{Contents, Node, Succs, Table};
use system::Store;

// The device and the number of this round, which its contents are made of, the counts and the checksum so far, and the store.
#[derive(Clone, Copy)]
pub struct State {
    pub device: u64,
    pub base: u64,
    pub calls: u64,
    pub accepted: u64,
    pub checksum: u64,
    pub store: Outcome,
}

fn double(x: u64) -> u64 {
    std::num::wrapping_add_u64(x, x)
}

// 33 times the checksum and x more, modulo 2 to the 64.
fn mixed(checksum: u64, x: u64) -> u64 {
    let two = double(checksum);
    let four = double(two);
    let eight = double(four);
    let sixteen = double(eight);
    let most = double(sixteen);
    let all = std::num::wrapping_add_u64(most, checksum);
    std::num::wrapping_add_u64(all, x)
}

fn one_if_accepted(answer: u64) -> u64 {
    if answer == 0 { 1 } else { 0 }
}

// A list's outcome as a step's, with a node of zeros.
fn after_list(o: JoinedOperationsOutcome) -> Outcome {
    let node = sector::zero_node();
    let cache = o.cache;
    let disk = o.disk;
    Outcome {
        answer: o.answer,
        node,
        cache,
        disk,
    }
}

// A joined call that offers these records, which only a crash looks at.
pub fn offer(s: State, number: u64, q: Call, offered: Records) -> State {
    let before = s.store;
    let cache = before.cache;
    let disk = before.disk;
    let store = Store {
        device: s.device,
        cache,
        disk,
    };
    let o = store.step(number, q, offered);
    let node = o.node;
    let read = node.contents;
    let answered = mixed(s.checksum, o.answer);
    let higher = mixed(answered, read.high);
    State {
        device: s.device,
        base: s.base,
        calls: std::num::wrapping_add_u64(s.calls, 1),
        accepted: std::num::wrapping_add_u64(s.accepted, one_if_accepted(o.answer)),
        checksum: mixed(higher, read.low),
        store: o,
    }
}

// Step 20 with the first n operations of the list. It returns no node: where a step's checksum takes high and low, this one takes the
// place and 0.
pub fn offer_list(s: State, q: Call, list: [Operation; 40], n: usize) -> State {
    let before = s.store;
    let cache = before.cache;
    let disk = before.disk;
    let store = Store {
        device: s.device,
        cache,
        disk,
    };
    let o = store.operations_of(q, list, n);
    let answered = mixed(s.checksum, o.answer);
    let placed = mixed(answered, o.place);
    State {
        device: s.device,
        base: s.base,
        calls: std::num::wrapping_add_u64(s.calls, 1),
        accepted: std::num::wrapping_add_u64(s.accepted, one_if_accepted(o.answer)),
        checksum: mixed(placed, 0),
        store: after_list(o),
    }
}

// A joined call that offers the records that are stored.
pub fn turn(s: State, number: u64, q: Call) -> State {
    let before = s.store;
    let disk = before.disk;
    let offered = disk.records;
    offer(s, number, q, offered)
}

// Contents in the round of this number: high the number, low that and r more.
pub fn contents(base: u64, r: u64) -> Contents {
    Contents {
        high: base,
        low: std::num::wrapping_add_u64(base, r),
    }
}

pub fn node_place(device: u64, block: u64) -> Location {
    Location {
        addr: layout::node_block_addr(device, block).unwrap_or(0),
        len: 4096,
    }
}

pub fn table_place(device: u64, second: bool) -> Location {
    let area = if second {
        layout::indirection_table2_addr(device)
    } else {
        layout::indirection_table1_addr(device)
    };
    Location {
        addr: area.unwrap_or(0),
        len: 4096,
    }
}

// A call that brings neither node nor table.
pub fn bare(reference: u64, vop: VersionOp, dop: DiskOp) -> Call {
    let node = sector::zero_node();
    let table = sector::empty_table();
    Call {
        reference,
        vop,
        dop,
        node,
        table,
    }
}

pub fn with_node(reference: u64, vop: VersionOp, dop: DiskOp, node: Node) -> Call {
    let table = sector::empty_table();
    Call {
        reference,
        vop,
        dop,
        node,
        table,
    }
}

pub fn with_table(vop: VersionOp, dop: DiskOp, table: Table) -> Call {
    let node = sector::zero_node();
    Call {
        reference: 0,
        vop,
        dop,
        node,
        table,
    }
}

// An alloc, else a write.
pub fn operation(alloc: bool, reference: u64, node: Node) -> Operation {
    Operation {
        alloc,
        reference,
        node,
    }
}

// A node that names two references.
pub fn naming(contents: Contents, first: u8, second: u8) -> Node {
    let mut at: [u8; 8] = [0; 8];
    at[0] = first;
    at[1] = second;
    let succs = Succs { count: 2, at };
    Node { contents, succs }
}

// A node that names 1 to 7, and 8 too where `all` holds.
pub fn root(contents: Contents, all: bool) -> Node {
    let mut at: [u8; 8] = [0; 8];
    at[0] = 1;
    at[1] = 2;
    at[2] = 3;
    at[3] = 4;
    at[4] = 5;
    at[5] = 6;
    at[6] = 7;
    if all {
        at[7] = 8;
    }
    let count: u8 = if all { 8 } else { 7 };
    let succs = Succs { count, at };
    Node { contents, succs }
}

pub fn wide(r: u8) -> u64
    ensures { result ≡ r }
{
    r as u64
}
