// The script: 91 calls on a newly formatted device, of which documents 01 and 02 accept 68. Each refused call says its number.
use crate::calls::{State, contents, naming, operation, root, wide};
use crate::steps::{
    alloc, clean_up, crash, crash_to_nothing, dirty, evict, freeze, let_go, no_op, no_step,
    page_in_node_req, page_in_node_resp, page_in_table_req, page_in_table_resp, read, receive_loc,
    transaction, unalloc, write_back_node_req, write_back_node_resp, write_back_table_req,
    write_back_table_resp,
};
use blockcache::{Operation, VersionOp};
use blockdisk::{Brought, DiskOp};
use sectortype::Node;
use system::Store;

// Under rule 2 the freeze of call 64 is refused, and the frozen place is there for the clean-up after it.
const RULE_2: u64 = 2;

// Reference r as the script first writes it: it names the one before it, and the root.
fn leaf(base: u64, r: u8) -> Node {
    let before: u8 = if r == 0 { 0 } else { r - 1 };
    let x = contents(base, wide(r));
    naming(x, before, 0)
}

// The root as formatting leaves it.
fn first_root(base: u64) -> Node {
    let x = contents(base, 0);
    sector::leaf_node(x)
}

// A node with high 0 and low 1 that names r twice.
fn small(r: u8) -> Node {
    let x = sector::carried_contents(1);
    naming(x, r, r)
}

// Calls 1 to 12: a start from area 1, and the root paged in.
fn load(s: State) -> State {
    let s = read(s, 0); // 4: Unready
    let s = receive_loc(s, true); // 20: nothing stored in area 2
    let s = receive_loc(s, false);
    let s = page_in_table_req(s, 1, false);
    let s = page_in_table_req(s, 2, false); // 10: one is outstanding
    let s = page_in_table_resp(s, 1, false);
    let s = evict(s, 0); // 8: not cached
    let s = page_in_node_req(s, 0, 7, 0);
    let s = page_in_node_req(s, 0, 8, 0); // 10: a read of it is outstanding
    let n = first_root(s.base);
    let s = page_in_node_resp(s, 7, n);
    let s = read(s, 0);
    let m = small(5);
    alloc(s, 5, m) // 13: it names itself
}

// 8 calls: references 1 to 8.
fn grow(s: State) -> State {
    let mut now = s;
    for r in 1..9 {
        let n = leaf(now.base, r);
        now = alloc(now, wide(r), n);
    }
    now
}

// 9 calls: references 0 to 8.
fn read_all(s: State) -> State {
    let mut now = s;
    for r in 0..9 {
        now = read(now, wide(r));
    }
    now
}

// Calls 13 to 33: eight references more, one of them taken back.
fn work(s: State) -> State {
    let s = grow(s);
    let x = contents(s.base, 100);
    let n = root(x, true);
    let s = dirty(s, 0, n);
    let s = read_all(s);
    let s = unalloc(s, 8); // 12: the root names it
    let m = root(x, false);
    let s = dirty(s, 0, m);
    unalloc(s, 8)
}

// The node that the script has left under r, below 8.
fn latest(base: u64, r: u8) -> Node {
    if r == 0 {
        let x = contents(base, 100);
        return root(x, false);
    }
    leaf(base, r)
}

// Four operations: 8 and 9 allocated, and two references written that name them.
fn four(base: u64) -> [Operation; 40] {
    let card = leaf(base, 8);
    let player = leaf(base, 9);
    let x = contents(base, 200);
    let both = naming(x, 8, 9);
    let twice = naming(x, 9, 9);
    let first = operation(true, 8, card);
    let mut list: [Operation; 40] = [first; 40];
    list[1] = operation(true, 9, player); // it names 8, which the list has just allocated
    list[2] = operation(false, 1, both);
    list[3] = operation(false, 2, twice);
    list
}

// Four more: the root names 8, and then it and those two are written as they were, so that 8 and 9 are all that the list leaves.
fn eight(base: u64) -> [Operation; 40] {
    let x = contents(base, 200);
    let all = root(x, true);
    let one = leaf(base, 1);
    let two = leaf(base, 2);
    let zero = latest(base, 0);
    let mut list = four(base);
    list[4] = operation(false, 0, all);
    list[5] = operation(false, 1, one);
    list[6] = operation(false, 2, two);
    list[7] = operation(false, 0, zero);
    list
}

// Calls 34 to 38: a list of eight, another that fails at its second operation, and the two references taken back. Had the second list
// left its first operation behind, 8 would name 9, and call 37 would be refused.
fn together(s: State) -> State {
    let list = eight(s.base);
    let s = transaction(s, list, 8);
    let x = contents(s.base, 200);
    let n = naming(x, 9, 0);
    let mut late = list;
    late[0] = operation(false, 8, n);
    let s = transaction(s, late, 8); // 8 at place 1: 9 is allocated
    let s = read(s, 9);
    let s = unalloc(s, 9);
    unalloc(s, 8)
}

// 8 calls: references 0 to 7 to blocks 1 to 8.
fn write_all(s: State) -> State {
    let mut now = s;
    for r in 0..8 {
        let k = wide(r);
        let n = latest(now.base, r);
        now = write_back_node_req(
            now,
            k,
            std::num::wrapping_add_u64(20, k),
            std::num::wrapping_add_u64(1, k),
            n,
        );
    }
    now
}

// 8 calls: the answers.
fn answer_all(s: State) -> State {
    let mut now = s;
    for k in 0..8 {
        now = write_back_node_resp(now, 20 + k);
    }
    now
}

// Calls 39 to 57: write-back.
fn write_back(s: State) -> State {
    let s = write_all(s);
    let n = latest(s.base, 0);
    let s = write_back_node_req(s, 0, 30, 0, n); // 7: the persistent table holds it
    let s = evict(s, 3); // 10: its write is outstanding
    let s = answer_all(s);
    write_back_node_resp(s, 99) // 5: not awaited
}

// Calls 58 to 68: a frozen table written and cleaned up.
fn persist(s: State) -> State {
    let s = freeze(s);
    let n = small(0);
    let s = dirty(s, 1, n);
    let s = write_back_table_req(s, 40);
    let s = freeze(s); // 10: a table write is outstanding
    let s = write_back_node_req(s, 1, 41, 20, n); // 10: the same
    let s = write_back_table_resp(s, 40);
    let s = freeze(s); // 25: its place is set
    let s = clean_up(s);
    let s = clean_up(s); // 11: no frozen place
    let s = no_op(s, DiskOp::NoDiskOp);
    no_op(s, DiskOp::RespReadNodeOp(77, Brought::Something)) // 15: no such read
}

// Calls 69 to 82: a node out and in again, after the drive first brought nothing, and a crash with a write outstanding.
fn lose(s: State) -> State {
    let s = evict(s, 2);
    let s = read(s, 2); // 8: not cached
    let s = page_in_node_req(s, 2, 50, 3);
    let s = no_op(s, DiskOp::RespReadNodeOp(50, Brought::Nothing)); // 22: it is awaited
    let s = let_go(s, 50);
    let s = page_in_node_req(s, 2, 51, 3);
    let n = leaf(s.base, 2);
    let s = page_in_node_resp(s, 51, n);
    let s = read(s, 2);
    let s = freeze(s);
    let m = small(0);
    let s = dirty(s, 1, m); // 11: the frozen table needs the cached node
    let s = write_back_node_req(s, 1, 60, 21, m);
    let s = crash(s, VersionOp::StatesInternalOp); // 2
    let s = crash_to_nothing(s); // 19: what is stored has to stay
    crash(s, VersionOp::CrashOp)
}

// Calls 83 to 91: a start from area 2.
fn again(s: State) -> State {
    let s = receive_loc(s, true);
    let s = page_in_table_req(s, 70, true);
    let s = page_in_table_resp(s, 70, true);
    let s = page_in_node_req(s, 1, 71, 2);
    let n = leaf(s.base, 1);
    let s = page_in_node_resp(s, 71, n);
    let s = read(s, 1);
    let s = no_step(s, 0); // 1
    let s = no_step(s, 21); // 1
    crash(s, VersionOp::CrashOp)
}

// The store newly formatted on this device, under rule 2, for the round of this number; counts and checksum as they were.
fn formatted(s: State, device: u64, base: u64) -> State {
    let x = contents(base, 0);
    let o = Store::format(device, x, RULE_2);
    State {
        device,
        base,
        calls: s.calls,
        accepted: s.accepted,
        checksum: s.checksum,
        store: o,
    }
}

// A whole round: the devices take turns.
pub fn round(s: State, i: u64) -> State {
    let s = formatted(s, i % 3, i);
    let s = load(s);
    let s = work(s);
    let s = together(s);
    let s = write_back(s);
    let s = persist(s);
    let s = lose(s);
    again(s)
}

// Nothing called yet.
pub fn start() -> State {
    let x = sector::zero_contents();
    let o = Store::format(0, x, RULE_2);
    State {
        device: 0,
        base: 0,
        calls: 0,
        accepted: 0,
        checksum: 0,
        store: o,
    }
}
