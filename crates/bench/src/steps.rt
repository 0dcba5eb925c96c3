// One function for each step of documents 01 and 02 that the script takes, named as there.
use crate::calls::{
    State, bare, node_place, offer, offer_list, table_place, turn, with_node, with_table,
};
use blockcache::{Operation, VersionOp};
use blockdisk::{Brought, DiskOp};
use sectortype::{Node, Table};

// 1
pub fn write_back_node_req(s: State, r: u64, id: u64, block: u64, node: Node) -> State {
    let loc = node_place(s.device, block);
    let q = with_node(
        r,
        VersionOp::StatesInternalOp,
        DiskOp::ReqWriteNodeOp(id, loc),
        node,
    );
    turn(s, 1, q)
}

// 2
pub fn write_back_node_resp(s: State, id: u64) -> State {
    let q = bare(0, VersionOp::StatesInternalOp, DiskOp::RespWriteNodeOp(id));
    turn(s, 2, q)
}

// 3, with the frozen table, into area 2
pub fn write_back_table_req(s: State, id: u64) -> State {
    let loc = table_place(s.device, true);
    let o = s.store;
    let c = o.cache;
    let ts = c.tables;
    let frozen = ts.frozen;
    let q = with_table(
        VersionOp::StatesInternalOp,
        DiskOp::ReqWriteIndirectionTableOp(id, loc),
        frozen,
    );
    turn(s, 3, q)
}

// 4
pub fn write_back_table_resp(s: State, id: u64) -> State {
    let loc = table_place(s.device, true);
    let q = bare(
        0,
        VersionOp::SendFrozenLocOp(loc),
        DiskOp::RespWriteIndirectionTableOp(id),
    );
    turn(s, 4, q)
}

// 5
pub fn unalloc(s: State, r: u64) -> State {
    let q = bare(r, VersionOp::AdvanceOp(true), DiskOp::NoDiskOp);
    turn(s, 5, q)
}

// 6
pub fn page_in_node_req(s: State, r: u64, id: u64, block: u64) -> State {
    let loc = node_place(s.device, block);
    let q = bare(
        r,
        VersionOp::StatesInternalOp,
        DiskOp::ReqReadNodeOp(id, loc),
    );
    turn(s, 6, q)
}

// 7
pub fn page_in_node_resp(s: State, id: u64, node: Node) -> State {
    let q = with_node(
        0,
        VersionOp::StatesInternalOp,
        DiskOp::RespReadNodeOp(id, Brought::Something),
        node,
    );
    turn(s, 7, q)
}

// 8
pub fn page_in_table_req(s: State, id: u64, second: bool) -> State {
    let loc = table_place(s.device, second);
    let q = bare(
        0,
        VersionOp::StatesInternalOp,
        DiskOp::ReqReadIndirectionTableOp(id, loc),
    );
    turn(s, 8, q)
}

fn stored_table(s: State, second: bool) -> Table {
    let o = s.store;
    let d = o.disk;
    let records = d.records;
    let tables = records.tables;
    let one = tables[0];
    let two = tables[1];
    if second { two.held } else { one.held }
}

// 9
pub fn page_in_table_resp(s: State, id: u64, second: bool) -> State {
    let table = stored_table(s, second);
    let q = with_table(
        VersionOp::StatesInternalOp,
        DiskOp::RespReadIndirectionTableOp(id, Brought::Something),
        table,
    );
    turn(s, 9, q)
}

// 10
pub fn receive_loc(s: State, second: bool) -> State {
    let loc = table_place(s.device, second);
    let q = bare(0, VersionOp::SendPersistentLocOp(loc), DiskOp::NoDiskOp);
    turn(s, 10, q)
}

// 11
pub fn evict(s: State, r: u64) -> State {
    let q = bare(r, VersionOp::StatesInternalOp, DiskOp::NoDiskOp);
    turn(s, 11, q)
}

// 12
pub fn freeze(s: State) -> State {
    let q = bare(0, VersionOp::FreezeOp, DiskOp::NoDiskOp);
    turn(s, 12, q)
}

// 13
pub fn clean_up(s: State) -> State {
    let q = bare(0, VersionOp::CleanUpOp, DiskOp::NoDiskOp);
    turn(s, 13, q)
}

// 14
pub fn no_op(s: State, dop: DiskOp) -> State {
    let q = bare(0, VersionOp::PushSyncOp, dop);
    turn(s, 14, q)
}

// 15
pub fn dirty(s: State, r: u64, node: Node) -> State {
    let q = with_node(r, VersionOp::AdvanceOp(false), DiskOp::NoDiskOp, node);
    turn(s, 15, q)
}

// 16
pub fn alloc(s: State, r: u64, node: Node) -> State {
    let q = with_node(r, VersionOp::AdvanceOp(false), DiskOp::NoDiskOp, node);
    turn(s, 16, q)
}

// 17
pub fn read(s: State, r: u64) -> State {
    let q = bare(r, VersionOp::StatesInternalOp, DiskOp::NoDiskOp);
    turn(s, 17, q)
}

// 18, offering what is stored
pub fn crash(s: State, vop: VersionOp) -> State {
    let q = bare(0, vop, DiskOp::NoDiskOp);
    turn(s, 18, q)
}

// 18, offering nothing
pub fn crash_to_nothing(s: State) -> State {
    let q = bare(0, VersionOp::CrashOp, DiskOp::NoDiskOp);
    let offered = disk::empty_records();
    offer(s, 18, q, offered)
}

// 19, the read of a node, with nothing brought
pub fn let_go(s: State, id: u64) -> State {
    let q = bare(
        0,
        VersionOp::StatesInternalOp,
        DiskOp::RespReadNodeOp(id, Brought::Nothing),
    );
    turn(s, 19, q)
}

// 20, with the first n operations of the list
pub fn transaction(s: State, list: [Operation; 40], n: usize) -> State {
    let q = bare(0, VersionOp::AdvanceOp(false), DiskOp::NoDiskOp);
    offer_list(s, q, list, n)
}

// A number that no step has.
pub fn no_step(s: State, number: u64) -> State {
    let q = bare(0, VersionOp::StatesInternalOp, DiskOp::NoDiskOp);
    turn(s, number, q)
}
