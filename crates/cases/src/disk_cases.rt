// The disk's numbers 15, 16, 17 and 18. Each is asked of each of the four queues.
use blockdisk::{Brought, DiskCall, DiskOp, DiskState, Queues};
use disk::Disk;
use disklayout::Location;
use fixtures::show::{disk_answer, disk_brings, line, pair};
use fixtures::{
    AREA1, AREA2, BLOCK0, DiskQueue, at, high_leaf, leaf, queue_of, stored, storing, two_entries,
};
use output::Output;
use queue::{Request, Requests};
use sectortype::{Node, Table};

fn request_of(which: DiskQueue, id: u64, loc: Location) -> DiskOp {
    match which {
        DiskQueue::TableReads => DiskOp::ReqReadIndirectionTableOp(id, loc),
        DiskQueue::NodeReads => DiskOp::ReqReadNodeOp(id, loc),
        DiskQueue::TableWrites => DiskOp::ReqWriteIndirectionTableOp(id, loc),
        DiskQueue::NodeWrites => DiskOp::ReqWriteNodeOp(id, loc),
    }
}

// A read answer brings nothing here.
fn answer_of(which: DiskQueue, id: u64) -> DiskOp {
    match which {
        DiskQueue::TableReads => DiskOp::RespReadIndirectionTableOp(id, Brought::Nothing),
        DiskQueue::NodeReads => DiskOp::RespReadNodeOp(id, Brought::Nothing),
        DiskQueue::TableWrites => DiskOp::RespWriteIndirectionTableOp(id),
        DiskQueue::NodeWrites => DiskOp::RespWriteNodeOp(id),
    }
}

// A place that 16 allows.
fn allowed(which: DiskQueue) -> Location {
    match which {
        DiskQueue::TableReads | DiskQueue::TableWrites => at(AREA1, 4096),
        DiskQueue::NodeReads | DiskQueue::NodeWrites => at(BLOCK0, 4096),
    }
}

// So many in one queue, so many in each of the other three.
fn filled(which: DiskQueue, own: u64, others: u64) -> DiskState {
    let size = |q: DiskQueue| if q == which { own } else { others };
    let full = |q: DiskQueue| queue_of(size(q), allowed(q));
    let mut disk = storing(disk::empty_records());
    disk.queues = Queues {
        tablereads: full(DiskQueue::TableReads),
        nodereads: full(DiskQueue::NodeReads),
        tablewrites: full(DiskQueue::TableWrites),
        nodewrites: full(DiskQueue::NodeWrites),
    };
    disk
}

// A request at a place that 16 allows.
fn asked(which: DiskQueue, s: DiskState, id: u64) -> u64 {
    let loc = allowed(which);
    let op = request_of(which, id, loc);
    disk_answer(s, op)
}

// 18 with sixteen in the request's own queue and none in the others, 0 with fifteen and sixteen in the others; 15 under an id of its
// own queue, and before 18; 16 before 18.
fn requests(out: &mut Output, name: &[u8], which: DiskQueue) {
    let full = filled(which, 16, 0);
    let room = filled(which, 15, 16);
    let nowhere = sector::zero_loc();
    let wrong = request_of(which, 99, nowhere);
    let a = asked(which, full, 99);
    let b = asked(which, room, 99);
    let c = asked(which, room, 15);
    let d = asked(which, room, 16);
    let e = asked(which, full, 1);
    let f = disk_answer(full, wrong);
    pair(out, name, b"with_sixteen_queued", a);
    pair(out, name, b"with_fifteen_queued", b);
    pair(out, name, b"under_a_queued_id", c);
    pair(out, name, b"under_an_id_of_the_other_queues", d);
    pair(out, name, b"under_a_queued_id_with_sixteen_queued", e);
    pair(out, name, b"at_a_forbidden_place_with_sixteen_queued", f);
}

// 15 where the id is not in the answer's own queue.
fn answers(out: &mut Output, name: &[u8], which: DiskQueue) {
    let s = filled(which, 15, 16);
    let unknown = answer_of(which, 99);
    let other = answer_of(which, 16);
    let known = answer_of(which, 15);
    let a = disk_answer(s, unknown);
    let b = disk_answer(s, other);
    let c = disk_answer(s, known);
    pair(out, name, b"under_an_id_not_queued", a);
    pair(out, name, b"under_an_id_of_the_other_queues", b);
    pair(out, name, b"under_a_queued_id", c);
}

// A request on an empty disk.
fn edge(which: DiskQueue, addr: u64, len: u64) -> u64 {
    let s = filled(which, 0, 0);
    let loc = at(addr, len);
    let op = request_of(which, 1, loc);
    disk_answer(s, op)
}

fn table_edges(out: &mut Output, name: &[u8], which: DiskQueue) {
    let a = edge(which, AREA1, 0);
    let b = edge(which, AREA1, 1);
    let c = edge(which, AREA1, 65536);
    let d = edge(which, AREA1, 65537);
    let e = edge(which, 73729, 1);
    let f = edge(which, AREA2, 1);
    pair(out, name, b"at_73728_length_0", a);
    pair(out, name, b"at_73728_length_1", b);
    pair(out, name, b"at_73728_length_65536", c);
    pair(out, name, b"at_73728_length_65537", d);
    pair(out, name, b"at_73729_length_1", e);
    pair(out, name, b"at_139264_length_1", f);
}

fn node_edges(out: &mut Output, name: &[u8], which: DiskQueue) {
    let a = edge(which, BLOCK0, 0);
    let b = edge(which, BLOCK0, 1);
    let c = edge(which, BLOCK0, 65536);
    let d = edge(which, BLOCK0, 65537);
    let e = edge(which, 196608, 1);
    let f = edge(which, 262145, 1);
    let g = edge(which, 8585216, 1);
    let h = edge(which, 8650752, 1);
    pair(out, name, b"at_262144_length_0", a);
    pair(out, name, b"at_262144_length_1", b);
    pair(out, name, b"at_262144_length_65536", c);
    pair(out, name, b"at_262144_length_65537", d);
    pair(out, name, b"at_196608_length_1", e);
    pair(out, name, b"at_262145_length_1", f);
    pair(out, name, b"in_the_last_block", g);
    pair(out, name, b"past_the_last_block", h);
}

// Two reads at this address: id 1 with length 8192, id 2 with length 4096.
fn reads_at(addr: u64) -> Requests {
    let q = queue::empty();
    let longer = at(addr, 8192);
    let exact = at(addr, 4096);
    let v = Request {
        id: 1,
        reference: 0,
        loc: longer,
    };
    let w = Request {
        id: 2,
        reference: 0,
        loc: exact,
    };
    let p = queue::insert(q, v);
    queue::insert(p, w)
}

// Both records are stored with length 4096.
fn reading() -> DiskState {
    let records = stored();
    let mut queues = disk::empty_queues();
    let p = reads_at(AREA1);
    let q = reads_at(BLOCK0);
    queues.tablereads = p;
    queues.nodereads = q;
    let mut s = storing(records);
    s.queues = queues;
    s
}

fn node_brought(id: u64, node: Node) -> u64 {
    let s = reading();
    let op = DiskOp::RespReadNodeOp(id, Brought::Something);
    disk_brings(s, op, node)
}

fn table_brought(id: u64, table: Table) -> u64 {
    let s = reading();
    let node = sector::zero_node();
    let op = DiskOp::RespReadIndirectionTableOp(id, Brought::Something);
    let call = DiskCall { op, node, table };
    let o = Disk {
        device: 0,
        state: s,
    }
    .next(call);
    o.answer
}

// 17: only what is stored at exactly the address and length that were asked for may be brought.
fn brought(out: &mut Output) {
    let t = two_entries();
    let none = sector::empty_table();
    let node = leaf(7);
    let other = leaf(8);
    let higher = high_leaf(1, 7);
    let a = node_brought(2, node);
    let b = node_brought(1, node);
    let c = node_brought(2, other);
    let d = node_brought(2, higher);
    let e = table_brought(2, t);
    let f = table_brought(1, t);
    let g = table_brought(2, none);
    line(out, b"node_answer_at_the_stored_length", a);
    line(out, b"node_answer_at_another_length", b);
    line(out, b"node_answer_with_another_node", c);
    line(out, b"node_answer_with_another_high", d);
    line(out, b"table_answer_at_the_stored_length", e);
    line(out, b"table_answer_at_another_length", f);
    line(out, b"table_answer_with_another_table", g);
}

pub(crate) fn run(out: &mut Output) {
    requests(out, b"table_read_request", DiskQueue::TableReads);
    requests(out, b"node_read_request", DiskQueue::NodeReads);
    requests(out, b"table_write_request", DiskQueue::TableWrites);
    requests(out, b"node_write_request", DiskQueue::NodeWrites);
    answers(out, b"table_read_answer", DiskQueue::TableReads);
    answers(out, b"node_read_answer", DiskQueue::NodeReads);
    answers(out, b"table_write_answer", DiskQueue::TableWrites);
    answers(out, b"node_write_answer", DiskQueue::NodeWrites);
    table_edges(out, b"table_read_request", DiskQueue::TableReads);
    table_edges(out, b"table_write_request", DiskQueue::TableWrites);
    node_edges(out, b"node_read_request", DiskQueue::NodeReads);
    node_edges(out, b"node_write_request", DiskQueue::NodeWrites);
    brought(out);
}
