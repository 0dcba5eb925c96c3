// The chooser judges the disk too: the state of a joined call is cache and disk, and number 1 is given where either is out of its written
// form (document 01). The cache is `ready`, of which blocks 0 and 1 are marked and block 127 was given last; so on a disk in its form
// block 2 is given, of 126, at 393216.
use crate::choose_cases::{asked_with, full};
use blockdisk::{DiskState, Record};
use fixtures::{
    AREA2, BLOCK0, BLOCK1, DiskQueue, absent_record, at, leaf, loading, one, put_node, put_table,
    queue_of, queued, ready, stored, storing, two_entries, with_last,
};
use output::Output;
use queue::{Request, Requests};
use sectortype::{Node, Table};

fn on(out: &mut Output, name: &[u8], disk: DiskState) {
    let c = ready();
    asked_with(out, name, 0, c, disk);
}

// Ids 2 and 1, in this order, at one place.
fn out_of_order(addr: u64) -> Requests {
    let loc = at(addr, 4096);
    let mut q = queue_of(2, loc);
    let high = Request {
        id: 2,
        reference: 0,
        loc,
    };
    let low = Request {
        id: 1,
        reference: 0,
        loc,
    };
    q.at[0] = high;
    q.at[1] = low;
    q
}

// A node in block 0, a table in area 1, two outstanding reads: the disk's records and queues mark no block, the cache's tables and writes
// do.
fn in_form(out: &mut Output) {
    let loc = at(BLOCK0, 4096);
    let q = queue_of(2, loc);
    let waiting = queued(DiskQueue::NodeReads, q);
    let r = stored();
    let mut both = storing(r);
    let queues = waiting.queues;
    both.queues = queues;
    on(out, b"on_a_disk_with_records_and_reads", both);
}

// The disk that has this record of block 0.
fn with_node(x: Record<Node>) -> DiskState {
    let none = disk::empty_records();
    let r = put_node(none, 0, x);
    storing(r)
}

// The disk that has this record of area 1.
fn with_table(x: Record<Table>) -> DiskState {
    let none = disk::empty_records();
    let r = put_table(none, 0, x);
    storing(r)
}

// Of block 0 a record whose place is block 1's, or a byte past block 0's, or that is absent and has a place; of area 1 one whose place is
// area 2's.
fn records(out: &mut Output) {
    let node = leaf(7);
    let other = at(BLOCK1, 4096);
    let odd = at(262145, 4096);
    let here = at(BLOCK0, 4096);
    let area = at(AREA2, 4096);
    let table = two_entries();
    let a = disk::present(other, node);
    let b = disk::present(odd, node);
    let c = absent_record(here, node);
    let d = disk::present(area, table);
    let e = with_node(a);
    let f = with_node(b);
    let g = with_node(c);
    let h = with_table(d);
    on(out, b"on_a_disk_with_a_node_out_of_its_block", e);
    on(out, b"on_a_disk_with_a_node_past_its_block", f);
    on(out, b"on_a_disk_with_an_absent_node_that_has_a_place", g);
    on(out, b"on_a_disk_with_a_table_out_of_its_area", h);
}

// Each of the four queues with id 2 before id 1, at a place that 16 allows; and a read at a place that it doesn't.
fn queues(out: &mut Output) {
    let tables = out_of_order(AREA2);
    let nodes = out_of_order(BLOCK0);
    let odd = at(262145, 4096);
    let nowhere = one(1, 0, odd);
    let a = queued(DiskQueue::TableReads, tables);
    let b = queued(DiskQueue::NodeReads, nodes);
    let c = queued(DiskQueue::TableWrites, tables);
    let d = queued(DiskQueue::NodeWrites, nodes);
    let e = queued(DiskQueue::NodeReads, nowhere);
    on(out, b"on_a_disk_with_table_reads_out_of_order", a);
    on(out, b"on_a_disk_with_node_reads_out_of_order", b);
    on(out, b"on_a_disk_with_table_writes_out_of_order", c);
    on(out, b"on_a_disk_with_node_writes_out_of_order", d);
    on(out, b"on_a_disk_with_a_read_at_no_block", e);
}

// 1 before 4 and before 21, for the disk as for the cache.
fn first(out: &mut Output) {
    let nodes = out_of_order(BLOCK0);
    let disk = queued(DiskQueue::NodeReads, nodes);
    let unready = cache::empty_cache();
    let loads = loading();
    let all = full();
    let last = with_last(all, 5);
    asked_with(out, b"unready_on_a_disk_out_of_form", 0, unready, disk);
    asked_with(out, b"loading_on_a_disk_out_of_form", 0, loads, disk);
    asked_with(out, b"all_marked_on_a_disk_out_of_form", 0, last, disk);
}

pub(crate) fn run(out: &mut Output) {
    in_form(out);
    records(out);
    queues(out);
    first(out);
}
