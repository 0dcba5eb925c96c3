// Number 1: lists, tables and queues that are not in their written form, at each place where one can stand.
use blockdisk::{DiskCall, DiskOp, DiskState, Records};
use disk::Disk;
use disklayout::Location;
use fixtures::show::{
    cache_answer, cache_form, crash_answer, disk_brings, disk_form, internal, no_op_call, pair,
};
use fixtures::{
    AREA1, BLOCK0, BLOCK1, DiskQueue, at, entry_at, entry_nowhere, put_node, put_table, queue_of,
    queued, ready, storing, two_entries, with_cached, with_ephemeral, with_frozen, with_persistent,
    with_reads, with_writes,
};
use output::Output;
use queue::Requests;
use sectortype::{Node, Succs, Table};

fn node_in_cache(out: &mut Output, kind: &[u8], n: Node) {
    let c = ready();
    let cached = with_cached(c, 1, n);
    let dop = DiskOp::NoDiskOp;
    let q = internal(0, dop, n);
    let a = cache_answer(c, 14, q);
    let b = cache_form(cached);
    pair(out, b"cache_call_node", kind, a);
    pair(out, b"cached_node", kind, b);
}

fn node_on_disk(out: &mut Output, kind: &[u8], n: Node) {
    let none = disk::empty_records();
    let queues = disk::empty_queues();
    let s = storing(none);
    let op = DiskOp::NoDiskOp;
    let loc = at(BLOCK0, 4096);
    let x = disk::present(loc, n);
    let r = put_node(none, 0, x);
    let t = storing(r);
    let a = disk_brings(s, op, n);
    let b = disk_form(t);
    let c = crash_answer(none, queues, r);
    pair(out, b"disk_call_node", kind, a);
    pair(out, b"stored_node", kind, b);
    pair(out, b"offered_node", kind, c);
}

// A table whose root has this list.
fn listing(s: Succs) -> Table {
    let mut e = entry_at(BLOCK0);
    e.succs = s;
    let none = sector::empty_table();
    sector::with_entry(none, 0, e)
}

fn list_everywhere(out: &mut Output, kind: &[u8], s: Succs) {
    let mut n = sector::zero_node();
    n.succs = s;
    node_in_cache(out, kind, n);
    node_on_disk(out, kind, n);
    let t = listing(s);
    let c = ready();
    let listed = with_ephemeral(c, t);
    let a = cache_form(listed);
    pair(out, b"ephemeral_list", kind, a);
}

fn lists(out: &mut Output) {
    let eight = Succs {
        count: 8,
        at: [63; 8],
    };
    let nine = Succs {
        count: 9,
        at: [63; 8],
    };
    let mut places: [u8; 8] = [0; 8];
    places[0] = 64;
    let above = Succs {
        count: 1,
        at: places,
    };
    places[0] = 1;
    places[1] = 1;
    let past = Succs {
        count: 1,
        at: places,
    };
    list_everywhere(out, b"naming_63_eight_times", eight);
    list_everywhere(out, b"with_a_list_of_nine", nine);
    list_everywhere(out, b"naming_64", above);
    list_everywhere(out, b"with_a_nonzero_place_past_the_count", past);
}

fn table_in_cache(out: &mut Output, kind: &[u8], t: Table) {
    let c = ready();
    let p = with_persistent(c, t);
    let e = with_ephemeral(c, t);
    let f = with_frozen(c, true, t);
    let mut q = no_op_call();
    q.table = t;
    let a = cache_form(p);
    let b = cache_form(e);
    let d = cache_form(f);
    let g = cache_answer(c, 14, q);
    pair(out, b"persistent_table", kind, a);
    pair(out, b"ephemeral_table", kind, b);
    pair(out, b"frozen_table", kind, d);
    pair(out, b"cache_call_table", kind, g);
}

fn disk_with_table(s: DiskState, table: Table) -> u64 {
    let node = sector::zero_node();
    let op = DiskOp::NoDiskOp;
    let call = DiskCall { op, node, table };
    let o = Disk {
        device: 0,
        state: s,
    }
    .next(call);
    o.answer
}

fn storing_table(t: Table) -> Records {
    let none = disk::empty_records();
    let loc = at(AREA1, 4096);
    let x = disk::present(loc, t);
    put_table(none, 0, x)
}

fn table_on_disk(out: &mut Output, kind: &[u8], t: Table) {
    let none = disk::empty_records();
    let queues = disk::empty_queues();
    let s = storing(none);
    let r = storing_table(t);
    let stored = storing(r);
    let a = disk_with_table(s, t);
    let b = disk_form(stored);
    let c = crash_answer(none, queues, r);
    pair(out, b"disk_call_table", kind, a);
    pair(out, b"stored_table", kind, b);
    pair(out, b"offered_table", kind, c);
}

fn table_everywhere(out: &mut Output, kind: &[u8], t: Table) {
    table_in_cache(out, kind, t);
    table_on_disk(out, kind, t);
}

// Reference 1 is allocated; the flag of its location is off and the location is there.
fn place_without_flag() -> Table {
    let loc = at(BLOCK1, 4096);
    let mut e = entry_nowhere();
    e.loc = loc;
    let t = two_entries();
    sector::with_entry(t, 1, e)
}

// Reference 2 is not allocated and has a location.
fn unallocated_place() -> Table {
    let mut e = entry_at(BLOCK1);
    e.allocated = false;
    let t = two_entries();
    sector::with_entry(t, 2, e)
}

// Reference 2 is not allocated and has a list.
fn unallocated_list() -> Table {
    let s = Succs {
        count: 1,
        at: [0; 8],
    };
    let mut e = sector::zero_entry();
    e.succs = s;
    let t = two_entries();
    sector::with_entry(t, 2, e)
}

fn tables(out: &mut Output) {
    let good = two_entries();
    let mut count = two_entries();
    count.count = 3;
    let flag = place_without_flag();
    let place = unallocated_place();
    let list = unallocated_list();
    table_everywhere(out, b"of_two_references", good);
    table_everywhere(out, b"with_a_wrong_count", count);
    table_everywhere(out, b"with_a_location_of_a_reference_not_located", flag);
    table_everywhere(out, b"with_a_location_of_an_unallocated_reference", place);
    table_everywhere(out, b"with_a_list_of_an_unallocated_reference", list);
}

// The queue of three with another id at its second place.
fn second_id(q: Requests, id: u64) -> Requests {
    let mut next = q;
    let mut places = next.at;
    let mut w = places[1];
    w.id = id;
    places[1] = w;
    next.at = places;
    next
}

// The queue with this id and nothing else at its fifth place.
fn fifth_id(q: Requests, id: u64) -> Requests {
    let mut next = q;
    let mut places = next.at;
    let mut w = places[4];
    w.id = id;
    places[4] = w;
    next.at = places;
    next
}

// What is wrong with a queue.
#[derive(Clone, Copy)]
enum Wrong {
    Nothing,
    // Ids 1, 7, 3.
    Order,
    // Ids 1, 1, 3.
    Twice,
    // A nonzero place past the count.
    Past,
    // A count of 17.
    Count,
}

fn queue_with(wrong: Wrong, loc: Location) -> Requests {
    let three = queue_of(3, loc);
    let mut many = queue_of(16, loc);
    many.count = 17;
    match wrong {
        Wrong::Nothing => three,
        Wrong::Order => second_id(three, 7),
        Wrong::Twice => second_id(three, 1),
        Wrong::Past => fifth_id(three, 9),
        Wrong::Count => many,
    }
}

fn queue_on_disk(out: &mut Output, name: &[u8], wrong: Wrong) {
    let table = at(AREA1, 4096);
    let node = at(BLOCK0, 4096);
    let p = queue_with(wrong, table);
    let q = queue_with(wrong, node);
    let r = queued(DiskQueue::TableReads, p);
    let s = queued(DiskQueue::NodeReads, q);
    let t = queued(DiskQueue::TableWrites, p);
    let u = queued(DiskQueue::NodeWrites, q);
    let a = disk_form(r);
    let b = disk_form(s);
    let c = disk_form(t);
    let d = disk_form(u);
    pair(out, b"table_reads", name, a);
    pair(out, b"node_reads", name, b);
    pair(out, b"table_writes", name, c);
    pair(out, b"node_writes", name, d);
}

fn queue_everywhere(out: &mut Output, name: &[u8], wrong: Wrong) {
    queue_on_disk(out, name, wrong);
    let c = ready();
    let loc = at(BLOCK0, 4096);
    let nowhere = sector::zero_loc();
    let p = queue_with(wrong, loc);
    let q = queue_with(wrong, nowhere);
    let writes = with_writes(c, p);
    let reads = with_reads(c, q);
    let a = cache_form(writes);
    let b = cache_form(reads);
    pair(out, b"cache_writes", name, a);
    pair(out, b"cache_reads", name, b);
}

pub(crate) fn run(out: &mut Output) {
    lists(out);
    tables(out);
    queue_everywhere(out, b"of_three", Wrong::Nothing);
    queue_everywhere(out, b"out_of_order", Wrong::Order);
    queue_everywhere(out, b"with_an_id_twice", Wrong::Twice);
    queue_everywhere(out, b"with_a_nonzero_place_past_the_count", Wrong::Past);
    queue_everywhere(out, b"with_a_count_of_17", Wrong::Count);
}
