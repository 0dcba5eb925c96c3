// Number 1: what a phase doesn't have, flags that are off, records and queued places, and numbers outside their range.
use blockcache::{Awaited, CacheState, Phase, Settings};
use blockdisk::{DiskCall, DiskOp, Record};
use cache::Cache;
use disk::Disk;
use disklayout::Location;
use fixtures::show::{cache_answer, cache_form, disk_form, internal, line, no_op_call, pair};
use fixtures::{
    AREA1, AREA2, BLOCK0, BLOCK1, DiskQueue, RULE_1, absent_record, at, high_leaf, in_phase, leaf,
    marked_on, one, put_node, put_table, queued, ready, storing, two_entries, with_cached,
    with_ephemeral, with_frozen, with_frozen_place, with_persistent, with_reads, with_writes,
};
use output::Output;
use sectortype::{Node, Table};

fn with_awaited(c: CacheState, waiting: bool, id: u64) -> CacheState {
    let mut next = c;
    let a = Awaited { waiting, id };
    next.awaited = a;
    next
}

fn with_place(c: CacheState, loc: Location) -> CacheState {
    let mut next = c;
    let mut ps = next.places;
    ps.persistent = loc;
    next.places = ps;
    next
}

// One outstanding write and one read of a reference, and a read that has a location.
fn outstanding(out: &mut Output) {
    let c = ready();
    let loc = at(BLOCK0, 4096);
    let nowhere = sector::zero_loc();
    let w63 = one(1, 63, loc);
    let w64 = one(1, 64, loc);
    let r63 = one(1, 63, nowhere);
    let r64 = one(1, 64, nowhere);
    let placed = one(1, 1, loc);
    let s = with_writes(c, w63);
    let t = with_writes(c, w64);
    let u = with_reads(c, r63);
    let v = with_reads(c, r64);
    let w = with_reads(c, placed);
    let a = cache_form(s);
    let b = cache_form(t);
    let d = cache_form(u);
    let e = cache_form(v);
    let f = cache_form(w);
    line(out, b"cache_write_of_reference_63", a);
    line(out, b"cache_write_of_reference_64", b);
    line(out, b"cache_read_of_reference_63", d);
    line(out, b"cache_read_of_reference_64", e);
    line(out, b"cache_read_with_a_location", f);
}

// A flag is off and what it stands beside is there.
fn flags(out: &mut Output) {
    let c = ready();
    let t = two_entries();
    let loc = at(AREA2, 4096);
    let frozen = with_frozen(c, false, t);
    let place = with_frozen_place(c, false, loc);
    let awaited = with_awaited(c, false, 5);
    let a = cache_form(frozen);
    let b = cache_form(place);
    let d = cache_form(awaited);
    line(out, b"frozen_flag_off_with_a_frozen_table", a);
    line(out, b"frozen_place_flag_off_with_a_place", b);
    line(out, b"awaited_flag_off_with_an_id", d);
}

// A Ready cache in whose slot 1 this node stands, though the slot is absent.
fn absent_cached(node: Node) -> CacheState {
    let c = ready();
    let mut absent = with_cached(c, 1, node);
    let mut m = absent.nodes;
    let mut slots = m.slots;
    let mut slot = slots[1];
    slot.present = false;
    slots[1] = slot;
    m.slots = slots;
    m.count = 0;
    absent.nodes = m;
    absent
}

// Cached nodes: a slot that is absent and zeros, not zeros, or zeros but for its high; a wrong count.
fn cached(out: &mut Output) {
    let node = leaf(9);
    let c = ready();
    let good = with_cached(c, 1, node);
    let absent = absent_cached(node);
    let none = sector::zero_node();
    let zeros = absent_cached(none);
    let high = high_leaf(1, 0);
    let higher = absent_cached(high);
    let mut wrong = good;
    let mut n = wrong.nodes;
    n.count = 2;
    wrong.nodes = n;
    let a = cache_form(good);
    let b = cache_form(absent);
    let d = cache_form(wrong);
    let e = cache_form(zeros);
    let f = cache_form(higher);
    line(out, b"cached_nodes_of_one_reference", a);
    line(out, b"cached_nodes_with_an_absent_one_that_is_not_zeros", b);
    line(out, b"cached_nodes_with_a_wrong_count", d);
    line(out, b"cached_nodes_with_an_absent_one_of_zeros", e);
    line(
        out,
        b"cached_nodes_with_an_absent_one_that_has_high_alone",
        f,
    );
}

// Neither phase before Ready has a table, a frozen place, a node, or a node request outstanding.
fn before_ready(out: &mut Output, name: &[u8], c: CacheState) {
    let t = two_entries();
    let none = sector::empty_table();
    let node = leaf(9);
    let loc = at(AREA2, 4096);
    let nowhere = sector::zero_loc();
    let q = one(1, 1, nowhere);
    let p = with_persistent(c, t);
    let e = with_ephemeral(c, t);
    let f = with_frozen(c, true, none);
    let g = with_frozen_place(c, true, loc);
    let w = with_writes(c, q);
    let r = with_reads(c, q);
    let n = with_cached(c, 1, node);
    state(out, name, b"with_nothing_more", c);
    state(out, name, b"with_a_persistent_table", p);
    state(out, name, b"with_an_ephemeral_table", e);
    state(out, name, b"with_a_frozen_table", f);
    state(out, name, b"with_a_frozen_place", g);
    state(out, name, b"with_a_write", w);
    state(out, name, b"with_a_read", r);
    state(out, name, b"with_a_cached_node", n);
}

fn state(out: &mut Output, name: &[u8], what: &[u8], c: CacheState) {
    let a = cache_form(c);
    pair(out, name, what, a);
}

fn phases(out: &mut Output) {
    let unready = cache::empty_cache();
    let loc = at(AREA1, 4096);
    let place = with_place(unready, loc);
    let waiting = with_awaited(unready, true, 5);
    let awaiting = with_awaited(place, true, 5);
    let phase = Phase::Loading;
    let loading = in_phase(awaiting, phase);
    before_ready(out, b"unready_cache", unready);
    state(out, b"unready_cache", b"with_a_place", place);
    state(out, b"unready_cache", b"with_an_awaited_read", waiting);
    before_ready(out, b"loading_cache", loading);
}

fn stored_node(out: &mut Output, name: &[u8], x: Record<Node>) {
    let none = disk::empty_records();
    let r = put_node(none, 1, x);
    let s = storing(r);
    let a = disk_form(s);
    line(out, name, a);
}

fn stored_table(out: &mut Output, name: &[u8], x: Record<Table>) {
    let none = disk::empty_records();
    let r = put_table(none, 1, x);
    let s = storing(r);
    let a = disk_form(s);
    line(out, name, a);
}

// Block 1: its own place is (327680, 1 to 65536).
fn node_records(out: &mut Output) {
    let node = leaf(9);
    let none = sector::zero_node();
    let own = at(BLOCK1, 1);
    let other = at(BLOCK0, 1);
    let short = at(BLOCK1, 0);
    let nowhere = sector::zero_loc();
    let good = disk::present(own, node);
    let absent = absent_record(nowhere, node);
    let high = high_leaf(1, 0);
    let higher = absent_record(nowhere, high);
    let placed = absent_record(own, none);
    let moved = disk::present(other, node);
    let empty = disk::present(short, node);
    stored_node(out, b"stored_node_in_its_own_block", good);
    stored_node(out, b"stored_node_in_another_block", moved);
    stored_node(out, b"stored_node_of_length_0", empty);
    stored_node(out, b"absent_node_record_with_contents", absent);
    stored_node(out, b"absent_node_record_with_high_alone", higher);
    stored_node(out, b"absent_node_record_with_a_place", placed);
}

// Area 2: its own place is (139264, 1 to 65536).
fn table_records(out: &mut Output) {
    let table = two_entries();
    let none = sector::empty_table();
    let own = at(AREA2, 1);
    let other = at(AREA1, 1);
    let short = at(AREA2, 0);
    let nowhere = sector::zero_loc();
    let good = disk::present(own, table);
    let absent = absent_record(nowhere, table);
    let placed = absent_record(own, none);
    let moved = disk::present(other, table);
    let empty = disk::present(short, table);
    stored_table(out, b"stored_table_in_its_own_area", good);
    stored_table(out, b"stored_table_in_the_other_area", moved);
    stored_table(out, b"stored_table_of_length_0", empty);
    stored_table(out, b"absent_table_record_with_a_table", absent);
    stored_table(out, b"absent_table_record_with_a_place", placed);
}

// A queue of the disk with one request.
fn queue_place(
    out: &mut Output,
    name: &[u8],
    what: &[u8],
    which: DiskQueue,
    reference: u8,
    loc: Location,
) {
    let q = one(1, reference, loc);
    let s = queued(which, q);
    let a = disk_form(s);
    pair(out, name, what, a);
}

// A place that 16 forbids; and the disk's requests have no reference.
fn queue_places(out: &mut Output, name: &[u8], which: DiskQueue, addr: u64) {
    let good = at(addr, 1);
    let short = at(addr, 0);
    let long = at(addr, 65537);
    queue_place(out, name, b"with_an_allowed_place", which, 0, good);
    queue_place(out, name, b"with_a_place_of_length_0", which, 0, short);
    queue_place(out, name, b"with_a_place_of_length_65537", which, 0, long);
    queue_place(out, name, b"with_a_reference", which, 1, good);
}

// A device above 2; a rule that is neither 1 nor 2, which a step on the cache names and a disk carries. The cache has the marks that its tables make on
// that device.
fn settings(out: &mut Output, name: &[u8], device: u64, rule: u64) {
    let loaded = ready();
    let c = marked_on(device, loaded);
    let q = no_op_call();
    let none = disk::empty_records();
    let mut s = storing(none);
    s.rule = rule;
    let node = sector::zero_node();
    let table = sector::empty_table();
    let op = DiskOp::NoDiskOp;
    let call = DiskCall { op, node, table };
    let named = Settings { device, rule };
    let a = Cache {
        settings: named,
        state: c,
    }
    .step(14, q);
    let b = Disk { device, state: s }.next(call);
    let d = Disk { device, state: s }.crash(none);
    pair(out, b"cache_on", name, a.answer);
    pair(out, b"disk_on", name, b.answer);
    pair(out, b"crash_of_the_disk_on", name, d.answer);
}

// A step outside 1 to 20, a reference above 63. Step 19 without an answer gives 3.
fn numbers(out: &mut Output) {
    let c = ready();
    let q = no_op_call();
    let a = cache_answer(c, 0, q);
    let b = cache_answer(c, 19, q);
    let d = cache_answer(c, 18446744073709551615, q);
    let g = cache_answer(c, 21, q);
    let dop = DiskOp::NoDiskOp;
    let node = sector::zero_node();
    let last = internal(63, dop, node);
    let above = internal(64, dop, node);
    let e = cache_answer(c, 14, last);
    let f = cache_answer(c, 14, above);
    line(out, b"cache_step_0", a);
    line(out, b"cache_step_19", b);
    line(out, b"cache_step_21", g);
    line(out, b"cache_step_18446744073709551615", d);
    line(out, b"cache_call_with_reference_63", e);
    line(out, b"cache_call_with_reference_64", f);
}

pub(crate) fn run(out: &mut Output) {
    outstanding(out);
    flags(out);
    cached(out);
    phases(out);
    node_records(out);
    table_records(out);
    queue_places(out, b"table_reads", DiskQueue::TableReads, AREA1);
    queue_places(out, b"node_reads", DiskQueue::NodeReads, BLOCK0);
    queue_places(out, b"table_writes", DiskQueue::TableWrites, AREA1);
    queue_places(out, b"node_writes", DiskQueue::NodeWrites, BLOCK0);
    settings(out, b"device_2", 2, RULE_1);
    settings(out, b"device_3", 3, RULE_1);
    numbers(out);
    settings(out, b"rule_0", 0, 0);
    settings(out, b"rule_1", 0, 1);
    settings(out, b"rule_2", 0, 2);
    settings(out, b"rule_3", 0, 3);
    settings(out, b"rule_18446744073709551615", 0, 18446744073709551615);
}
