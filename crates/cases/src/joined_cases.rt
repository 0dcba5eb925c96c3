// The joined call: the lowest number of cache and disk, and where either refuses neither moves. After each case stands how many of
// the two have changed: none after a refusal, or after step 14 without an answer.
use blockcache::{Awaited, CacheState, Call, Phase, VersionOp};
use blockdisk::{Brought, DiskOp, DiskState, Records};
use disklayout::Location;
use fixtures::changed::changed;
use fixtures::show::{internal, no_op_call, pair};
use fixtures::{
    AREA1, AREA2, BLOCK1, BLOCK2, BLOCK3, DiskQueue, at, entry_at, in_phase, leaf, one, queue_of,
    queued, ready, stored, storing, two_entries, with_cached, with_ephemeral, with_frozen,
    with_frozen_place, with_reads, with_writes,
};
use output::Output;
use queue::Requests;
use system::Store;

fn both(
    out: &mut Output,
    name: &[u8],
    number: u64,
    q: Call,
    offered: Records,
    c: CacheState,
    s: DiskState,
) {
    let store = Store {
        device: 0,
        cache: c,
        disk: s,
    };
    let o = store.step(number, q, offered);
    let d = o.cache;
    let t = o.disk;
    let n = changed(c, d, s, t);
    pair(out, b"joined", name, o.answer);
    pair(out, b"changed_by", name, n);
}

pub(crate) fn joined(
    out: &mut Output,
    name: &[u8],
    number: u64,
    q: Call,
    c: CacheState,
    s: DiskState,
) {
    let offered = disk::empty_records();
    both(out, name, number, q, offered, c, s);
}

// A disk that stores nothing and has nothing outstanding.
pub(crate) fn empty() -> DiskState {
    let none = disk::empty_records();
    storing(none)
}

// Reference 1 cached with contents 9.
fn cached() -> CacheState {
    let c = ready();
    let node = leaf(9);
    with_cached(c, 1, node)
}

// Step 1: reference 1 to a place under an id.
fn write_call(id: u64, loc: Location) -> Call {
    let node = leaf(9);
    let dop = DiskOp::ReqWriteNodeOp(id, loc);
    internal(1, dop, node)
}

// n writes at block 2 in both the cache's and the disk's form.
fn writes(n: u64) -> Requests {
    let loc = at(BLOCK2, 4096);
    queue_of(n, loc)
}

fn step_1_ids(out: &mut Output) {
    let c = cached();
    let w = writes(1);
    let known = with_writes(c, w);
    let s = queued(DiskQueue::NodeWrites, w);
    let none = empty();
    let loc = at(BLOCK3, 4096);
    let q = write_call(1, loc);
    joined(out, b"step_1_accepted", 1, q, c, none);
    joined(
        out,
        b"step_1_with_5_of_the_cache_and_15_of_the_disk",
        1,
        q,
        known,
        s,
    );
    joined(out, b"step_1_with_5_of_the_cache_alone", 1, q, known, none);
    joined(out, b"step_1_with_15_of_the_disk_alone", 1, q, c, s);
}

fn step_1_limits(out: &mut Output) {
    let c = cached();
    let w = writes(16);
    let full = with_writes(c, w);
    let s = queued(DiskQueue::NodeWrites, w);
    let none = empty();
    let loc = at(BLOCK3, 4096);
    let past = at(8650752, 1);
    let q = write_call(99, loc);
    let r = write_call(99, past);
    joined(
        out,
        b"step_1_with_14_of_the_cache_and_18_of_the_disk",
        1,
        q,
        full,
        s,
    );
    joined(out, b"step_1_with_18_of_the_disk_alone", 1, q, c, s);
    joined(out, b"step_1_with_16_of_the_disk_alone", 1, r, c, none);
}

// Step 2 under id 1, which the cache awaits.
fn step_2(out: &mut Output) {
    let c = cached();
    let w = writes(1);
    let awaiting = with_writes(c, w);
    let s = queued(DiskQueue::NodeWrites, w);
    let none = empty();
    let dop = DiskOp::RespWriteNodeOp(1);
    let node = sector::zero_node();
    let q = internal(0, dop, node);
    joined(out, b"step_2_accepted", 2, q, awaiting, s);
    joined(
        out,
        b"step_2_with_15_of_the_disk_alone",
        2,
        q,
        awaiting,
        none,
    );
}

// n requests at table area 2.
pub(crate) fn table_requests(n: u64) -> Requests {
    let loc = at(AREA2, 4096);
    queue_of(n, loc)
}

// The frozen table, whole, to area 2 under id 1.
fn step_3(out: &mut Output) {
    let c = ready();
    let t = two_entries();
    let frozen = with_frozen(c, true, t);
    let p = table_requests(1);
    let r = table_requests(16);
    let known = queued(DiskQueue::TableWrites, p);
    let full = queued(DiskQueue::TableWrites, r);
    let none = empty();
    let loc = at(AREA2, 4096);
    let node = sector::zero_node();
    let dop = DiskOp::ReqWriteIndirectionTableOp(1, loc);
    let other = DiskOp::ReqWriteIndirectionTableOp(99, loc);
    let mut q = internal(0, dop, node);
    q.table = t;
    let mut x = internal(0, other, node);
    x.table = t;
    joined(out, b"step_3_accepted", 3, q, frozen, none);
    joined(
        out,
        b"step_3_with_15_of_the_disk_alone",
        3,
        q,
        frozen,
        known,
    );
    joined(out, b"step_3_with_18_of_the_disk_alone", 3, x, frozen, full);
}

// A table write to area 2 under id 1 is awaited.
pub(crate) fn awaiting_table() -> CacheState {
    let c = ready();
    let t = two_entries();
    let frozen = with_frozen(c, true, t);
    let loc = at(AREA2, 4096);
    let mut next = with_frozen_place(frozen, true, loc);
    let a = Awaited {
        waiting: true,
        id: 1,
    };
    next.awaited = a;
    next
}

// Its answer, as step 4 takes it.
pub(crate) fn table_written() -> Call {
    let loc = at(AREA2, 4096);
    let node = sector::zero_node();
    let table = sector::empty_table();
    let vop = VersionOp::SendFrozenLocOp(loc);
    let dop = DiskOp::RespWriteIndirectionTableOp(1);
    Call {
        reference: 0,
        vop,
        dop,
        node,
        table,
    }
}

fn step_4(out: &mut Output) {
    let c = awaiting_table();
    let p = table_requests(1);
    let s = queued(DiskQueue::TableWrites, p);
    let none = empty();
    let q = table_written();
    joined(out, b"step_4_accepted", 4, q, c, s);
    joined(out, b"step_4_with_15_of_the_disk_alone", 4, q, c, none);
}

// Step 6: reference 1 under an id.
fn read_call(id: u64, loc: Location) -> Call {
    let node = sector::zero_node();
    let dop = DiskOp::ReqReadNodeOp(id, loc);
    internal(1, dop, node)
}

// Reference 1 lies past the last block: a ValidNodeLocation, but in none of the 128 blocks.
fn past_the_blocks() -> CacheState {
    let c = ready();
    let t = two_entries();
    let e = entry_at(8650752);
    let u = sector::with_entry(t, 1, e);
    with_ephemeral(c, u)
}

fn step_6(out: &mut Output) {
    let c = ready();
    let past = past_the_blocks();
    let loc = at(BLOCK1, 4096);
    let beyond = at(8650752, 4096);
    let p = queue_of(1, loc);
    let r = queue_of(16, loc);
    let known = queued(DiskQueue::NodeReads, p);
    let full = queued(DiskQueue::NodeReads, r);
    let none = empty();
    let q = read_call(1, loc);
    let x = read_call(99, loc);
    let y = read_call(1, beyond);
    joined(out, b"step_6_accepted", 6, q, c, none);
    joined(out, b"step_6_with_15_of_the_disk_alone", 6, q, c, known);
    joined(out, b"step_6_with_16_of_the_disk_alone", 6, y, past, none);
    joined(out, b"step_6_with_18_of_the_disk_alone", 6, x, c, full);
}

// The cache awaits, under id 1, the node of this reference as well.
pub(crate) fn awaiting_node(c: CacheState, reference: u8) -> CacheState {
    let nowhere = sector::zero_loc();
    let reads = one(1, reference, nowhere);
    with_reads(c, reads)
}

// A disk that stores nothing, with a node read of block 1 queued under id 1.
pub(crate) fn node_read() -> DiskState {
    let loc = at(BLOCK1, 4096);
    let p = queue_of(1, loc);
    queued(DiskQueue::NodeReads, p)
}

pub(crate) fn node_answer(b: Brought) -> Call {
    let node = leaf(9);
    let dop = DiskOp::RespReadNodeOp(1, b);
    internal(0, dop, node)
}

// Step 7 under id 1: the disk stores nothing at the place asked for.
fn step_7(out: &mut Output) {
    let c = ready();
    let awaiting = awaiting_node(c, 1);
    let s = node_read();
    let none = empty();
    let q = node_answer(Brought::Something);
    joined(out, b"step_7_with_17_of_the_disk_alone", 7, q, awaiting, s);
    joined(
        out,
        b"step_7_with_15_of_the_disk_alone",
        7,
        q,
        awaiting,
        none,
    );
}

// A cache that is loading this place.
pub(crate) fn loading(loc: Location) -> CacheState {
    let unready = cache::empty_cache();
    let phase = Phase::Loading;
    let mut c = in_phase(unready, phase);
    let mut ps = c.places;
    ps.persistent = loc;
    c.places = ps;
    c
}

fn step_8(out: &mut Output) {
    let loc = at(AREA2, 4096);
    let wrong = at(AREA2, 0);
    let c = loading(loc);
    let d = loading(wrong);
    let p = table_requests(1);
    let r = table_requests(16);
    let known = queued(DiskQueue::TableReads, p);
    let full = queued(DiskQueue::TableReads, r);
    let none = empty();
    let node = sector::zero_node();
    let one = DiskOp::ReqReadIndirectionTableOp(1, loc);
    let many = DiskOp::ReqReadIndirectionTableOp(99, loc);
    let short = DiskOp::ReqReadIndirectionTableOp(1, wrong);
    let q = internal(0, one, node);
    let x = internal(0, many, node);
    let y = internal(0, short, node);
    joined(out, b"step_8_accepted", 8, q, c, none);
    joined(out, b"step_8_with_15_of_the_disk_alone", 8, q, c, known);
    joined(out, b"step_8_with_16_of_the_disk_alone", 8, y, d, none);
    joined(out, b"step_8_with_18_of_the_disk_alone", 8, x, c, full);
}

// A crash that is offered no records while a node and a table are stored.
fn crash(out: &mut Output) {
    let c = ready();
    let r = stored();
    let s = storing(r);
    let none = disk::empty_records();
    let node = sector::zero_node();
    let table = sector::empty_table();
    let vop = VersionOp::CrashOp;
    let dop = DiskOp::NoDiskOp;
    let q = Call {
        reference: 0,
        vop,
        dop,
        node,
        table,
    };
    let p = table_requests(1);
    let outstanding = queued(DiskQueue::TableWrites, p);
    both(out, b"crash_accepted", 18, q, none, c, outstanding);
    both(out, b"crash_with_19_of_the_disk_alone", 18, q, none, c, s);
}

// 1 of one of the two alone, and step numbers outside 1 to 20; step 19 without an answer gives 3, step 20 with this version operation 2.
fn forms(out: &mut Output) {
    let c = ready();
    let none = empty();
    let q = no_op_call();
    let nowhere = sector::zero_loc();
    let p = one(1, 0, nowhere);
    let broken = queued(DiskQueue::NodeWrites, p);
    let loc = at(AREA1, 4096);
    let r = one(1, 0, loc);
    let wrong = with_reads(c, r);
    joined(out, b"step_14_accepted", 14, q, c, none);
    joined(out, b"step_14_with_1_of_the_disk_alone", 14, q, c, broken);
    joined(
        out,
        b"step_14_with_1_of_the_cache_alone",
        14,
        q,
        wrong,
        none,
    );
    joined(out, b"step_0", 0, q, c, none);
    joined(out, b"step_19", 19, q, c, none);
    joined(out, b"step_20", 20, q, c, none);
    joined(out, b"step_21", 21, q, c, none);
}

pub(crate) fn run(out: &mut Output) {
    step_1_ids(out);
    step_1_limits(out);
    step_2(out);
    step_3(out);
    step_4(out);
    step_6(out);
    step_7(out);
    step_8(out);
    crash(out);
    forms(out);
}
