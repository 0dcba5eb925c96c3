// The marks that an accepted step leaves, and the block given last: a load sets it to 127, a start and a crash leave zeros, every other step keeps it.
// Block k's bit is 2 to the k: blocks 0 to 4 are 1, 2, 4, 8 and 16 in the low word, block 100 is 68719476736 in the high one.
use blockcache::{CacheState, Call, Settings, VersionOp};
use blockdisk::{Brought, DiskOp};
use cache::Cache;
use disklayout::Location;
use fixtures::ranges::block_addr;
use fixtures::show::{blocks, internal, versioned};
use fixtures::{
    AREA1, AREA2, BLOCK3, RULE_1, at, entry_at, entry_nowhere, leaf, loading, ready, two_entries,
    with_cached, with_ephemeral, with_frozen, with_frozen_place, with_last,
};
use output::Output;
use sectortype::{Entry, Table};

fn after(out: &mut Output, name: &[u8], c: CacheState, number: u64, q: Call) -> CacheState {
    let settings = Settings {
        device: 0,
        rule: RULE_1,
    };
    let o = Cache { settings, state: c }.step(number, q);
    blocks(out, name, o);
    o.cache
}

// The root in block 0, and reference 1 with this entry.
fn with_second(e: Entry) -> Table {
    let t = two_entries();
    sector::with_entry(t, 1, e)
}

// Reference 1 is cached; the persistent table has it in block 1, the ephemeral one has this entry. Block 5 was given last.
fn working(e: Entry) -> CacheState {
    let c = ready();
    let node = leaf(9);
    let d = with_cached(c, 1, node);
    let t = with_second(e);
    let w = with_ephemeral(d, t);
    with_last(w, 5)
}

// Reference 1 at this place in the ephemeral table: blocks 0, 1 and this one.
fn moved(k: usize) -> CacheState {
    let addr = block_addr(k);
    let e = entry_at(addr);
    working(e)
}

// Step 1 of reference 1 under id 8, and step 2, its answer.
fn write_call(loc: Location) -> Call {
    let node = leaf(9);
    let dop = DiskOp::ReqWriteNodeOp(8, loc);
    internal(1, dop, node)
}

fn written_call() -> Call {
    let node = sector::zero_node();
    let dop = DiskOp::RespWriteNodeOp(8);
    internal(0, dop, node)
}

// Without a location the reference gets block 3, which it keeps: 1 + 2 + 8. With one, block 1, it keeps that; block 100 is the write's alone, and free again
// once it is answered.
fn steps_1_and_2(out: &mut Output) {
    let e = entry_nowhere();
    let dirty = working(e);
    let loc = at(BLOCK3, 4096);
    let q = write_call(loc);
    let a = written_call();
    let d = after(
        out,
        b"step_1_of_a_reference_without_a_location",
        dirty,
        1,
        q,
    );
    after(out, b"step_2_of_a_block_that_the_table_has", d, 2, a);
    let clean = moved(1);
    let addr = block_addr(100);
    let far = at(addr, 1);
    let x = write_call(far);
    let w = after(out, b"step_1_of_a_reference_with_a_location", clean, 1, x);
    after(out, b"step_2_of_a_block_that_the_write_alone_has", w, 2, a);
}

// An operation on reference 1, with a node.
fn advance(no_op: bool) -> Call {
    let node = leaf(10);
    let vop = VersionOp::AdvanceOp(no_op);
    let mut q = versioned(vop);
    q.reference = 1;
    q.node = node;
    q
}

// The ephemeral table gives up block 100; block 1 is the persistent table's too.
fn steps_5_and_15(out: &mut Output) {
    let c = moved(100);
    let d = moved(1);
    let q = advance(true);
    let x = advance(false);
    after(out, b"step_5_of_a_block_of_its_own", c, 5, q);
    after(out, b"step_5_of_a_block_of_two_tables", d, 5, q);
    after(out, b"step_15_of_a_block_of_its_own", c, 15, x);
    after(out, b"step_15_of_a_block_of_two_tables", d, 15, x);
}

// Persistent blocks 0 and 1, ephemeral 0 and 3, frozen 0 and 4.
fn three_tables() -> CacheState {
    let c = moved(3);
    let addr = block_addr(4);
    let e = entry_at(addr);
    let f = with_second(e);
    let place = at(AREA2, 4096);
    let d = with_frozen(c, true, f);
    with_frozen_place(d, true, place)
}

// Freeze gives up the frozen table's block 4, and 1 + 2 + 8 are left; CleanUp the persistent table's block 1, and 1 + 8 + 16 are left.
fn steps_12_and_13(out: &mut Output) {
    let c = three_tables();
    let freeze = VersionOp::FreezeOp;
    let q = versioned(freeze);
    let clean = VersionOp::CleanUpOp;
    let x = versioned(clean);
    after(out, b"step_12_with_a_frozen_table", c, 12, q);
    after(out, b"step_13", c, 13, x);
}

// A start, and the load of a table with blocks 0 and 127: the lowest bit of the low word, the highest of the high one. A crash.
fn steps_9_10_and_18(out: &mut Output) {
    let none = cache::empty_cache();
    let place = at(AREA1, 4096);
    let start = VersionOp::SendPersistentLocOp(place);
    let q = versioned(start);
    after(out, b"step_10", none, 10, q);
    let l = loading();
    let node = sector::zero_node();
    let dop = DiskOp::RespReadIndirectionTableOp(1, Brought::Something);
    let addr = block_addr(127);
    let e = entry_at(addr);
    let t = with_second(e);
    let mut x = internal(0, dop, node);
    x.table = t;
    after(out, b"step_9", l, 9, x);
    let c = three_tables();
    let crash = VersionOp::CrashOp;
    let y = versioned(crash);
    after(out, b"step_18", c, 18, y);
}

// Steps that move no location: a new reference has none, and an evicted one keeps its own.
fn steps_11_and_16(out: &mut Output) {
    let c = moved(3);
    let node = sector::zero_node();
    let dop = DiskOp::NoDiskOp;
    let q = internal(1, dop, node);
    let mut x = advance(false);
    x.reference = 2;
    after(out, b"step_11", c, 11, q);
    after(out, b"step_16", c, 16, x);
}

pub(crate) fn run(out: &mut Output) {
    steps_1_and_2(out);
    steps_5_and_15(out);
    steps_12_and_13(out);
    steps_9_10_and_18(out);
    steps_11_and_16(out);
}
