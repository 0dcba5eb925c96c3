// The cache's numbers that no script reaches: 8 in step 7, 11 in step 11; and 14 at its edge.
use blockcache::CacheState;
use blockdisk::{Brought, DiskOp};
use fixtures::show::{cache_answer, internal, line};
use fixtures::{
    BLOCK1, BLOCK2, BLOCK3, at, entry_nowhere, leaf, one, queue_of, ready, two_entries,
    with_cached, with_ephemeral, with_frozen, with_reads, with_writes,
};
use output::Output;
use sectortype::Table;

// A Ready cache that awaits, under id 5, the node of this reference.
fn awaiting(reference: u8) -> CacheState {
    let c = ready();
    let nowhere = sector::zero_loc();
    let q = one(5, reference, nowhere);
    with_reads(c, q)
}

// Step 7 with a node that points to nothing.
fn page_in(c: CacheState) -> u64 {
    let node = leaf(9);
    let dop = DiskOp::RespReadNodeOp(5, Brought::Something);
    let q = internal(0, dop, node);
    cache_answer(c, 7, q)
}

fn step_7(out: &mut Output) {
    let good = awaiting(1);
    let unallocated = awaiting(2);
    let node = leaf(9);
    let cached = with_cached(good, 1, node);
    let a = page_in(good);
    let b = page_in(cached);
    let c = page_in(unallocated);
    line(out, b"page_in_answer_for_an_uncached_reference", a);
    line(out, b"page_in_answer_for_a_cached_reference", b);
    line(out, b"page_in_answer_for_an_unallocated_reference", c);
}

// Evict of reference 1.
fn evict(c: CacheState) -> u64 {
    let dop = DiskOp::NoDiskOp;
    let node = sector::zero_node();
    let q = internal(1, dop, node);
    cache_answer(c, 11, q)
}

// Reference 1 allocated without a location.
fn unlocated() -> Table {
    let t = two_entries();
    let e = entry_nowhere();
    sector::with_entry(t, 1, e)
}

// The table with the root alone.
fn root_alone() -> Table {
    let t = two_entries();
    let e = sector::zero_entry();
    sector::with_entry(t, 1, e)
}

fn step_11(out: &mut Output) {
    let none = ready();
    let node = leaf(9);
    let plain = with_cached(none, 1, node);
    let t = unlocated();
    let s = two_entries();
    let u = root_alone();
    let located = with_frozen(plain, true, s);
    let lacking = with_frozen(plain, true, t);
    let absent = with_frozen(plain, true, u);
    let gone = with_ephemeral(lacking, u);
    let both = with_ephemeral(lacking, t);
    let a = evict(plain);
    let b = evict(located);
    let c = evict(lacking);
    let d = evict(absent);
    let e = evict(gone);
    let f = evict(both);
    line(out, b"evict_with_nothing_frozen", a);
    line(out, b"evict_with_a_location_in_the_frozen_table", b);
    line(out, b"evict_without_a_location_in_the_frozen_table", c);
    line(out, b"evict_of_a_reference_not_in_the_frozen_table", d);
    line(
        out,
        b"evict_of_an_unallocated_one_without_a_location_in_the_frozen_table",
        e,
    );
    line(out, b"evict_without_a_location_in_either_table", f);
}

// Step 1 for the cached reference 1 to block 3 with so many writes outstanding.
fn write_back(n: u64) -> u64 {
    let c = ready();
    let node = leaf(9);
    let d = with_cached(c, 1, node);
    let elsewhere = at(BLOCK2, 4096);
    let writes = queue_of(n, elsewhere);
    let s = with_writes(d, writes);
    let loc = at(BLOCK3, 4096);
    let dop = DiskOp::ReqWriteNodeOp(99, loc);
    let q = internal(1, dop, node);
    cache_answer(s, 1, q)
}

// Step 6 for reference 1 with so many reads of the root outstanding.
fn page_in_request(n: u64) -> u64 {
    let c = ready();
    let nowhere = sector::zero_loc();
    let reads = queue_of(n, nowhere);
    let s = with_reads(c, reads);
    let loc = at(BLOCK1, 4096);
    let dop = DiskOp::ReqReadNodeOp(99, loc);
    let node = sector::zero_node();
    let q = internal(1, dop, node);
    cache_answer(s, 6, q)
}

fn steps_1_and_6(out: &mut Output) {
    let a = write_back(15);
    let b = write_back(16);
    let c = page_in_request(15);
    let d = page_in_request(16);
    line(out, b"write_back_with_fifteen_writes", a);
    line(out, b"write_back_with_sixteen_writes", b);
    line(out, b"page_in_with_fifteen_reads", c);
    line(out, b"page_in_with_sixteen_reads", d);
}

pub(crate) fn run(out: &mut Output) {
    step_7(out);
    step_11(out);
    steps_1_and_6(out);
}
