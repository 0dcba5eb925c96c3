// Number 1: marks that disagree with the tables and the outstanding writes, a last block above 127, and either outside Ready. Each cache is asked for a
// no-op, for a read of the root, which it has cached, and for a block: 1 comes before every other number in all three. Block k is bit k of the low word,
// block 64 + k bit k of the high one.
use blockcache::{CacheState, Settings};
use cache::Cache;
use fixtures::ranges::block_addr;
use fixtures::show::{no_op_call, pair};
use fixtures::{
    BLOCK2, BLOCK3, RULE_1, at, entry_at, leaf, loading, one, ready, two_entries, with_blocks,
    with_cached, with_ephemeral, with_frozen, with_last, with_marks, with_persistent, with_writes,
};
use output::Output;
use sectortype::Table;

// The lowest and the highest bit of a word: blocks 0 and 63, or 64 and 127.
const FIRST: u64 = 1;

const LAST: u64 = 9223372036854775808;

fn judged(out: &mut Output, name: &[u8], device: u64, rule: u64, c: CacheState) {
    let settings = Settings { device, rule };
    let q = no_op_call();
    let a = Cache { settings, state: c }.step(14, q);
    let b = Cache { settings, state: c }.step(17, q);
    let d = Cache { settings, state: c }.choose();
    pair(out, b"no_op", name, a.answer);
    pair(out, b"read", name, b.answer);
    pair(out, b"choose", name, d.answer);
}

// On device 0, with these marks.
fn marks(out: &mut Output, name: &[u8], c: CacheState, low: u64, high: u64) {
    let d = with_marks(c, low, high);
    judged(out, name, 0, RULE_1, d);
}

// The root and reference 1 in blocks 0 and 1, in both tables.
fn loaded() -> CacheState {
    let c = ready();
    let node = leaf(7);
    with_cached(c, 0, node)
}

// Reference 2 at this address beside them.
fn three_entries(addr: u64) -> Table {
    let t = two_entries();
    let e = entry_at(addr);
    sector::with_entry(t, 2, e)
}

// Blocks 0 and 1 make 1 + 2 in the low word; a third in block 127 makes the highest bit of the high one.
fn words(out: &mut Output) {
    let c = loaded();
    let addr = block_addr(127);
    let t = three_entries(addr);
    let d = with_ephemeral(c, t);
    marks(out, b"with_the_marks_of_two_blocks", c, 3, 0);
    marks(out, b"with_one_too_many_in_the_low_word", c, 7, 0);
    marks(out, b"with_one_too_few_in_the_low_word", c, 1, 0);
    marks(out, b"with_the_mark_of_another_block", c, 5, 0);
    marks(out, b"with_one_too_many_in_the_high_word", c, 3, FIRST);
    marks(out, b"with_the_mark_of_block_127", d, 3, LAST);
    marks(out, b"without_the_mark_of_block_127", d, 3, 0);
    marks(out, b"with_the_mark_of_block_64_in_its_place", d, 3, FIRST);
    marks(out, b"with_the_two_words_exchanged", d, LAST, 3);
}

// One of the four alone has the address: block 2 (4 in the low word) or block 3 (8).
fn holders(out: &mut Output) {
    let c = loaded();
    let two = three_entries(BLOCK2);
    let loc = at(BLOCK3, 4096);
    let w = one(1, 1, loc);
    let p = with_persistent(c, two);
    let e = with_ephemeral(c, two);
    let f = with_frozen(c, true, two);
    let o = with_writes(c, w);
    marks(out, b"with_a_mark_of_the_persistent_table", p, 7, 0);
    marks(out, b"without_a_mark_of_the_persistent_table", p, 3, 0);
    marks(out, b"with_a_mark_of_the_ephemeral_table", e, 7, 0);
    marks(out, b"without_a_mark_of_the_ephemeral_table", e, 3, 0);
    marks(out, b"with_a_mark_of_the_frozen_table", f, 7, 0);
    marks(out, b"without_a_mark_of_the_frozen_table", f, 3, 0);
    marks(out, b"with_a_mark_of_a_write", o, 11, 0);
    marks(out, b"without_a_mark_of_a_write", o, 3, 0);
}

// No block's: the end of the blocks, a byte past block 2's, a block's size before block 0's. They mark nothing.
fn no_block(out: &mut Output, name: &[u8], addr: u64) {
    let c = loaded();
    let t = three_entries(addr);
    let d = with_ephemeral(c, t);
    marks(out, name, d, 3, 0);
}

fn last(out: &mut Output, name: &[u8], block: u64) {
    let c = loaded();
    let d = with_last(c, block);
    judged(out, name, 0, RULE_1, d);
}

// Where a block lies goes by the device's row. 4194304 is block 60 on device 0, whose block k is at (4 + k) * 65536; block 25 on device 1, at (7 + k) *
// 131072; and block 0 on device 2, at (4 + k) * 1048576. All else on the three is alike.
fn on_device(out: &mut Output, name: &[u8], device: u64, low: u64) {
    let c = loaded();
    let none = sector::empty_table();
    let e = entry_at(4194304);
    let t = sector::with_entry(none, 0, e);
    let p = with_persistent(c, t);
    let d = with_ephemeral(p, t);
    let m = with_marks(d, low, 0);
    judged(out, name, device, RULE_1, m);
}

fn devices(out: &mut Output) {
    on_device(
        out,
        b"on_device_0_with_the_mark_of_block_60",
        0,
        1152921504606846976,
    );
    on_device(out, b"on_device_0_with_the_mark_of_block_25", 0, 33554432);
    on_device(
        out,
        b"on_device_1_with_the_mark_of_block_60",
        1,
        1152921504606846976,
    );
    on_device(out, b"on_device_1_with_the_mark_of_block_25", 1, 33554432);
    on_device(out, b"on_device_2_with_the_mark_of_block_25", 2, 33554432);
    on_device(out, b"on_device_2_with_the_mark_of_block_0", 2, FIRST);
    on_device(out, b"on_device_3_with_no_mark", 3, 0);
    let c = loaded();
    judged(out, b"under_rule_0", 0, 0, c);
    judged(out, b"under_rule_2", 0, 2, c);
    judged(out, b"under_rule_3", 0, 3, c);
}

// Before Ready a no-op is accepted, and the two others give 4; with a mark or a last block all three give 1.
fn before(out: &mut Output, name: &[u8], c: CacheState, low: u64, high: u64, last: u64) {
    let d = with_blocks(c, low, high, last);
    judged(out, name, 0, RULE_1, d);
}

fn before_ready(out: &mut Output) {
    let u = cache::empty_cache();
    before(out, b"unready_with_zeros", u, 0, 0, 0);
    before(out, b"unready_with_a_mark_in_the_low_word", u, LAST, 0, 0);
    before(out, b"unready_with_a_mark_in_the_high_word", u, 0, FIRST, 0);
    before(out, b"unready_with_a_last_block", u, 0, 0, 127);
    let l = loading();
    before(out, b"loading_with_zeros", l, 0, 0, 0);
    before(out, b"loading_with_a_mark_in_the_low_word", l, FIRST, 0, 0);
    before(out, b"loading_with_a_mark_in_the_high_word", l, 0, LAST, 0);
    before(out, b"loading_with_a_last_block", l, 0, 0, 1);
}

pub(crate) fn run(out: &mut Output) {
    words(out);
    holders(out);
    no_block(out, b"with_a_location_past_the_blocks", 8650752);
    no_block(out, b"with_a_location_in_a_block", BLOCK2 + 1);
    no_block(out, b"with_a_location_before_the_blocks", 196608);
    last(out, b"with_last_block_0", 0);
    last(out, b"with_last_block_127", 127);
    last(out, b"with_last_block_128", 128);
    last(
        out,
        b"with_last_block_18446744073709551615",
        18446744073709551615,
    );
    devices(out);
    before_ready(out);
}
