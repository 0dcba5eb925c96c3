// What the chooser gives: the first block after the last one given that no table and no outstanding write holds, going round. On device 0 block k is at
// 262144 + k * 65536.
use blockcache::{Awaited, CacheState};
use blockdisk::DiskState;
use fixtures::ranges::table_of;
use fixtures::show::choice;
use fixtures::{
    AREA2, BLOCK2, RULE_1, at, entry_at, loading, marked_on, one, ready, storing, two_entries,
    with_ephemeral, with_frozen, with_frozen_place, with_last, with_persistent, with_writes,
};
use output::Output;
use sectortype::Entry;
use system::Store;

// The store's chooser, on this disk.
pub(crate) fn asked_with(
    out: &mut Output,
    name: &[u8],
    device: u64,
    c: CacheState,
    disk: DiskState,
) -> CacheState {
    let r = Store {
        device,
        cache: c,
        disk,
    }
    .choose();
    let after = r.cache;
    let b = c.blocks;
    let back = with_last(after, b.last);
    let kept = c == back;
    choice(out, name, r, kept);
    after
}

// On a disk that stores nothing and carries this rule.
fn asked(out: &mut Output, name: &[u8], device: u64, rule: u64, c: CacheState) -> CacheState {
    let none = disk::empty_records();
    let mut disk = storing(none);
    disk.rule = rule;
    asked_with(out, name, device, c, disk)
}

// On device 0, with this block given last.
fn chosen(out: &mut Output, name: &[u8], c: CacheState, last: u64) -> CacheState {
    let d = with_last(c, last);
    asked(out, name, 0, RULE_1, d)
}

// All 128 blocks: the persistent table's 64 references in blocks 0 to 63, the ephemeral table's in 64 to 127.
pub(crate) fn full() -> CacheState {
    let c = ready();
    let low = table_of(0, 64);
    let high = table_of(64, 128);
    let p = with_persistent(c, low);
    with_ephemeral(p, high)
}

// The same with another entry for reference r, which is in block 64 + r, in the ephemeral table.
fn full_but(r: usize, e: Entry) -> CacheState {
    let c = full();
    let high = table_of(64, 128);
    let t = sector::with_entry(high, r, e);
    with_ephemeral(c, t)
}

// 21 whatever was given last; not with one block free, which is the answer whatever was given last, itself too. Block 100 is at 6815744, block 127 at
// 8585216, block 64 at 4456448.
fn one_free(out: &mut Output) {
    let none = sector::zero_entry();
    let all = full();
    let hundred = full_but(36, none);
    let highest = full_but(63, none);
    let lowest = full_but(0, none);
    chosen(out, b"all_marked_and_127_given_last", all, 127);
    chosen(out, b"all_marked_and_5_given_last", all, 5);
    chosen(out, b"100_free_and_127_given_last", hundred, 127);
    chosen(out, b"100_free_and_99_given_last", hundred, 99);
    chosen(out, b"100_free_and_101_given_last", hundred, 101);
    chosen(out, b"100_free_and_given_last", hundred, 100);
    chosen(out, b"127_free_and_126_given_last", highest, 126);
    chosen(out, b"127_free_and_given_last", highest, 127);
    chosen(out, b"64_free_and_63_given_last", lowest, 63);
    chosen(out, b"64_free_and_given_last", lowest, 64);
}

// Block 0 alone is free: the persistent table is without the root.
fn lowest_free(out: &mut Output) {
    let c = full();
    let t = table_of(1, 64);
    let d = with_persistent(c, t);
    chosen(out, b"0_free_and_127_given_last", d, 127);
    chosen(out, b"0_free_and_given_last", d, 0);
}

// Blocks 0 and 1 are marked, 126 are free.
fn in_turn(out: &mut Output) {
    let c = ready();
    chosen(out, b"two_marked_and_127_given_last", c, 127);
    chosen(out, b"two_marked_and_126_given_last", c, 126);
    chosen(out, b"two_marked_and_0_given_last", c, 0);
    chosen(out, b"two_marked_and_2_given_last", c, 2);
    chosen(out, b"two_marked_and_62_given_last", c, 62);
    chosen(out, b"two_marked_and_63_given_last", c, 63);
    let first = chosen(out, b"first_of_two_calls", c, 127);
    asked(out, b"second_of_two_calls", 0, RULE_1, first);
}

// Block 2 is held by a write alone, by the frozen table alone: 3 is the first of 125. A frozen place that is set, and a table write outstanding, refuse
// nothing.
fn holders(out: &mut Output) {
    let c = ready();
    let loc = at(BLOCK2, 4096);
    let w = one(1, 1, loc);
    let written = with_writes(c, w);
    let t = two_entries();
    let e = entry_at(BLOCK2);
    let u = sector::with_entry(t, 1, e);
    let frozen = with_frozen(c, true, u);
    let place = at(AREA2, 4096);
    let mut waiting = with_frozen_place(frozen, true, place);
    let a = Awaited {
        waiting: true,
        id: 1,
    };
    waiting.awaited = a;
    chosen(out, b"2_held_by_a_write", written, 127);
    chosen(out, b"2_held_by_the_frozen_table", frozen, 127);
    chosen(
        out,
        b"2_held_by_the_frozen_table_while_it_is_written",
        waiting,
        127,
    );
}

// Reference 0 is moved out of block 64: to the end of the blocks, which would be block 128's address, and to a byte past block 64's. Neither is a block's,
// so 64 is free; in the first case 0 too, which the persistent table leaves out.
fn outside(out: &mut Output) {
    let past = entry_at(8650752);
    let odd = entry_at(4456449);
    let a = full_but(0, past);
    let b = full_but(0, odd);
    let t = table_of(1, 64);
    let two = with_persistent(a, t);
    chosen(
        out,
        b"0_and_64_free_and_a_location_past_the_blocks",
        two,
        127,
    );
    chosen(out, b"64_free_and_a_location_in_the_block", b, 127);
}

// 262144 and 327680, where the two references are, are no block's on devices 1 and 2, so that there all 128 are free; block 0 is at 7 * 131072 and at
// 4 * 1048576. With device 0's marks the same cache gives 1 there.
fn devices(out: &mut Output) {
    let c = ready();
    let one = marked_on(1, c);
    let two = marked_on(2, c);
    asked(out, b"on_device_1", 1, RULE_1, one);
    asked(out, b"on_device_2", 2, 2, two);
    asked(out, b"on_device_1_with_the_marks_of_device_0", 1, RULE_1, c);
    asked(out, b"on_device_3", 3, RULE_1, c);
    asked(out, b"on_a_disk_of_rule_2", 0, 2, c);
    asked(out, b"on_a_disk_of_rule_3", 0, 3, c);
}

// 4 outside Ready; 1 before it, and before 21.
fn refused(out: &mut Output) {
    let unready = cache::empty_cache();
    let loads = loading();
    let all = full();
    asked(out, b"unready", 0, RULE_1, unready);
    asked(out, b"loading", 0, RULE_1, loads);
    chosen(out, b"unready_with_a_last_block", unready, 127);
    chosen(out, b"loading_with_a_last_block", loads, 127);
    chosen(out, b"all_marked_and_128_given_last", all, 128);
}

pub(crate) fn run(out: &mut Output) {
    one_free(out);
    lowest_free(out);
    in_turn(out);
    holders(out);
    outside(out);
    devices(out);
    refused(out);
}
