// The freeze rule: what Freeze answers under each, on the cache alone and joined, and what formatting and a crash make of the rule.
use crate::joined_cases::{awaiting_table, joined};
use blockcache::{CacheState, Call, VersionOp};
use fixtures::show::{pair, rule, ruled_answer, versioned};
use fixtures::{AREA2, at, ready, stored, storing, two_entries, with_frozen, with_frozen_place};
use output::Output;
use system::{CRASH, Store};

const FREEZE: u64 = 12;

fn freeze_call() -> Call {
    versioned(VersionOp::FreezeOp)
}

// A frozen place alone: no list of joined calls leads there, as a place is set where the frozen table is written, and goes with it.
fn placed() -> CacheState {
    let c = ready();
    let loc = at(AREA2, 4096);
    with_frozen_place(c, true, loc)
}

fn with_table(c: CacheState) -> CacheState {
    let t = two_entries();
    with_frozen(c, true, t)
}

// 25 is under rule 2 alone, of a set place alone, and after 10; another rule gives 1.
fn freezes(out: &mut Output, name: &[u8], number: u64) {
    let q = freeze_call();
    let nothing = ready();
    let place = placed();
    let table = with_table(nothing);
    let both = with_table(place);
    let waiting = awaiting_table();
    pair(
        out,
        b"freeze_with_nothing_frozen",
        name,
        ruled_answer(number, nothing, FREEZE, q),
    );
    pair(
        out,
        b"freeze_with_a_frozen_table",
        name,
        ruled_answer(number, table, FREEZE, q),
    );
    pair(
        out,
        b"freeze_with_a_frozen_place",
        name,
        ruled_answer(number, place, FREEZE, q),
    );
    pair(
        out,
        b"freeze_with_both",
        name,
        ruled_answer(number, both, FREEZE, q),
    );
    pair(
        out,
        b"freeze_with_both_while_the_table_is_written",
        name,
        ruled_answer(number, waiting, FREEZE, q),
    );
}

// The joined call takes the rule from the disk.
fn joined_freezes(out: &mut Output) {
    let q = freeze_call();
    let place = placed();
    let both = with_table(place);
    let records = stored();
    let one = storing(records);
    let mut two = one;
    two.rule = 2;
    let mut three = one;
    three.rule = 3;
    joined(
        out,
        b"step_12_with_a_frozen_place_on_a_disk_of_rule_1",
        FREEZE,
        q,
        both,
        one,
    );
    joined(
        out,
        b"step_12_with_a_frozen_place_on_a_disk_of_rule_2",
        FREEZE,
        q,
        both,
        two,
    );
    joined(
        out,
        b"step_12_with_a_frozen_place_on_a_disk_of_rule_3",
        FREEZE,
        q,
        both,
        three,
    );
}

// What comes of a formatting: its answer, and the rule of the disk.
fn formats(out: &mut Output, name: &[u8], device: u64, number: u64) {
    let x = sector::zero_contents();
    let o = Store::format(device, x, number);
    pair(out, b"format_under", name, o.answer);
    let s = o.disk;
    rule(out, b"disk_formatted_under", name, s.rule);
}

// A crash that is offered the stored records: its answer, and the rule of the disk after it.
fn crashes(out: &mut Output, name: &[u8], number: u64) {
    let vop = VersionOp::CrashOp;
    let q = versioned(vop);
    let cache = placed();
    let offered = stored();
    let mut disk = storing(offered);
    disk.rule = number;
    let store = Store {
        device: 0,
        cache,
        disk,
    };
    let o = store.step(CRASH, q, offered);
    pair(out, b"crash_under", name, o.answer);
    let s = o.disk;
    rule(out, b"disk_after_a_crash_under", name, s.rule);
}

pub(crate) fn run(out: &mut Output) {
    freezes(out, b"under_rule_1", 1);
    freezes(out, b"under_rule_2", 2);
    freezes(out, b"under_rule_3", 3);
    joined_freezes(out);
    formats(out, b"rule_0", 0, 0);
    formats(out, b"rule_1", 0, 1);
    formats(out, b"rule_2", 0, 2);
    formats(out, b"rule_3", 0, 3);
    formats(out, b"rule_18446744073709551615", 0, 18446744073709551615);
    formats(out, b"rule_2_on_device_2", 2, 2);
    formats(out, b"rule_2_on_device_3", 3, 2);
    crashes(out, b"rule_1", 1);
    crashes(out, b"rule_2", 2);
    crashes(out, b"rule_3", 3);
}
