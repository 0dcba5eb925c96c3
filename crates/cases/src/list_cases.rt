// Step 20, where no script leads: without a list by the plain entry, with one on a cache or a disk out of its written form or on a
// device that is not made, and with more operations than an array has. After each list stand the place and how many of cache and disk
// have changed.
use crate::joined_cases::{empty, joined};
use blockcache::{CacheState, Operation, Phase, VersionOp};
use blockdisk::DiskState;
use fixtures::changed::changed;
use fixtures::show::{pair, versioned};
use fixtures::{AREA1, DiskQueue, at, in_phase, leaf, one, queued, ready, with_reads};
use output::Output;
use system::{Store, TRANSACTION};

fn alloc(reference: u64) -> Operation {
    let node = leaf(7);
    Operation {
        alloc: true,
        reference,
        node,
    }
}

// Reference 40 and then 41 comes, and 40 again.
fn three() -> [Operation; 40] {
    let first = alloc(40);
    let mut list = [first; 40];
    list[1] = alloc(41);
    list
}

// The first n of them, on this device.
fn list(out: &mut Output, name: &[u8], device: u64, n: usize, c: CacheState, s: DiskState) {
    let store = Store {
        device,
        cache: c,
        disk: s,
    };
    let q = versioned(VersionOp::AdvanceOp(false));
    let operations = three();
    let o = store.operations_of(q, operations, n);
    let d = o.cache;
    let t = o.disk;
    let m = changed(c, d, s, t);
    pair(out, b"list", name, o.answer);
    pair(out, b"place_of", name, o.place);
    pair(out, b"changed_by", name, m);
}

fn plain(out: &mut Output) {
    let c = ready();
    let none = empty();
    let q = versioned(VersionOp::AdvanceOp(false));
    let loading = in_phase(c, Phase::Loading);
    let empty_cache = cache::empty_cache();
    joined(out, b"step_20_accepted", TRANSACTION, q, c, none);
    joined(
        out,
        b"step_20_in_unready",
        TRANSACTION,
        q,
        empty_cache,
        none,
    );
    joined(
        out,
        b"step_20_on_a_loading_cache_out_of_its_form",
        TRANSACTION,
        q,
        loading,
        none,
    );
}

pub(crate) fn run(out: &mut Output) {
    let c = ready();
    let none = empty();
    let nowhere = sector::zero_loc();
    let p = one(1, 0, nowhere);
    let broken = queued(DiskQueue::NodeWrites, p);
    let loc = at(AREA1, 4096);
    let r = one(1, 0, loc);
    let wrong = with_reads(c, r);
    plain(out);
    list(out, b"no_operation", 0, 0, c, none);
    list(out, b"two_operations", 0, 2, c, none);
    list(
        out,
        b"three_operations_of_which_the_last_fails",
        0,
        3,
        c,
        none,
    );
    list(out, b"33_operations", 0, 33, c, none);
    list(
        out,
        b"more_operations_than_the_array_has",
        0,
        18446744073709551615,
        c,
        none,
    );
    list(
        out,
        b"a_failing_list_with_1_of_the_disk_alone",
        0,
        3,
        c,
        broken,
    );
    list(out, b"a_list_with_1_of_the_cache_alone", 0, 2, wrong, none);
    list(
        out,
        b"no_operation_with_1_of_the_disk_alone",
        0,
        0,
        c,
        broken,
    );
    list(out, b"a_list_on_device_3", 3, 2, c, none);
}
