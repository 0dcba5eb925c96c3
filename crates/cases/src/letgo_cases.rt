// Answers of reads that cache and disk have, or only one of the two; and in Ready the awaited table write under the id of a read. Since a
// no-op refuses awaited answers with 22, no list of joined calls leads to a read that only one of the two has.
use crate::joined_cases::{
    awaiting_node, awaiting_table, empty, joined, loading, node_answer, node_read, table_requests,
    table_written,
};
use blockcache::{Awaited, CacheState, Call};
use blockdisk::{Brought, DiskOp, DiskState};
use fixtures::show::{internal, line};
use fixtures::{AREA2, DiskQueue, at, queued, ready, two_entries};
use output::Output;
use system::Store;

// A cache that awaits, under id 1, the table in area 2.
fn awaiting_load() -> CacheState {
    let loc = at(AREA2, 4096);
    let mut c = loading(loc);
    let a = Awaited {
        waiting: true,
        id: 1,
    };
    c.awaited = a;
    c
}

// A disk that stores nothing, with a table read of area 2 queued under id 1.
fn table_read() -> DiskState {
    let p = table_requests(1);
    queued(DiskQueue::TableReads, p)
}

fn table_answer(b: Brought) -> Call {
    let node = sector::zero_node();
    let dop = DiskOp::RespReadIndirectionTableOp(1, b);
    let t = two_entries();
    let mut q = internal(0, dop, node);
    q.table = t;
    q
}

// Reference 1 is allocated, reference 2 is not: a page-in would refuse it with 8.
fn let_node_go(out: &mut Output) {
    let c = ready();
    let known = awaiting_node(c, 1);
    let unallocated = awaiting_node(c, 2);
    let s = node_read();
    let none = empty();
    let q = node_answer(Brought::Nothing);
    let x = node_answer(Brought::Something);
    joined(out, b"step_19_of_a_node_accepted", 19, q, known, s);
    joined(
        out,
        b"step_19_of_an_unallocated_node_accepted",
        19,
        q,
        unallocated,
        s,
    );
    joined(
        out,
        b"step_19_of_a_node_with_5_of_the_cache_alone",
        19,
        q,
        c,
        s,
    );
    joined(
        out,
        b"step_19_of_a_node_with_15_of_the_disk_alone",
        19,
        q,
        known,
        none,
    );
    joined(
        out,
        b"step_19_of_a_node_with_17_of_the_disk_alone",
        19,
        x,
        known,
        s,
    );
}

fn let_table_go(out: &mut Output) {
    let loc = at(AREA2, 4096);
    let c = loading(loc);
    let known = awaiting_load();
    let s = table_read();
    let none = empty();
    let q = table_answer(Brought::Nothing);
    let x = table_answer(Brought::Something);
    joined(out, b"step_9_with_15_of_the_disk_alone", 9, x, known, none);
    joined(out, b"step_9_with_17_of_the_disk_alone", 9, x, known, s);
    joined(out, b"step_19_of_a_table_accepted", 19, q, known, s);
    joined(
        out,
        b"step_19_of_a_table_with_5_of_the_cache_alone",
        19,
        q,
        c,
        s,
    );
    joined(
        out,
        b"step_19_of_a_table_with_15_of_the_disk_alone",
        19,
        q,
        known,
        none,
    );
    joined(
        out,
        b"step_19_of_a_table_with_17_of_the_disk_alone",
        19,
        x,
        known,
        s,
    );
}

// 22 comes last: after 15 and 17 of the disk.
fn no_op_of_a_node(out: &mut Output) {
    let c = ready();
    let known = awaiting_node(c, 1);
    let s = node_read();
    let none = empty();
    let q = node_answer(Brought::Nothing);
    let x = node_answer(Brought::Something);
    joined(
        out,
        b"step_14_of_a_node_that_only_the_disk_has",
        14,
        q,
        c,
        s,
    );
    joined(
        out,
        b"step_14_of_a_node_with_22_of_the_cache_alone",
        14,
        q,
        known,
        s,
    );
    joined(
        out,
        b"step_14_of_a_node_with_22_of_the_cache_and_15_of_the_disk",
        14,
        q,
        known,
        none,
    );
    joined(
        out,
        b"step_14_of_a_node_with_22_of_the_cache_and_17_of_the_disk",
        14,
        x,
        known,
        s,
    );
}

fn no_op_of_a_table(out: &mut Output) {
    let loc = at(AREA2, 4096);
    let c = loading(loc);
    let known = awaiting_load();
    let s = table_read();
    let none = empty();
    let q = table_answer(Brought::Nothing);
    let x = table_answer(Brought::Something);
    joined(
        out,
        b"step_14_of_a_table_that_only_the_disk_has",
        14,
        q,
        c,
        s,
    );
    joined(
        out,
        b"step_14_of_a_table_with_22_of_the_cache_alone",
        14,
        q,
        known,
        s,
    );
    joined(
        out,
        b"step_14_of_a_table_with_22_of_the_cache_and_15_of_the_disk",
        14,
        q,
        known,
        none,
    );
    joined(
        out,
        b"step_14_of_a_table_with_22_of_the_cache_and_17_of_the_disk",
        14,
        x,
        known,
        s,
    );
}

// In Ready the awaited table request is a write: a table read answer under its id is not awaited. Nor is a node read answer in Loading.
fn other_phase(out: &mut Output) {
    let writing = awaiting_table();
    let loads = awaiting_load();
    let s = table_read();
    let r = node_read();
    let q = table_answer(Brought::Nothing);
    let x = node_answer(Brought::Nothing);
    joined(
        out,
        b"step_14_in_ready_of_a_table_read_under_the_id_of_the_table_write",
        14,
        q,
        writing,
        s,
    );
    joined(
        out,
        b"step_19_in_ready_of_a_table_read_under_the_id_of_the_table_write",
        19,
        q,
        writing,
        s,
    );
    joined(
        out,
        b"step_14_in_loading_of_a_node_read_under_the_id_of_the_table_read",
        14,
        x,
        loads,
        r,
    );
    joined(
        out,
        b"step_19_in_loading_of_a_node_read_under_the_id_of_the_table_read",
        19,
        x,
        loads,
        r,
    );
}

// The awaited table write under the id of a node read stays when that is let go: its answer is taken afterwards.
fn write_stays(out: &mut Output) {
    let writing = awaiting_table();
    let cache = awaiting_node(writing, 1);
    let disk = node_read();
    let x = node_answer(Brought::Nothing);
    let store = Store {
        device: 0,
        cache,
        disk,
    };
    let offered = disk::empty_records();
    let o = store.step(19, x, offered);
    line(
        out,
        b"step_19_of_a_node_under_the_id_of_the_table_write",
        o.answer,
    );
    let after = o.cache;
    let p = table_requests(1);
    let s = queued(DiskQueue::TableWrites, p);
    let q = table_written();
    joined(out, b"step_4_after_step_19_under_its_id", 4, q, after, s);
}

pub(crate) fn run(out: &mut Output) {
    let_node_go(out);
    let_table_go(out);
    no_op_of_a_node(out);
    no_op_of_a_table(out);
    other_phase(out);
    write_stays(out);
}
