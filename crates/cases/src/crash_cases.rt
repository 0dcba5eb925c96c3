// A crash of the disk: 19 unless the records offered are possible, 1 where one is not in its written form.
use blockdisk::{Queues, Records};
use fixtures::show::{crash_answer, line, pair};
use fixtures::{
    AREA1, AREA2, BLOCK0, BLOCK1, DiskQueue, absent_record, at, high_leaf, leaf, one, put_node,
    put_table, queues_with, stored, two_entries,
};
use output::Output;

// Block k has a node with these contents at this place.
fn with_node(r: Records, k: usize, addr: u64, len: u64, contents: u64) -> Records {
    let loc = at(addr, len);
    let node = leaf(contents);
    let x = disk::present(loc, node);
    put_node(r, k, x)
}

// Area k has a table of two references at this place.
fn with_table(r: Records, k: usize, addr: u64, len: u64) -> Records {
    let loc = at(addr, len);
    let table = two_entries();
    let x = disk::present(loc, table);
    put_table(r, k, x)
}

fn without_node(r: Records) -> Records {
    let x = disk::absent(sector::zero_node());
    put_node(r, 0, x)
}

fn without_table(r: Records) -> Records {
    let loc = sector::zero_loc();
    let table = sector::empty_table();
    let x = absent_record(loc, table);
    put_table(r, 0, x)
}

// Another table in area 1.
fn table_changed(r: Records) -> Records {
    let loc = at(AREA1, 4096);
    let table = sector::empty_table();
    let x = disk::present(loc, table);
    put_table(r, 0, x)
}

// The stored node: kept, lost, changed, changed in high alone, of another length, moved.
fn nodes(out: &mut Output, name: &[u8], queues: Queues) {
    let r = stored();
    let lost = without_node(r);
    let changed = with_node(r, 0, BLOCK0, 4096, 8);
    let place = at(BLOCK0, 4096);
    let above = high_leaf(1, 7);
    let x = disk::present(place, above);
    let higher = put_node(r, 0, x);
    let longer = with_node(r, 0, BLOCK0, 8192, 7);
    let moved = with_node(lost, 1, BLOCK0, 4096, 7);
    let a = crash_answer(r, queues, r);
    let b = crash_answer(r, queues, lost);
    let c = crash_answer(r, queues, changed);
    let d = crash_answer(r, queues, longer);
    let e = crash_answer(r, queues, moved);
    let f = crash_answer(r, queues, higher);
    pair(out, name, b"keeps_the_node", a);
    pair(out, name, b"loses_the_node", b);
    pair(out, name, b"changes_the_node", c);
    pair(out, name, b"changes_the_length_of_the_node", d);
    pair(out, name, b"puts_the_node_into_another_block", e);
    pair(out, name, b"changes_the_high_of_the_node", f);
}

// The stored table: kept, lost, changed, of another length, moved.
fn tables(out: &mut Output, name: &[u8], queues: Queues) {
    let r = stored();
    let lost = without_table(r);
    let changed = table_changed(r);
    let longer = with_table(r, 0, AREA1, 8192);
    let moved = with_table(lost, 1, AREA1, 4096);
    let a = crash_answer(r, queues, lost);
    let b = crash_answer(r, queues, changed);
    let c = crash_answer(r, queues, longer);
    let d = crash_answer(r, queues, moved);
    pair(out, name, b"loses_the_table", a);
    pair(out, name, b"changes_the_table", b);
    pair(out, name, b"changes_the_length_of_the_table", c);
    pair(out, name, b"puts_the_table_into_another_area", d);
}

// One request in one of the queues, at this address.
fn outstanding(which: DiskQueue, addr: u64) -> Queues {
    let loc = at(addr, 4096);
    let q = one(1, 0, loc);
    queues_with(which, q)
}

// Only a write to that very block or area lets a record go.
fn each_queue(out: &mut Output) {
    let none = disk::empty_queues();
    let read = outstanding(DiskQueue::NodeReads, BLOCK0);
    let other = outstanding(DiskQueue::NodeWrites, BLOCK1);
    let write = outstanding(DiskQueue::NodeWrites, BLOCK0);
    nodes(out, b"crash_with_nothing_outstanding", none);
    nodes(out, b"crash_with_a_read_of_the_block", read);
    nodes(out, b"crash_with_a_write_to_another_block", other);
    nodes(out, b"crash_with_a_write_to_the_block", write);
    let tableread = outstanding(DiskQueue::TableReads, AREA1);
    let tableother = outstanding(DiskQueue::TableWrites, AREA2);
    let tablewrite = outstanding(DiskQueue::TableWrites, AREA1);
    tables(out, b"crash_with_nothing_outstanding", none);
    tables(out, b"crash_with_a_read_of_the_area", tableread);
    tables(out, b"crash_with_a_write_to_the_other_area", tableother);
    tables(out, b"crash_with_a_write_to_the_area", tablewrite);
}

// Empty blocks and areas: any record that 16 allows there may stand.
fn appears(out: &mut Output) {
    let r = stored();
    let none = disk::empty_queues();
    let node = with_node(r, 1, BLOCK1, 1, 9);
    let short = with_node(r, 1, BLOCK1, 0, 9);
    let astray = with_node(r, 2, BLOCK1, 1, 9);
    let table = with_table(r, 1, AREA2, 1);
    let tiny = with_table(r, 1, AREA2, 0);
    let a = crash_answer(r, none, node);
    let b = crash_answer(r, none, short);
    let c = crash_answer(r, none, astray);
    let d = crash_answer(r, none, table);
    let e = crash_answer(r, none, tiny);
    line(out, b"crash_adds_a_node", a);
    line(out, b"crash_adds_a_node_of_length_0", b);
    line(out, b"crash_adds_a_node_in_the_wrong_block", c);
    line(out, b"crash_adds_a_table", d);
    line(out, b"crash_adds_a_table_of_length_0", e);
}

// An absent record is zeros: 1, even where 19 holds too.
fn absent(out: &mut Output) {
    let r = stored();
    let none = disk::empty_queues();
    let node = leaf(9);
    let nowhere = sector::zero_loc();
    let x = absent_record(nowhere, node);
    let table = two_entries();
    let y = absent_record(nowhere, table);
    let high = high_leaf(1, 0);
    let z = absent_record(nowhere, high);
    let offered = put_node(r, 1, x);
    let higher = put_node(r, 1, z);
    let lost = put_node(r, 0, x);
    let tabled = put_table(r, 1, y);
    let a = crash_answer(r, none, offered);
    let b = crash_answer(r, none, lost);
    let c = crash_answer(r, none, tabled);
    let d = crash_answer(r, none, higher);
    line(out, b"crash_offers_an_absent_node_that_is_not_zeros", a);
    line(
        out,
        b"crash_loses_a_node_and_the_absent_one_is_not_zeros",
        b,
    );
    line(out, b"crash_offers_an_absent_table_that_is_not_zeros", c);
    line(out, b"crash_offers_an_absent_node_with_high_alone", d);
}

pub(crate) fn run(out: &mut Output) {
    each_queue(out);
    appears(out);
    absent(out);
}
