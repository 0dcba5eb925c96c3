// The references lost, added and altered at the place (AREA1, 4096). After a list of joined calls none are, so pictures and disks are
// made by hand here. The picture's reference k has contents 100 + k, high 0; a node with contents 200 + k is another one. The numbers
// follow from document 01: a reference is lost if only the picture has it, added if only the disk has it, altered if both have it with
// different nodes; the disk has what is stored at exactly the place, then at exactly the reference's location.
use blockdisk::Records;
use blocksystem::Named;
use fixtures::ranges::{block_addr, picture_of, table_of, with_nodes};
use fixtures::show::counts;
use fixtures::{AREA1, AREA2, at, entry_nowhere, high_leaf, leaf, put_node, put_table, storing};
use output::Output;
use sectortype::{Node, Nodes, Table};
use system::Store;

fn audited(out: &mut Output, name: &[u8], picture: Nodes, r: Records) {
    let place = at(AREA1, 4096);
    let s = storing(r);
    let m = Named {
        present: true,
        place,
        picture,
    };
    let cache = cache::empty_cache();
    let store = Store {
        device: 0,
        cache,
        disk: s,
    };
    let c = store.audit(m);
    counts(out, name, c.lost, c.added, c.altered);
}

// The nodes of a range, with contents `first + k`, and nothing else.
fn nodes(from: usize, until: usize, first: u8) -> Records {
    let none = disk::empty_records();
    with_nodes(none, from, until, first)
}

// The records with this table at the place.
fn with_table(r: Records, table: Table) -> Records {
    let place = at(AREA1, 4096);
    let x = disk::present(place, table);
    put_table(r, 0, x)
}

// The records with a table at the place that locates the references of a range.
fn located(r: Records, from: usize, until: usize) -> Records {
    let table = table_of(from, until);
    with_table(r, table)
}

// All 64 references, as the picture has them.
fn whole() -> Records {
    let r = nodes(0, 64, 100);
    located(r, 0, 64)
}

// The records with this node in block 63, at this length.
fn with_last(r: Records, len: u64, node: Node) -> Records {
    let addr = block_addr(63);
    let loc = at(addr, len);
    let x = disk::present(loc, node);
    put_node(r, 63, x)
}

// Both have the same references with the same nodes: none, one, all.
fn agreeing(out: &mut Output) {
    let none = sector::empty_nodes();
    let one = picture_of(0, 1, 100);
    let all = picture_of(0, 64, 100);
    let stored = nodes(0, 64, 100);
    let first = located(stored, 0, 1);
    let full = whole();
    audited(out, b"no_picture_and_no_table", none, stored);
    audited(out, b"nodes_that_the_table_does_not_locate", one, first);
    audited(out, b"all_64_as_in_the_picture", all, full);
}

// The picture has all 64; the disk has no table at exactly the place, or no node at a location of it.
fn all_lost(out: &mut Output) {
    let all = picture_of(0, 64, 100);
    let stored = nodes(0, 64, 100);
    let none = disk::empty_records();
    let empty = located(none, 0, 64);
    let table = table_of(0, 64);
    let long = at(AREA1, 8192);
    let other = at(AREA2, 4096);
    let x = disk::present(long, table);
    let y = disk::present(other, table);
    let longer = put_table(stored, 0, x);
    let elsewhere = put_table(stored, 1, y);
    audited(out, b"no_table_at_the_place", all, stored);
    audited(out, b"a_table_of_another_length_at_the_place", all, longer);
    audited(out, b"a_table_in_the_other_area", all, elsewhere);
    audited(out, b"a_table_of_64_and_no_nodes", all, empty);
}

// The picture has all 64; of reference 63 the disk has no node at its location, one of another length there, no entry in the table, or
// an entry without a location.
fn one_lost(out: &mut Output) {
    let all = picture_of(0, 64, 100);
    let full = whole();
    let most = nodes(0, 63, 100);
    let absent = located(most, 0, 64);
    let node = leaf(163);
    let longer = with_last(full, 8192, node);
    let unlisted = located(full, 0, 63);
    let table = table_of(0, 63);
    let nowhere = entry_nowhere();
    let t = sector::with_entry(table, 63, nowhere);
    let unlocated = with_table(full, t);
    audited(out, b"no_node_at_one_location", all, absent);
    audited(
        out,
        b"a_node_of_another_length_at_one_location",
        all,
        longer,
    );
    audited(out, b"one_reference_not_in_the_table", all, unlisted);
    audited(out, b"one_reference_without_a_location", all, unlocated);
}

// The disk has all 64; the picture has none of them, or all but 63.
fn added(out: &mut Output) {
    let none = sector::empty_nodes();
    let most = picture_of(0, 63, 100);
    let full = whole();
    audited(out, b"64_references_and_no_picture", none, full);
    audited(out, b"one_reference_not_in_the_picture", most, full);
}

// Both have all 64; each has other contents on the disk, or 63 alone has other contents, another high with the same low, both exchanged, or
// the same contents and another list.
fn altered(out: &mut Output) {
    let all = picture_of(0, 64, 100);
    let full = whole();
    let others = with_nodes(full, 0, 64, 200);
    let last = with_nodes(full, 63, 64, 200);
    let mut node = leaf(163);
    let mut succs = node.succs;
    succs.count = 1;
    node.succs = succs;
    let list = with_last(full, 4096, node);
    let above = high_leaf(1, 163);
    let higher = with_last(full, 4096, above);
    let turned = high_leaf(163, 0);
    let exchanged = with_last(full, 4096, turned);
    audited(out, b"64_other_nodes", all, others);
    audited(out, b"one_node_with_other_contents", all, last);
    audited(out, b"one_node_with_another_list", all, list);
    audited(out, b"one_node_with_another_high", all, higher);
    audited(out, b"one_node_with_high_and_low_exchanged", all, exchanged);
}

// The picture has 0 to 61, the table 1 to 63: 0 is lost, 62 and 63 are added. The nodes of 1, 2 and 3 are others.
fn mixed(out: &mut Output) {
    let picture = picture_of(0, 62, 100);
    let stored = nodes(0, 64, 100);
    let changed = with_nodes(stored, 1, 4, 200);
    let r = located(changed, 1, 64);
    audited(out, b"one_lost_two_added_and_three_altered", picture, r);
}

pub(crate) fn run(out: &mut Output) {
    agreeing(out);
    all_lost(out);
    one_lost(out);
    added(out);
    altered(out);
    mixed(out);
}
