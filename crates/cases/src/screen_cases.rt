// A node compared with the working picture's. After a list of joined calls with starts at named places an accepted read hands out no other node than the picture's,
// so pictures are made by hand here. The picture's reference k has contents 100 + k, high 0, and lists nothing, where a case doesn't say otherwise. The words follow
// from document 02, Q-9: same where the picture has that reference with this node, high, low and list in its order, else other.
use crate::node_cases::list;
use blocksystem::Pictures;
use fixtures::ranges::picture_of;
use fixtures::show::picture;
use fixtures::{high_leaf, leaf};
use output::Output;
use sectortype::{Node, Nodes, Slot};

// These as the working picture; the other pictures are empty, and a place is named.
fn working(m: Nodes) -> Pictures {
    let none = sector::empty_nodes();
    let contents = sector::zero_contents();
    let mut t = system::format_pictures(0, contents);
    let mut first = t.first;
    first.picture = none;
    t.first = first;
    t.working = m;
    t
}

fn all() -> Nodes {
    picture_of(0, 64, 100)
}

fn shown(out: &mut Output, name: &[u8], m: Nodes, reference: u64, node: Node) {
    let t = working(m);
    let same = system::is_pictured(t, reference, node);
    picture(out, name, same);
}

// A node and the working picture's reference 63.
fn last(out: &mut Output, name: &[u8], node: Node) {
    let m = all();
    shown(out, name, m, 63, node);
}

fn numbers(out: &mut Output) {
    let m = all();
    let zero = sector::zero_node();
    shown(out, b"reference_0_as_in_the_picture", m, 0, leaf(100));
    shown(out, b"the_node_of_another_reference", m, 62, leaf(163));
    last(out, b"reference_63_as_in_the_picture", leaf(163));
    last(out, b"reference_63_with_another_low", leaf(162));
    last(
        out,
        b"reference_63_with_a_low_that_ends_alike",
        leaf(4294967459),
    );
    last(out, b"reference_63_with_another_high", high_leaf(1, 163));
    last(
        out,
        b"reference_63_with_a_high_of_one_bit",
        high_leaf(9223372036854775808, 163),
    );
    last(
        out,
        b"reference_63_with_high_and_low_exchanged",
        high_leaf(163, 0),
    );
    last(out, b"reference_63_with_no_contents", zero);
    last(out, b"reference_63_with_a_list", listing(163, 2));
}

// The picture with this node of this reference.
fn having(reference: usize, node: Node) -> Nodes {
    let slot = Slot {
        present: true,
        node,
    };
    sector::with_slot(all(), reference, slot)
}

// The picture's reference 7 has high 5 and low 73, its reference 8 zeros.
fn highs(out: &mut Output) {
    let m = having(7, high_leaf(5, 73));
    let zero = sector::zero_node();
    let n = having(8, zero);
    shown(
        out,
        b"high_and_low_as_in_the_picture",
        m,
        7,
        high_leaf(5, 73),
    );
    shown(out, b"low_alone", m, 7, leaf(73));
    shown(out, b"low_with_another_high", m, 7, high_leaf(6, 73));
    shown(out, b"zeros_that_the_picture_has", n, 8, zero);
    shown(out, b"a_low_where_the_picture_has_zeros", n, 8, leaf(1));
}

// A node that lists 3 and then 0: of these the first `count`, at most two. The list of one differs from it in the count alone.
fn listing(contents: u64, count: u8) -> Node {
    let mut succs = list(3, 0);
    succs.count = count;
    let mut node = leaf(contents);
    node.succs = succs;
    node
}

// The picture's reference 5 lists 3 and 0. Other lists of the same set, in another order and with a repeat, are other nodes.
fn lists(out: &mut Output) {
    let node = listing(105, 2);
    let m = having(5, node);
    let mut turned = node;
    turned.succs = list(0, 3);
    let mut repeated = node;
    let mut succs = repeated.succs;
    succs.count = 3;
    repeated.succs = succs;
    let mut less = node;
    less.succs = sector::zero_succs();
    shown(out, b"a_list_as_in_the_picture", m, 5, node);
    shown(out, b"the_list_in_another_order", m, 5, turned);
    shown(out, b"the_list_with_a_repeat", m, 5, repeated);
    shown(out, b"a_part_of_the_list", m, 5, listing(105, 1));
    shown(out, b"no_list", m, 5, less);
    shown(out, b"the_list_with_other_contents", m, 5, listing(104, 2));
}

// A node that lists eight references, the last of them this one.
fn eight(reference: u8) -> Node {
    let mut node = leaf(106);
    let mut succs = node.succs;
    succs.at = [1, 2, 3, 4, 5, 6, 7, reference];
    succs.count = 8;
    node.succs = succs;
    node
}

fn long_lists(out: &mut Output) {
    let m = having(6, eight(8));
    shown(out, b"a_list_of_eight_as_in_the_picture", m, 6, eight(8));
    shown(out, b"a_list_of_eight_with_another_eighth", m, 6, eight(9));
}

// The picture lacks 63; of what it lacks the struct holds a node of zeros, or, where it is not in its written form, another.
fn lacking(out: &mut Output) {
    let m = picture_of(0, 63, 100);
    let none = sector::empty_nodes();
    let zero = sector::zero_node();
    let node = leaf(163);
    let slot = Slot {
        present: false,
        node,
    };
    let absent = sector::with_slot(m, 63, slot);
    shown(out, b"a_reference_that_the_picture_lacks", m, 63, node);
    shown(
        out,
        b"zeros_for_a_reference_that_the_picture_lacks",
        m,
        63,
        zero,
    );
    shown(out, b"the_node_of_a_slot_that_is_absent", absent, 63, node);
    shown(out, b"a_node_and_an_empty_picture", none, 0, leaf(100));
    shown(out, b"zeros_and_an_empty_picture", none, 0, zero);
}

// There is no reference above 63: none is taken for one that has the same last bits.
fn above(out: &mut Output) {
    let m = all();
    let zero = sector::zero_node();
    shown(out, b"reference_64_with_the_node_of_0", m, 64, leaf(100));
    shown(out, b"reference_64_with_zeros", m, 64, zero);
    shown(out, b"reference_127_with_the_node_of_63", m, 127, leaf(163));
    shown(out, b"reference_256_with_the_node_of_0", m, 256, leaf(100));
    shown(
        out,
        b"reference_4294967296_with_the_node_of_0",
        m,
        4294967296,
        leaf(100),
    );
    shown(
        out,
        b"the_largest_reference_with_the_node_of_63",
        m,
        u64::MAX,
        leaf(163),
    );
}

// These as the working picture; every other picture has the others.
fn among(m: Nodes, others: Nodes) -> Pictures {
    let mut t = working(m);
    let mut first = t.first;
    first.picture = others;
    t.first = first;
    t.second = first;
    t.frozen = others;
    t
}

// Only the working picture is looked at.
fn other_pictures(out: &mut Output) {
    let none = sector::empty_nodes();
    let without = among(none, all());
    let apart = among(all(), picture_of(0, 64, 200));
    let same = system::is_pictured(without, 0, leaf(100));
    picture(out, b"a_node_of_every_picture_but_the_working_one", same);
    let same = system::is_pictured(apart, 0, leaf(100));
    picture(out, b"a_node_of_the_working_picture_alone", same);
    let same = system::is_pictured(apart, 0, leaf(200));
    picture(out, b"another_node_of_every_other_picture", same);
}

pub(crate) fn run(out: &mut Output) {
    numbers(out);
    highs(out);
    lists(out);
    long_lists(out);
    lacking(out);
    above(out);
    other_pictures(out);
}
