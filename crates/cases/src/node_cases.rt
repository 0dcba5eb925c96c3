// Two nodes compared by high, low and list. And older nodes carried over, whose contents were one number.
use fixtures::show::equal;
use fixtures::{high_leaf, leaf};
use output::Output;
use sectortype::{Node, OlderNode, Succs};

fn compared(out: &mut Output, name: &[u8], a: Node, b: Node) {
    let same = sector::same_node(a, b);
    equal(out, name, same);
}

// A list of two.
pub(crate) fn list(first: u8, second: u8) -> Succs {
    let mut s = sector::zero_succs();
    let mut at = s.at;
    at[0] = first;
    at[1] = second;
    s.at = at;
    s.count = 2;
    s
}

fn equality(out: &mut Output) {
    let node = high_leaf(5, 12);
    let again = high_leaf(5, 12);
    let higher = high_leaf(6, 12);
    let lower = high_leaf(5, 13);
    let exchanged = high_leaf(12, 5);
    let alone = leaf(12);
    let most = high_leaf(u64::MAX, u64::MAX);
    let high = high_leaf(u64::MAX, 0);
    let low = leaf(u64::MAX);
    let mut listing = node;
    listing.succs = list(3, 0);
    compared(out, b"equal_in_high_low_and_list", node, again);
    compared(out, b"another_high", node, higher);
    compared(out, b"another_low", node, lower);
    compared(out, b"high_and_low_exchanged", node, exchanged);
    compared(out, b"high_5_and_high_0", node, alone);
    compared(out, b"another_list", node, listing);
    compared(out, b"both_largest_and_the_same", most, most);
    compared(out, b"both_largest_and_high_alone", most, high);
    compared(out, b"both_largest_and_low_alone", most, low);
    compared(out, b"high_alone_and_low_alone", high, low);
}

// An older node with this number and this list.
fn older(contents: u64, succs: Succs) -> OlderNode {
    OlderNode { contents, succs }
}

fn carried(out: &mut Output) {
    let there = list(3, 0);
    let back = list(0, 3);
    let node = sector::carried(older(12, there));
    let again = sector::carried(older(12, there));
    let other = sector::carried(older(13, there));
    let turned = sector::carried(older(12, back));
    let most = sector::carried(older(u64::MAX, there));
    let mut expected = leaf(12);
    expected.succs = there;
    let mut exchanged = high_leaf(12, 0);
    exchanged.succs = there;
    let mut largest = high_leaf(0, u64::MAX);
    largest.succs = there;
    compared(
        out,
        b"carried_has_high_0_and_the_old_number",
        node,
        expected,
    );
    compared(out, b"carried_has_the_old_number_as_high", node, exchanged);
    compared(out, b"carried_keeps_the_largest_number", most, largest);
    compared(out, b"carried_from_equal_nodes", node, again);
    compared(out, b"carried_from_another_number", node, other);
    compared(out, b"carried_from_another_list", node, turned);
}

pub(crate) fn run(out: &mut Output) {
    equality(out);
    carried(out);
}
