// The records that a crash line offers: what is stored, but where a word of the line says otherwise.
ghost use Rattle.std.specs.Prelude.{◌≡◌, ◌<◌};
ghost use Rattle.script.specs.Offers.{offered_table, area_of, block_of, with_area, with_block, with_word, with_blocks, offered_of};

use blockdisk::{Record, Records};
use sectortype::{Node, Table};
use words::digits::{location, small};
use words::lists::node;
use words::tables::table;
use words::text::{after, cut, same, word, words};

// The records so far, and the blocks that a word has named.
#[derive(Clone, Copy)]
pub struct Offer {
    pub named: [bool; 128],
    pub records: Records,
}

// A table behind a `/`: written out, or `empty`.
#[tactic(auto, unfolding(crate::specs::Offers::offered_table))]
fn offered_table(w: &[u8]) -> Option<Table>
    ensures { result ≡ offered_table w.now }
{
    if same(w, b"empty") {
        return Some(sector::empty_table());
    }
    let read = table(w)?;
    Some(read.table)
}

// `none` or `ADDR+LEN/TABLE`.
#[tactic(auto, unfolding(crate::specs::Offers::area_of))]
fn area(w: &[u8]) -> Option<Record<Table>>
    ensures { result ≡ area_of w.now }
{
    if same(w, b"none") {
        return Some(disk::absent(sector::empty_table()));
    }
    let (first, second) = cut(w, b'/')?;
    let loc = location(first)?;
    let table = offered_table(second)?;
    Some(disk::present(loc, table))
}

// `none` or `ADDR+LEN/NODE`.
#[tactic(auto, unfolding(crate::specs::Offers::block_of))]
fn block(w: &[u8]) -> Option<Record<Node>>
    ensures { result ≡ block_of w.now }
{
    if same(w, b"none") {
        return Some(disk::absent(sector::zero_node()));
    }
    let (first, second) = cut(w, b'/')?;
    let loc = location(first)?;
    let node = node(second)?;
    Some(disk::present(loc, node))
}

// With what a line has for one of the table areas, 0 or 1; what is stored there where it has nothing.
#[tactic(auto, unfolding(crate::specs::Offers::with_area))]
fn with_area(mut o: Offer, rest: &[u8], key: &[u8], k: usize) -> Option<Offer>
    requires { k < 2 }
    ensures { result ≡ with_area o rest.now key.now k }
{
    let w = word(rest, key);
    if w.is_empty() {
        return Some(o);
    }
    let held = area(after(w, key.len()))?;
    o.records.tables[k] = held;
    Some(o)
}

// With what one word has for a block, `K:` and the record; no block is named twice.
#[tactic(auto, unfolding(crate::specs::Offers::with_block))]
fn with_block(mut o: Offer, w: &[u8]) -> Option<Offer>
    ensures { result ≡ with_block o w.now }
{
    let (first, second) = cut(w, b':')?;
    let k = small(first, 127)? as usize;
    let held = block(second)?;
    if o.named[k] {
        return None;
    }
    o.records.nodes[k] = held;
    o.named[k] = true;
    Some(o)
}

// With what one word of a line has; only `block=` says anything of blocks.
#[tactic(auto, unfolding(crate::specs::Offers::with_word))]
fn with_word(o: Offer, w: &[u8]) -> Option<Offer>
    ensures { result ≡ with_word o w.now }
{
    if w.starts_with(b"block=") {
        return with_block(o, after(w, 6));
    }
    Some(o)
}

// With what all the words of a line have for blocks.
#[tactic(auto, unfolding(crate::specs::Offers::with_blocks))]
fn with_blocks(mut o: Offer, rest: &[u8]) -> Option<Offer>
    ensures { result ≡ with_blocks o rest.now }
{
    for w in words(rest) {
        o = with_word(o, w)?;
    }
    Some(o)
}

// What a crash line offers, from what follows its first word and what is stored.
#[tactic(auto, unfolding(crate::specs::Offers::offered_of))]
pub fn offered(rest: &[u8], stored: Records) -> Option<Offer>
    ensures { result ≡ offered_of rest.now stored }
{
    let none = Offer {
        named: [false; 128],
        records: stored,
    };
    let one = with_area(none, rest, b"table1=", 0)?;
    let two = with_area(one, rest, b"table2=", 1)?;
    with_blocks(two, rest)
}
