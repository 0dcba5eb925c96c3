// What a step line asks for, before it is known what the cache and the disk hold.
ghost use Rattle.std.specs.Prelude.{◌≡◌};
ghost use Rattle.script.specs.Requests.{node_written, node_source_of, node_word, table_written, table_small, table_text_of};
ghost use Rattle.script.specs.Requests.{table_source_of, table_word, operations_of, request_of, step_keys};

use crate::operations::{disk_word, uiop_word, version_word};
use blockcache::VersionOp;
use blockdisk::DiskOp;
use sectortype::{Node, Table};
use words::digits::{number, number_word, place_word};
use words::lists::node;
use words::tables::table;
use words::text::{Keys, after, same, word, words_fit};

// Where a call's node comes from. No word, and `none`, bring nothing.
#[derive(Clone, Copy)]
pub enum NodeSource {
    Nothing,
    Written(Node),
    Stored,
    Cached,
}

// The same for its table; `empty` counts as written out, and a small table has its number.
#[derive(Clone, Copy)]
pub enum TableSource {
    Nothing,
    Written(Table),
    Stored,
    Frozen,
    Ephemeral,
    Persistent,
    Small(u64),
}

// The two operations, and the id that the disk operation has, which `stored` goes by too.
#[derive(Clone, Copy)]
pub struct Operations {
    pub id: u64,
    pub vop: VersionOp,
    pub dop: DiskOp,
}

// A step line, read.
#[derive(Clone, Copy)]
pub struct Request {
    pub reference: u64,
    pub id: u64,
    pub vop: VersionOp,
    pub dop: DiskOp,
    pub node: NodeSource,
    pub table: TableSource,
}

fn node_written(w: &[u8]) -> Option<NodeSource>
    ensures { result ≡ node_written w.now }
{
    Some(NodeSource::Written(node(w)?))
}

#[tactic(auto, unfolding(crate::specs::Requests::node_source_of))]
fn node_of(w: &[u8]) -> Option<NodeSource>
    ensures { result ≡ node_source_of w.now }
{
    if same(w, b"none") {
        return Some(NodeSource::Nothing);
    }
    if same(w, b"stored") {
        return Some(NodeSource::Stored);
    }
    if same(w, b"cached") {
        return Some(NodeSource::Cached);
    }
    node_written(w)
}

fn table_written(w: &[u8]) -> Option<TableSource>
    ensures { result ≡ table_written w.now }
{
    let read = table(w)?;
    Some(TableSource::Written(read.table))
}

// A small table, from what stands behind `small/`: any number, as the store says which have a table.
fn table_small(w: &[u8]) -> Option<TableSource>
    ensures { result ≡ table_small w.now }
{
    Some(TableSource::Small(number(w)?))
}

// A small table by its number, or a table written out.
#[tactic(auto, unfolding(crate::specs::Requests::table_text_of))]
fn table_text(w: &[u8]) -> Option<TableSource>
    ensures { result ≡ table_text_of w.now }
{
    if w.starts_with(b"small/") {
        return table_small(after(w, 6));
    }
    table_written(w)
}

#[tactic(auto, unfolding(crate::specs::Requests::table_source_of))]
fn table_of(w: &[u8]) -> Option<TableSource>
    ensures { result ≡ table_source_of w.now }
{
    if same(w, b"none") {
        return Some(TableSource::Nothing);
    }
    if same(w, b"empty") {
        return Some(TableSource::Written(sector::empty_table()));
    }
    if same(w, b"stored") {
        return Some(TableSource::Stored);
    }
    if same(w, b"frozen") {
        return Some(TableSource::Frozen);
    }
    if same(w, b"ephemeral") {
        return Some(TableSource::Ephemeral);
    }
    if same(w, b"persistent") {
        return Some(TableSource::Persistent);
    }
    table_text(w)
}

#[tactic(auto, unfolding(crate::specs::Requests::node_word))]
fn node_word(rest: &[u8]) -> Option<NodeSource>
    ensures { result ≡ node_word rest.now }
{
    let w = word(rest, b"node=");
    if w.is_empty() {
        return Some(NodeSource::Nothing);
    }
    node_of(after(w, 5))
}

#[tactic(auto, unfolding(crate::specs::Requests::table_word))]
fn table_word(rest: &[u8]) -> Option<TableSource>
    ensures { result ≡ table_word rest.now }
{
    let w = word(rest, b"table=");
    if w.is_empty() {
        return Some(TableSource::Nothing);
    }
    table_of(after(w, 6))
}

// The words that a step line may have, by the step's number: `table1`, `table2` and `block` are a crash's alone, and `op` is step 20's.
pub fn step_keys(number: u64) -> Keys
    ensures { result ≡ step_keys number }
{
    match number {
        18 => Keys::Crash,
        20 => Keys::Transaction,
        _ => Keys::Step,
    }
}

// The two operations of a step line, with all that they carry.
#[tactic(auto, unfolding(crate::specs::Requests::operations_of))]
fn operations_of(rest: &[u8]) -> Option<Operations>
    ensures { result ≡ operations_of rest.now }
{
    let id = number_word(rest, b"id=")?;
    let vloc = place_word(rest, b"vloc=")?;
    let loc = place_word(rest, b"loc=")?;
    let noop = uiop_word(rest)?;
    let vop = version_word(rest, vloc, noop)?;
    let dop = disk_word(rest, id, loc)?;
    Some(Operations { id, vop, dop })
}

// What a step line asks for, from what follows its first word and the words that the line may have.
#[tactic(auto, unfolding(crate::specs::Requests::request_of))]
pub fn request_of(rest: &[u8], keys: Keys) -> Option<Request>
    ensures { result ≡ request_of rest.now keys }
{
    if !words_fit(rest, keys) {
        return None;
    }
    let reference = number_word(rest, b"ref=")?;
    let o = operations_of(rest)?;
    let node = node_word(rest)?;
    let table = table_word(rest)?;
    Some(Request {
        reference,
        id: o.id,
        vop: o.vop,
        dop: o.dop,
        node,
        table,
    })
}
