// The call that a request makes on a cache and a disk.
ghost use Rattle.std.specs.Prelude.{◌≡◌};
ghost use Rattle.script.specs.Calls.{stored_node, cached_node, node_value, stored_table, cache_table, table_value, brought_of};
ghost use Rattle.script.specs.Calls.{bringing_of, call_of};

use crate::request::{NodeSource, Request, TableSource};
use blockcache::{CacheState, Call};
use blockdisk::{Brought, DiskOp, DiskState};
use cache::is_ready;
use sectortype::{Node, Nodes, Table};

// What is stored at the place that is queued as a node read under an id.
#[tactic(auto, unfolding(crate::specs::Calls::stored_node))]
fn answered_node(device: u64, disk: DiskState, id: u64) -> Option<Node>
    ensures { result ≡ stored_node device disk id }
{
    let q = disk.queues.nodereads;
    let records = disk.records;
    let w = queue::entry(q, id);
    let r = disk::node_at(device, records, w.loc);
    if queue::has(q, id) & r.present {
        return Some(r.held);
    }
    None
}

#[tactic(auto, unfolding(crate::specs::Calls::stored_table))]
fn answered_table(device: u64, disk: DiskState, id: u64) -> Option<Table>
    ensures { result ≡ stored_table device disk id }
{
    let q = disk.queues.tablereads;
    let records = disk.records;
    let w = queue::entry(q, id);
    let r = disk::table_at(device, records, w.loc);
    if queue::has(q, id) & r.present {
        return Some(r.held);
    }
    None
}

// The cached node of a reference, zeros where there is none.
#[tactic(auto, unfolding(crate::specs::Calls::cached_node))]
fn cached_node(nodes: Nodes, reference: u64) -> Node
    ensures { result ≡ cached_node nodes reference }
{
    if reference > 63 {
        return sector::zero_node();
    }
    let r = reference as usize;
    let slot = nodes.slots[r];
    if slot.present {
        return slot.node;
    }
    sector::zero_node()
}

// One of the cache's tables, or the empty one where it is not there.
fn cache_table(present: bool, t: Table) -> Table
    ensures { result ≡ cache_table present t }
{
    if present { t } else { sector::empty_table() }
}

fn node_value(
    source: NodeSource,
    reference: u64,
    id: u64,
    device: u64,
    cache: CacheState,
    disk: DiskState,
) -> Option<Node>
    ensures { result ≡ node_value source reference id device cache disk }
{
    match source {
        NodeSource::Nothing => None,
        NodeSource::Written(node) => Some(node),
        NodeSource::Stored => answered_node(device, disk, id),
        NodeSource::Cached => Some(cached_node(cache.nodes, reference)),
    }
}

fn table_value(
    source: TableSource,
    id: u64,
    device: u64,
    cache: CacheState,
    disk: DiskState,
) -> Option<Table>
    ensures { result ≡ table_value source id device cache disk }
{
    let phase = cache.phase;
    let ready = is_ready(phase);
    let tables = cache.tables;
    match source {
        TableSource::Nothing => None,
        TableSource::Written(table) => Some(table),
        TableSource::Stored => answered_table(device, disk, id),
        TableSource::Frozen => Some(cache_table(ready & tables.isfrozen, tables.frozen)),
        TableSource::Ephemeral => Some(cache_table(ready, tables.ephemeral)),
        TableSource::Persistent => Some(cache_table(ready, tables.persistent)),
        TableSource::Small(k) => {
            let small = numbering::small_table(device, k);
            Some(small.unwrap_or(sector::empty_table()))
        }
    }
}

fn brought(something: bool) -> Brought
    ensures { result ≡ brought_of something }
{
    if something {
        Brought::Something
    } else {
        Brought::Nothing
    }
}

// The disk operation, with what the two read answers bring.
fn bringing(op: DiskOp, node: Brought, table: Brought) -> DiskOp
    ensures { result ≡ bringing_of op node table }
{
    match op {
        DiskOp::ReqReadIndirectionTableOp(id, loc) => DiskOp::ReqReadIndirectionTableOp(id, loc),
        DiskOp::ReqReadNodeOp(id, loc) => DiskOp::ReqReadNodeOp(id, loc),
        DiskOp::ReqWriteIndirectionTableOp(id, loc) => DiskOp::ReqWriteIndirectionTableOp(id, loc),
        DiskOp::ReqWriteNodeOp(id, loc) => DiskOp::ReqWriteNodeOp(id, loc),
        DiskOp::RespReadIndirectionTableOp(id, _) => DiskOp::RespReadIndirectionTableOp(id, table),
        DiskOp::RespReadNodeOp(id, _) => DiskOp::RespReadNodeOp(id, node),
        DiskOp::RespWriteIndirectionTableOp(id) => DiskOp::RespWriteIndirectionTableOp(id),
        DiskOp::RespWriteNodeOp(id) => DiskOp::RespWriteNodeOp(id),
        DiskOp::NoDiskOp => DiskOp::NoDiskOp,
    }
}

// Where nothing is brought, but a node or a table is needed all the same, it is a node of zeros or the empty table.
#[tactic(auto, unfolding(crate::specs::Calls::call_of))]
pub fn call_of(q: Request, device: u64, cache: CacheState, disk: DiskState) -> Call
    ensures { result ≡ call_of q device cache disk }
{
    let n = node_value(q.node, q.reference, q.id, device, cache, disk);
    let t = table_value(q.table, q.id, device, cache, disk);
    Call {
        reference: q.reference,
        vop: q.vop,
        dop: bringing(q.dop, brought(n.is_some()), brought(t.is_some())),
        node: n.unwrap_or(sector::zero_node()),
        table: t.unwrap_or(sector::empty_table()),
    }
}
