// The disk's one written form (number 1): each record in its own form and place, each queue in its form with places that 16 allows, a rule that is 1 or 2.
ghost use Rattle.std.specs.Prelude.{◌&&◌, ◌||◌, not, ◌≡◌, ℕ, ◌<◌, eqb};
ghost use Rattle.disklayout.specs.Blocks.{table_place_in};
ghost use Rattle.disklayout.specs.Calls.{holds_on, running_on};
ghost use Rattle.disklayout.specs.Device.{device_of, made};
ghost use Rattle.sectortype.specs.Form.{loc_zero};
ghost use Rattle.blockdisk.specs.Form.{disk_form, node_record_checked, table_record_checked, tables_checked, nodes_checked, records_checked, is_rule};
ghost use Rattle.blockdisk.specs.Form.{node_allowed, table_allowed, table_request_ok, node_request_ok, table_queue_form, node_queue_form, queues_form};

use crate::Disk;
use blockdisk::{Checked, Queues, Record, Records};
use disklayout::{Kind, Location};
use queue::{Request, Requests};
use sectortype::{Node, Table};

// One record of area k: an absent one is zeros, one that is there lies in the area; an absent one isn't asked for its place. Inlined, as a call
// of its own would copy the table.
#[tactic(auto, using(disklayout::proofs::Results::answered_yes), unfolding(blockdisk::specs::Form::table_record_checked))]
#[inline(always)]
fn table_record_ok(device: u64, k: u64, r: &Record<Table>) -> Checked
    ensures { result ≡ table_record_checked device k r.now }
{
    let empty = sector::loc_zero(r.loc) & (r.held.count == 0);
    Checked {
        form: sector::table_form(r.held) & (r.present | empty),
        placed: !r.present || layout::table_place_in(device, k, r.loc).unwrap_or(false),
    }
}

// One record, of whichever of the 128 blocks begins at `at`, likewise; inlined too, as it is asked 128 times for a call.
#[inline(always)]
fn node_record_ok(device: u64, at: u64, r: &Record<Node>) -> Checked
    ensures { (k : ℕ) → k < 128 → at ≡ running_on device k → result ≡ node_record_checked device k r.now }
{
    let form = sector::node_form(r.held);
    if r.present {
        let may = layout::node_place_length(device, r.loc.len).unwrap_or(false);
        return Checked {
            form,
            placed: (r.loc.addr == at) & may,
        };
    }
    Checked {
        form: form & (sector::loc_zero(r.loc) & sector::node_zero(r.held)),
        placed: true,
    }
}

#[tactic(auto, unfolding(blockdisk::specs::Form::tables_checked))]
fn tables_ok(device: u64, tables: [Record<Table>; 2]) -> Checked
    ensures { result ≡ tables_checked device tables }
{
    let first = table_record_ok(device, 0, &tables[0]);
    let second = table_record_ok(device, 1, &tables[1]);
    Checked {
        form: first.form & second.form,
        placed: first.placed & second.placed,
    }
}

// The walk keeps a running address: the first node address, and a block's size more at each record, both as `layout` gives them.
fn nodes_ok(device: u64, nodes: [Record<Node>; 128]) -> Checked
    ensures { result ≡ nodes_checked device nodes }
{
    let size = layout::node_block_size(device).unwrap_or(0);
    let mut at = layout::first_node_addr(device).unwrap_or(0);
    let mut form = true;
    let mut placed = true;
    for r in nodes.iter() {
        let c = node_record_ok(device, at, r);
        form = form & c.form;
        placed = placed & c.placed;
        at += size;
    }
    Checked { form, placed }
}

// Stored records, and those offered to a crash, are walked once.
#[tactic(auto, unfolding(blockdisk::specs::Form::records_checked))]
pub(crate) fn records_ok(device: u64, r: Records) -> Checked
    ensures { result ≡ records_checked device r }
{
    let a = tables_ok(device, r.tables);
    let b = nodes_ok(device, r.nodes);
    Checked {
        form: a.form & b.form,
        placed: a.placed & b.placed,
    }
}

// Whether refusal 16 allows a table's place, and a node's.
#[tactic(auto, unfolding(disklayout::specs::Kinds::kind_holds))]
pub(crate) fn table_allowed(device: u64, loc: Location) -> bool
    ensures { result ≡ table_allowed device loc }
{
    layout::is_kind(device, loc, Kind::Table)
}

#[tactic(auto, using(disklayout::proofs::Results::answered_yes))]
pub(crate) fn node_allowed(device: u64, loc: Location) -> bool
    ensures { result ≡ node_allowed device loc }
{
    layout::node_place(device, loc).unwrap_or(false)
}

// One place of a queue of table requests. Nothing is asked of one that is not used.
fn table_request_ok(device: u64, w: Request) -> bool
    ensures { result ≡ table_request_ok device w }
{
    (w.reference == 0) & table_allowed(device, w.loc)
}

// One place of a queue of node requests, likewise.
fn node_request_ok(device: u64, w: Request) -> bool
    ensures { result ≡ node_request_ok device w }
{
    (w.reference == 0) & node_allowed(device, w.loc)
}

fn table_queue_ok(device: u64, q: Requests) -> bool
    ensures { result ≡ table_queue_form device q }
{
    let good = q
        .at
        .iter()
        .take(q.count as usize)
        .all(|w| table_request_ok(device, *w));
    queue::form(q) & good
}

fn node_queue_ok(device: u64, q: Requests) -> bool
    ensures { result ≡ node_queue_form device q }
{
    let good = q
        .at
        .iter()
        .take(q.count as usize)
        .all(|w| node_request_ok(device, *w));
    queue::form(q) & good
}

// A freeze rule is 1 or 2: a disk that carries any other is refused with 1, and so is a formatting that names one.
pub fn is_rule(rule: u64) -> bool
    ensures { result ≡ is_rule rule }
{
    (rule == 1) | (rule == 2)
}

#[tactic(auto, unfolding(blockdisk::specs::Form::queues_form))]
pub(crate) fn queues_ok(device: u64, qs: Queues) -> bool
    ensures { result ≡ queues_form device qs }
{
    table_queue_ok(device, qs.tablereads)
        & node_queue_ok(device, qs.nodereads)
        & table_queue_ok(device, qs.tablewrites)
        & node_queue_ok(device, qs.nodewrites)
}

// Number 1's question of a disk, told by its device and rule and by what its records and queues were found to be.
pub(crate) fn disk_ok(device: u64, rule: u64, stored: Checked, waiting: bool) -> bool
    ensures { result ≡ (made device && is_rule rule && stored.form && stored.placed && waiting) }
{
    (device <= 2) & is_rule(rule) & stored.form & stored.placed & waiting
}

impl Disk {
    // Whether the disk is in its written form, for a call that asks the disk nothing else, and for a crash. `next` asks the disk's parts
    // itself, as a call that takes the whole disk copies it.
    pub fn well_formed(self) -> bool
        ensures { result ≡ disk_form self.device self.state }
    {
        let stored = records_ok(self.device, self.state.records);
        let waiting = queues_ok(self.device, self.state.queues);
        disk_ok(self.device, self.state.rule, stored, waiting)
    }
}
