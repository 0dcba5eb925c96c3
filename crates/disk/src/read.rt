// What is stored at exactly a place, address and length; and the records with another at its place.
ghost use Rattle.std.specs.Prelude.{◌≡◌};
ghost use Rattle.blockdisk.specs.Records.{absent_record, present_record, area_of, block_of, record_in, read_table, read_node, with_table, with_node};
ghost use Rattle.blockdisk.specs.Records.{empty_records};

use blockdisk::{Record, Records};
use disklayout::Location;
use sectortype::{Node, Table};

// No record, around a table or a node of zeros.
pub fn absent<T>(zero: T) -> Record<T>
    ensures { result ≡ absent_record zero }
{
    Record {
        present: false,
        loc: sector::zero_loc(),
        held: zero,
    }
}

// This table or node at this place.
pub fn present<T>(loc: Location, held: T) -> Record<T>
    ensures { result ≡ present_record loc held }
{
    Record {
        present: true,
        loc,
        held,
    }
}

// Nothing stored.
pub fn empty_records() -> Records
    ensures { result ≡ empty_records }
{
    Records {
        tables: [absent(sector::empty_table()); 2],
        nodes: [absent(sector::zero_node()); 128],
    }
}

// The area and the block that has a place's address.
fn area_of(device: u64, loc: Location) -> Option<u64>
    ensures { result ≡ area_of device loc }
{
    layout::table_area_of(device, loc.addr).unwrap_or(None)
}

fn block_of(device: u64, loc: Location) -> Option<u64>
    ensures { result ≡ block_of device loc }
{
    layout::node_block_by_walk(device, loc.addr).unwrap_or(None)
}

// The record that number `at` has at exactly this place, or an empty one.
fn record_at<T: Copy>(records: &[Record<T>], at: Option<u64>, loc: Location, zero: T) -> Record<T>
    ensures { result ≡ record_in at records.now loc zero }
{
    at.and_then(|k| records.get(k as usize))
        .filter(|x| x.present & (x.loc == loc))
        .copied()
        .unwrap_or(absent(zero))
}

#[tactic(auto, using(blockdisk::proofs::Numbers::table_in_area))]
pub fn table_at(device: u64, r: Records, loc: Location) -> Record<Table>
    ensures { result ≡ read_table device r loc }
{
    record_at(&r.tables, area_of(device, loc), loc, sector::empty_table())
}

// Of lent records: whoever reads many places copies none of the others.
#[tactic(auto, using(blockdisk::proofs::Numbers::node_in_block))]
pub fn node_in(device: u64, r: &Records, loc: Location) -> Record<Node>
    ensures { result ≡ read_node device r.now loc }
{
    record_at(&r.nodes, block_of(device, loc), loc, sector::zero_node())
}

pub fn node_at(device: u64, r: Records, loc: Location) -> Record<Node>
    ensures { result ≡ read_node device r loc }
{
    node_in(device, &r, loc)
}

// The records with this one in its area, and every other as it was.
#[tactic(auto, using(blockdisk::proofs::Numbers::area_below), unfolding(blockdisk::specs::Records::with_table))]
pub(crate) fn with_table(device: u64, mut r: Records, loc: Location, table: Table) -> Records
    ensures { result ≡ with_table device r loc table }
{
    let area = area_of(device, loc).unwrap_or(0);
    r.tables[area as usize] = present(loc, table);
    r
}

// The records with this one in its block, and every other as it was.
#[tactic(auto, using(blockdisk::proofs::Numbers::block_below), unfolding(blockdisk::specs::Records::with_node))]
pub(crate) fn with_node(device: u64, mut r: Records, loc: Location, node: Node) -> Records
    ensures { result ≡ with_node device r loc node }
{
    let block = block_of(device, loc).unwrap_or(0);
    r.nodes[block as usize] = present(loc, node);
    r
}
