// Formatting: the root in the first node block, its table in area 1, all else empty, under the rule named; and the names and pictures at first.
ghost use Rattle.std.specs.Prelude.{◌≡◌};
ghost use Rattle.blockcache.specs.Form.{empty_cache};
ghost use Rattle.blockdisk.specs.Crash.{empty_queues};
ghost use Rattle.sectortype.specs.Form.{zero_node};
ghost use Rattle.blocksystem.specs.Format.{formatted_place, root_table, formatted_records, formatted};
ghost use Rattle.blocksystem.specs.Names.{zero_named, with_root, first_pictures};

use crate::Store;
use blockdisk::{DiskState, Records};
use blocksystem::{Named, Outcome, Pictures};
use disklayout::Location;
use sectortype::{Contents, Entry, Nodes, Slot, Table};

fn place_at(addr: u64) -> Location
    ensures { result ≡ formatted_place addr }
{
    Location { addr, len: 4096 }
}

#[tactic(auto, unfolding(blocksystem::specs::Format::root_table))]
fn root_table(place: Location) -> Table
    ensures { result ≡ root_table place }
{
    let root = Entry {
        allocated: true,
        located: true,
        loc: place,
        ..sector::zero_entry()
    };
    sector::with_entry(sector::empty_table(), 0, root)
}

#[tactic(auto, unfolding(blocksystem::specs::Format::formatted_records))]
fn formatted_records(at: Location, place: Location, contents: Contents) -> Records
    ensures { result ≡ formatted_records at place contents }
{
    let mut r = disk::empty_records();
    r.tables[0] = disk::present(at, root_table(place));
    r.nodes[0] = disk::present(place, sector::leaf_node(contents));
    r
}

// These records, on a disk and under a cache that nothing was asked of.
fn unused(answer: u64, rule: u64, records: Records) -> Outcome
    ensures { result ≡ record { answer = answer; node = zero_node; cache = empty_cache; disk = record { rule = rule; records = records; queues = empty_queues } } }
{
    Outcome {
        answer,
        node: sector::zero_node(),
        cache: cache::empty_cache(),
        disk: DiskState {
            rule,
            records,
            queues: disk::empty_queues(),
        },
    }
}

impl Store {
    // A newly formatted device, under the freeze rule named; a device above 2, or a rule that is neither 1 nor 2, gives 1 and zeros.
    #[tactic(auto, using(disklayout::proofs::Results::answered_number), unfolding(blocksystem::specs::Format::formatted))]
    pub fn format(device: u64, contents: Contents, rule: u64) -> Outcome
        ensures { result ≡ formatted device contents rule }
    {
        let good = (device <= 2) & disk::is_rule(rule);
        if !good {
            return unused(1, 0, disk::empty_records());
        }
        let at = place_at(layout::indirection_table1_addr(device).unwrap_or(0));
        let place = place_at(layout::first_node_addr(device).unwrap_or(0));
        unused(0, rule, formatted_records(at, place, contents))
    }
}

pub(crate) fn zero_named() -> Named
    ensures { result ≡ zero_named }
{
    Named {
        present: false,
        place: sector::zero_loc(),
        picture: sector::empty_nodes(),
    }
}

fn with_root(contents: Contents) -> Nodes
    ensures { result ≡ with_root contents }
{
    let root = Slot {
        present: true,
        node: sector::leaf_node(contents),
    };
    sector::with_slot(sector::empty_nodes(), 0, root)
}

// Names and pictures of a newly formatted device.
#[tactic(auto, using(disklayout::proofs::Results::answered_number), unfolding(blocksystem::specs::Names::first_pictures))]
pub fn format_pictures(device: u64, contents: Contents) -> Pictures
    ensures { result ≡ first_pictures device contents }
{
    let working = with_root(contents);
    Pictures {
        first: Named {
            present: true,
            place: place_at(layout::indirection_table1_addr(device).unwrap_or(0)),
            picture: working,
        },
        second: zero_named(),
        working,
        frozen: sector::empty_nodes(),
    }
}
