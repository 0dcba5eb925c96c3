// Whether a table is well formed on a device (upstream's WFIndirectionTable and WFCompleteIndirectionTable).
ghost use Rattle.std.specs.Prelude.{◌≡◌};
ghost use Rattle.sectortype.specs.Graph.{loc_ok, locs_valid, locs_in_graph, locs_complete, wf_indirection_table};
ghost use Rattle.sectortype.specs.Graph.{wf_complete_indirection_table};

use crate::graph::graph_closed;
use disklayout::Kind;
use sectortype::{Entry, Table};

#[tactic(auto, unfolding(disklayout::specs::Kinds::kind_holds))]
fn loc_ok(device: u64, e: Entry) -> bool
    ensures { result ≡ loc_ok device e }
{
    !e.located | layout::is_kind(device, e.loc, Kind::Node)
}

// Every location is a ValidNodeLocation.
fn locs_valid(device: u64, t: Table) -> bool
    ensures { result ≡ locs_valid device t }
{
    t.entries.iter().all(|e| loc_ok(device, *e))
}

// A reference that has a location is allocated.
fn locs_in_graph(t: Table) -> bool
    ensures { result ≡ locs_in_graph t }
{
    t.entries.iter().all(|e| !e.located | e.allocated)
}

// A reference that is allocated has a location.
pub fn locs_complete(t: Table) -> bool
    ensures { result ≡ locs_complete t }
{
    t.entries.iter().all(|e| !e.allocated | e.located)
}

#[tactic(auto, unfolding(sectortype::specs::Graph::wf_indirection_table))]
pub fn wf_indirection_table(device: u64, t: Table) -> bool
    ensures { result ≡ wf_indirection_table device t }
{
    locs_valid(device, t) & locs_in_graph(t) & t.entries[0].allocated & graph_closed(t)
}

#[tactic(auto, unfolding(sectortype::specs::Graph::wf_complete_indirection_table))]
pub fn wf_complete_indirection_table(device: u64, t: Table) -> bool
    ensures { result ≡ wf_complete_indirection_table device t }
{
    wf_indirection_table(device, t) & locs_complete(t)
}
