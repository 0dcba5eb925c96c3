// 20: whether a whole graph is stored at the place that a start is given (upstream's WFSuccs).
ghost use Rattle.std.specs.Prelude.{◌≡◌};
ghost use Rattle.blocksystem.specs.Start.{node_agrees, ref_agrees, graph_stored, wf_succs};

use blockdisk::{Record, Records};
use disklayout::Location;
use sectortype::{Entry, Node, Table};

fn node_agrees(t: Table, e: Entry, x: Record<Node>) -> bool
    ensures { result ≡ node_agrees t e x }
{
    x.present & sector::same_set(e.succs, x.held.succs) & sector::points_within(t, x.held.succs)
}

fn ref_agrees(device: u64, r: Records, t: Table, e: Entry) -> bool
    ensures { result ≡ ref_agrees device r t e }
{
    if !e.allocated {
        return true;
    }
    node_agrees(t, e, disk::node_at(device, r, e.loc))
}

fn graph_stored(device: u64, r: Records, t: Table) -> bool
    ensures { result ≡ graph_stored device r t }
{
    t.entries.iter().all(|e| ref_agrees(device, r, t, *e))
}

#[tactic(auto, unfolding(blocksystem::specs::Start::wf_succs))]
pub(crate) fn wf_succs(device: u64, r: Records, loc: Location) -> bool
    ensures { result ≡ wf_succs device r loc }
{
    let x = disk::table_at(device, r, loc);
    x.present
        & sector::wf_complete_indirection_table(device, x.held)
        & graph_stored(device, r, x.held)
}
