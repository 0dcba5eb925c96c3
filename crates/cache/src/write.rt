// Steps 1 to 4: write-back of nodes and of the frozen table. Each past V, D and phase.
#![tactic(auto, unfolding(blockcache::specs::Step::past_gate, base::specs::Refusals::answer))]

ghost use Rattle.std.specs.Prelude.{◌≡◌, ◌<◌};
ghost use Rattle.blockcache.specs.Next.{assigned};
ghost use Rattle.blockcache.specs.Step.{past_gate, settled_outcome};
ghost use Rattle.blockcache.specs.Steps.{write_back_indirection_table_req_step, write_back_indirection_table_resp_step};
ghost use Rattle.blockcache.specs.Steps.{write_back_node_req_step, write_back_node_resp_step};
ghost use Rattle.disklayout.specs.Calls.{holds_on};
ghost use Rattle.disklayout.specs.Layout.{overlap};

use crate::Cache;
use crate::answers::{NOT_WAITING, awaits_table};
use crate::judged::Judged;
use crate::ops::{dop_id, dop_loc, vop_loc};
use crate::scan::held;
use blockcache::{Awaited, CacheState, Refusal};
use disklayout::{Kind, Location};
use queue::Request;
use sectortype::{Entry, Table};

// Upstream's assign_ref_to_location: a location for a reference that is allocated and has none.
#[tactic(auto, unfolding(blockcache::specs::Next::assigned))]
fn assign_ref_to_location(t: Table, r: usize, loc: Location) -> Table
    requires { r < 64 }
    ensures { result ≡ assigned t r loc }
{
    let e = t.entries[r];
    if !e.allocated | e.located {
        return t;
    }
    let next = Entry {
        allocated: true,
        located: true,
        loc,
        succs: e.succs,
    };
    sector::with_entry(t, r, next)
}

// Whether two places overlap, on a device that is made.
#[tactic(auto, using(disklayout::proofs::Results::answered_yes))]
fn overlaps(device: u64, a: Location, b: Location) -> bool
    ensures { result ≡ holds_on device (overlap a b) }
{
    layout::overlap(device, a, b).unwrap_or(false)
}

impl Cache {
    #[tactic(auto, unfolding(blockcache::specs::Step::past_gate, base::specs::Refusals::answer, disklayout::specs::Kinds::kind_holds))]
    pub(crate) fn write_back_node_req(self, q: Judged) -> Result<CacheState, Refusal>
        ensures { settled_outcome result self.state ≡ past_gate self.settings self.state q.call write_back_node_req_step }
    {
        let mut c = self.state;
        let r = q.reference();
        let id = dop_id(q.call.dop);
        let loc = dop_loc(q.call.dop);
        let slot = c.nodes.slots[r];
        if queue::has(c.outstanding.writes, id) {
            return Err(Refusal::Id);
        }
        if !layout::is_kind(self.settings.device, loc, Kind::Node) | (loc.len == 0) {
            return Err(Refusal::Place);
        }
        if held(c.tables, c.outstanding.writes, loc.addr) {
            return Err(Refusal::Held);
        }
        if !slot.present {
            return Err(Refusal::Reference);
        }
        if !sector::same_node(slot.node, q.call.node) {
            return Err(Refusal::Contents);
        }
        if c.awaited.waiting {
            return Err(Refusal::Outstanding);
        }
        if 16 <= c.outstanding.writes.count {
            return Err(Refusal::Full);
        }
        let reference = r as u8;
        c.tables.ephemeral = assign_ref_to_location(c.tables.ephemeral, r, loc);
        c.tables.frozen = assign_ref_to_location(c.tables.frozen, r, loc);
        c.outstanding.writes = queue::insert(c.outstanding.writes, Request { id, reference, loc });
        Ok(c)
    }

    pub(crate) fn write_back_node_resp(self, q: Judged) -> Result<CacheState, Refusal>
        ensures { settled_outcome result self.state ≡ past_gate self.settings self.state q.call write_back_node_resp_step }
    {
        let mut c = self.state;
        let id = dop_id(q.call.dop);
        if !queue::has(c.outstanding.writes, id) {
            return Err(Refusal::Id);
        }
        c.outstanding.writes = queue::remove(c.outstanding.writes, id);
        Ok(c)
    }

    #[tactic(auto, unfolding(blockcache::specs::Step::past_gate, base::specs::Refusals::answer, disklayout::specs::Kinds::kind_holds))]
    pub(crate) fn write_back_indirection_table_req(self, q: Judged) -> Result<CacheState, Refusal>
        ensures { settled_outcome result self.state ≡ past_gate self.settings self.state q.call write_back_indirection_table_req_step }
    {
        let mut c = self.state;
        let device = self.settings.device;
        let loc = dop_loc(q.call.dop);
        if !layout::is_kind(device, loc, Kind::Table) | overlaps(device, loc, c.places.persistent) {
            return Err(Refusal::Place);
        }
        if c.tables.isfrozen & !sector::same_table(c.tables.frozen, q.call.table) {
            return Err(Refusal::Contents);
        }
        if c.outstanding.writes.count != 0 {
            return Err(Refusal::Outstanding);
        }
        if !c.tables.isfrozen | !sector::locs_complete(c.tables.frozen) | c.places.isfrozen {
            return Err(Refusal::Frozen);
        }
        c.places.isfrozen = true;
        c.places.frozen = loc;
        c.awaited = Awaited {
            waiting: true,
            id: dop_id(q.call.dop),
        };
        Ok(c)
    }

    pub(crate) fn write_back_indirection_table_resp(self, q: Judged) -> Result<CacheState, Refusal>
        ensures { settled_outcome result self.state ≡ past_gate self.settings self.state q.call write_back_indirection_table_resp_step }
    {
        let mut c = self.state;
        if !awaits_table(c.awaited, dop_id(q.call.dop)) {
            return Err(Refusal::Id);
        }
        if !c.places.isfrozen | (c.places.frozen != vop_loc(q.call.vop)) {
            return Err(Refusal::Place);
        }
        c.awaited = NOT_WAITING;
        Ok(c)
    }
}
