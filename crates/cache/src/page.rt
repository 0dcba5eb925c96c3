// Steps 6 and 7: page-in of a node. Each past V, D and phase.
#![tactic(auto, unfolding(blockcache::specs::Step::past_gate, base::specs::Refusals::answer))]

ghost use Rattle.std.specs.Prelude.{◌≡◌, ◌<◌};
ghost use Rattle.blockcache.specs.Rows.{read_ref};
ghost use Rattle.blockcache.specs.Step.{past_gate, settled_outcome};
ghost use Rattle.blockcache.specs.Steps.{page_in_node_req_step, page_in_node_resp_step};

use crate::Cache;
use crate::judged::Judged;
use crate::ops::{dop_brought, dop_id, dop_loc};
use crate::scan::reads_of;
use blockcache::{CacheState, Refusal};
use blockdisk::Brought;
use queue::Request;
use sectortype::Slot;

impl Cache {
    pub(crate) fn page_in_node_req(self, q: Judged) -> Result<CacheState, Refusal>
        ensures { settled_outcome result self.state ≡ past_gate self.settings self.state q.call page_in_node_req_step }
    {
        let mut c = self.state;
        let r = q.reference();
        let id = dop_id(q.call.dop);
        let e = c.tables.ephemeral.entries[r];
        if queue::has(c.outstanding.reads, id) {
            return Err(Refusal::Id);
        }
        if e.located & (e.loc != dop_loc(q.call.dop)) {
            return Err(Refusal::Place);
        }
        if !e.allocated | !e.located | c.nodes.slots[r].present {
            return Err(Refusal::Reference);
        }
        if reads_of(c.outstanding.reads, q.call.reference) {
            return Err(Refusal::Outstanding);
        }
        if 16 <= c.outstanding.reads.count {
            return Err(Refusal::Full);
        }
        let read = Request {
            id,
            reference: r as u8,
            loc: sector::zero_loc(),
        };
        c.outstanding.reads = queue::insert(c.outstanding.reads, read);
        Ok(c)
    }

    // The reference is that of the read answered, which the cache's form bounds. 9 is asked only where the id is awaited, and its reference
    // allocated and not cached: nothing brought, or successors that differ from the graph's as sets.
    pub(crate) fn page_in_node_resp(self, q: Judged) -> Result<CacheState, Refusal>
        requires { read_ref self.settings self.state q.call < 64 }
        ensures { settled_outcome result self.state ≡ past_gate self.settings self.state q.call page_in_node_resp_step }
    {
        let mut c = self.state;
        let id = dop_id(q.call.dop);
        if !queue::has(c.outstanding.reads, id) {
            return Err(Refusal::Id);
        }
        let k = usize::from(queue::entry(c.outstanding.reads, id).reference);
        let e = c.tables.ephemeral.entries[k];
        if c.nodes.slots[k].present | !e.allocated {
            return Err(Refusal::Reference);
        }
        let Brought::Something = dop_brought(q.call.dop) else {
            return Err(Refusal::Contents);
        };
        if !sector::same_set(e.succs, q.call.node.succs) {
            return Err(Refusal::Contents);
        }
        let slot = Slot {
            present: true,
            node: q.call.node,
        };
        c.outstanding.reads = queue::remove(c.outstanding.reads, id);
        c.nodes = sector::with_slot(c.nodes, k, slot);
        Ok(c)
    }
}
