// Steps 5 and 11 to 17: Unalloc, Evict, Freeze, CleanUp, NoOp, Dirty, Alloc and Read. Each past V, D and phase.
#![tactic(auto, unfolding(blockcache::specs::Step::past_gate, base::specs::Refusals::answer))]

ghost use Rattle.std.specs.Prelude.{◌≡◌};
ghost use Rattle.blockcache.specs.Next.{node_set};
ghost use Rattle.blockcache.specs.Rows.{awaits_write};
ghost use Rattle.blockcache.specs.Step.{past_gate, read_outcome, settled_outcome};
ghost use Rattle.blockcache.specs.Steps.{alloc_step, clean_up_step, dirty_step, evict_step, freeze_step, no_op_step, read_step};
ghost use Rattle.blockcache.specs.Steps.{unalloc_step};

use crate::Cache;
use crate::answers::awaits_table;
use crate::judged::Judged;
use crate::letgo::awaits_read;
use crate::scan::{has_predecessor, needs_cached, reads_of, writes_to};
use blockcache::{CacheState, Phase, Refusal};
use blockdisk::DiskOp;
use sectortype::{Entry, Node, Slot};

// Whether it is the answer of a write that a Ready cache awaits.
fn awaits_write(c: CacheState, op: DiskOp) -> bool
    ensures { result ≡ awaits_write c op }
{
    match op {
        DiskOp::RespWriteIndirectionTableOp(id) => awaits_table(c.awaited, id),
        DiskOp::RespWriteNodeOp(id) => queue::has(c.outstanding.writes, id),
        _ => false,
    }
}

impl Cache {
    pub(crate) fn unalloc(self, q: Judged) -> Result<CacheState, Refusal>
        ensures { settled_outcome result self.state ≡ past_gate self.settings self.state q.call unalloc_step }
    {
        let mut c = self.state;
        let r = q.reference();
        if !c.tables.ephemeral.entries[r].allocated {
            return Err(Refusal::Reference);
        }
        if reads_of(c.outstanding.reads, q.call.reference) {
            return Err(Refusal::Outstanding);
        }
        if needs_cached(c.tables, r) {
            return Err(Refusal::Frozen);
        }
        if (r == 0) | has_predecessor(c.tables.ephemeral, q.call.reference) {
            return Err(Refusal::Named);
        }
        c.tables.ephemeral = sector::with_entry(c.tables.ephemeral, r, sector::zero_entry());
        c.nodes = sector::with_slot(c.nodes, r, sector::zero_slot());
        Ok(c)
    }

    pub(crate) fn evict(self, q: Judged) -> Result<CacheState, Refusal>
        ensures { settled_outcome result self.state ≡ past_gate self.settings self.state q.call evict_step }
    {
        let mut c = self.state;
        let r = q.reference();
        let e = c.tables.ephemeral.entries[r];
        if !c.nodes.slots[r].present | (e.allocated & !e.located) {
            return Err(Refusal::Reference);
        }
        if e.allocated & e.located & writes_to(c.outstanding.writes, q.call.reference, e.loc) {
            return Err(Refusal::Outstanding);
        }
        if needs_cached(c.tables, r) {
            return Err(Refusal::Frozen);
        }
        c.nodes = sector::with_slot(c.nodes, r, sector::zero_slot());
        Ok(c)
    }

    // A frozen place, if set, is dropped under rule 1; under rule 2 it is kept, by 25.
    pub(crate) fn freeze(self, q: Judged) -> Result<CacheState, Refusal>
        ensures { settled_outcome result self.state ≡ past_gate self.settings self.state q.call freeze_step }
    {
        let mut c = self.state;
        if c.awaited.waiting {
            return Err(Refusal::Outstanding);
        }
        if (self.settings.rule == 2) & c.places.isfrozen {
            return Err(Refusal::Rule);
        }
        c.tables.isfrozen = true;
        c.tables.frozen = c.tables.ephemeral;
        c.places.isfrozen = false;
        c.places.frozen = sector::zero_loc();
        Ok(c)
    }

    pub(crate) fn clean_up(self, q: Judged) -> Result<CacheState, Refusal>
        ensures { settled_outcome result self.state ≡ past_gate self.settings self.state q.call clean_up_step }
    {
        let mut c = self.state;
        if c.awaited.waiting {
            return Err(Refusal::Outstanding);
        }
        if !c.places.isfrozen | !c.tables.isfrozen {
            return Err(Refusal::Frozen);
        }
        c.tables.persistent = c.tables.frozen;
        c.tables.isfrozen = false;
        c.tables.frozen = sector::empty_table();
        c.places.persistent = c.places.frozen;
        c.places.isfrozen = false;
        c.places.frozen = sector::zero_loc();
        Ok(c)
    }

    // NoOp, in any phase: an answer that the cache awaits is not for it.
    pub(crate) fn no_op(self, q: Judged) -> Result<CacheState, Refusal>
        ensures { settled_outcome result self.state ≡ past_gate self.settings self.state q.call no_op_step }
    {
        let c = self.state;
        if (c.phase == Phase::Ready) & awaits_write(c, q.call.dop) {
            return Err(Refusal::Id);
        }
        if awaits_read(c, q.call.dop) {
            return Err(Refusal::Awaited);
        }
        Ok(c)
    }

    // The reference's node: its own list goes into the graph, order and repeats kept, and it has no location.
    fn set_node(self, q: Judged) -> CacheState
        ensures { result ≡ node_set self.state q.call }
    {
        let mut c = self.state;
        let r = q.reference();
        let e = Entry {
            allocated: true,
            located: false,
            loc: sector::zero_loc(),
            succs: q.call.node.succs,
        };
        let s = Slot {
            present: true,
            node: q.call.node,
        };
        c.tables.ephemeral = sector::with_entry(c.tables.ephemeral, r, e);
        c.nodes = sector::with_slot(c.nodes, r, s);
        c
    }

    pub(crate) fn dirty(self, q: Judged) -> Result<CacheState, Refusal>
        ensures { settled_outcome result self.state ≡ past_gate self.settings self.state q.call dirty_step }
    {
        let c = self.state;
        let r = q.reference();
        if !c.nodes.slots[r].present | !c.tables.ephemeral.entries[r].allocated {
            return Err(Refusal::Reference);
        }
        if needs_cached(c.tables, r) {
            return Err(Refusal::Frozen);
        }
        if !sector::points_within(c.tables.ephemeral, q.call.node.succs) {
            return Err(Refusal::Successor);
        }
        Ok(self.set_node(q))
    }

    pub(crate) fn alloc(self, q: Judged) -> Result<CacheState, Refusal>
        ensures { settled_outcome result self.state ≡ past_gate self.settings self.state q.call alloc_step }
    {
        let c = self.state;
        let r = q.reference();
        if c.nodes.slots[r].present | c.tables.ephemeral.entries[r].allocated {
            return Err(Refusal::Reference);
        }
        if !sector::points_within(c.tables.ephemeral, q.call.node.succs) {
            return Err(Refusal::Successor);
        }
        Ok(self.set_node(q))
    }

    // Read: the cached node.
    pub(crate) fn read_step(self, q: Judged) -> Result<Node, Refusal>
        ensures { read_outcome result self.state ≡ past_gate self.settings self.state q.call read_step }
    {
        let c = self.state;
        let r = q.reference();
        let slot = c.nodes.slots[r];
        if !c.tables.ephemeral.entries[r].allocated | !slot.present {
            return Err(Refusal::Reference);
        }
        Ok(slot.node)
    }
}
