// Step 19, let go, past V, D and phase; and which answers it takes: the gate asks for their phase, and NoOp leaves them to it.
ghost use Rattle.std.specs.Prelude.{◌≡◌};
ghost use Rattle.blockcache.specs.Rows.{answer_phase, awaits_read};
ghost use Rattle.blockcache.specs.Step.{past_gate, settled_outcome};
ghost use Rattle.blockcache.specs.Steps.{let_go_step};

use crate::Cache;
use crate::answers::{NOT_WAITING, awaits_table};
use crate::judged::Judged;
use blockcache::{CacheState, Phase, Refusal};
use blockdisk::DiskOp;

// Whether the answer of a read comes in its phase: a node's in Ready, a table's in Loading.
#[tactic(auto, unfolding(blockcache::specs::Rows::answer_phase))]
pub(crate) fn answer_phase(phase: Phase, op: DiskOp) -> bool
    ensures { result ≡ answer_phase phase op }
{
    match op {
        DiskOp::RespReadNodeOp(_, _) => phase == Phase::Ready,
        DiskOp::RespReadIndirectionTableOp(_, _) => phase == Phase::Loading,
        _ => false,
    }
}

// Whether it does and the cache awaits it. In Ready the awaited table request is a write, so a table read answer under its id is not
// awaited.
#[tactic(auto, unfolding(blockcache::specs::Rows::awaits_read, blockcache::specs::Rows::answer_phase))]
pub(crate) fn awaits_read(c: CacheState, op: DiskOp) -> bool
    ensures { result ≡ awaits_read c op }
{
    match op {
        DiskOp::RespReadNodeOp(id, _) => (c.phase == Phase::Ready)
            & queue::has(c.outstanding.reads, id),
        DiskOp::RespReadIndirectionTableOp(id, _) => (c.phase == Phase::Loading)
            & awaits_table(c.awaited, id),
        _ => false,
    }
}

impl Cache {
    // The wait for the answered read ends, whatever was brought; nothing else changes.
    #[tactic(auto, unfolding(blockcache::specs::Step::past_gate, base::specs::Refusals::answer))]
    pub(crate) fn let_go(self, q: Judged) -> Result<CacheState, Refusal>
        ensures { settled_outcome result self.state ≡ past_gate self.settings self.state q.call let_go_step }
    {
        let mut c = self.state;
        if !awaits_read(c, q.call.dop) {
            return Err(Refusal::Id);
        }
        if let DiskOp::RespReadNodeOp(id, _) = q.call.dop {
            c.outstanding.reads = queue::remove(c.outstanding.reads, id);
            return Ok(c);
        }
        c.awaited = NOT_WAITING;
        Ok(c)
    }
}
