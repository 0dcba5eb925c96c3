// Steps 8 to 10 and 18: a start, the table's page-in, and the crash's half. Each past V, D and phase.
#![tactic(auto, unfolding(blockcache::specs::Step::past_gate, base::specs::Refusals::answer))]

ghost use Rattle.std.specs.Prelude.{◌≡◌};
ghost use Rattle.blockcache.specs.Next.{loaded as Next·loaded};
ghost use Rattle.blockcache.specs.Step.{past_gate, settled_outcome};
ghost use Rattle.blockcache.specs.Steps.{crash_step, page_in_indirection_table_req_step, page_in_indirection_table_resp_step};
ghost use Rattle.blockcache.specs.Steps.{receive_loc_step};

use crate::Cache;
use crate::answers::{NOT_WAITING, awaits_table};
use crate::form::{empty_cache, loading};
use crate::judged::Judged;
use crate::ops::{dop_brought, dop_id, dop_loc, vop_loc};
use blockcache::{Awaited, CacheState, Phase, Refusal, Tables};
use blockdisk::Brought;
use disklayout::Kind;
use sectortype::Table;

// The cache with this table loaded; the chooser starts as though block 127, the last, had been given.
fn loaded(c: CacheState, t: Table) -> CacheState
    ensures { result ≡ Next·loaded c t }
{
    let mut c = c;
    c.phase = Phase::Ready;
    c.tables = Tables {
        persistent: t,
        ephemeral: t,
        isfrozen: false,
        frozen: sector::empty_table(),
    };
    c.awaited = NOT_WAITING;
    c.blocks.last = 127;
    c
}

impl Cache {
    pub(crate) fn page_in_indirection_table_req(self, q: Judged) -> Result<CacheState, Refusal>
        ensures { settled_outcome result self.state ≡ past_gate self.settings self.state q.call page_in_indirection_table_req_step }
    {
        let mut c = self.state;
        if dop_loc(q.call.dop) != c.places.persistent {
            return Err(Refusal::Place);
        }
        if c.awaited.waiting {
            return Err(Refusal::Outstanding);
        }
        c.awaited = Awaited {
            waiting: true,
            id: dop_id(q.call.dop),
        };
        Ok(c)
    }

    // 9: nothing brought, a table not complete and well formed, or two references at one address.
    pub(crate) fn page_in_indirection_table_resp(self, q: Judged) -> Result<CacheState, Refusal>
        ensures { settled_outcome result self.state ≡ past_gate self.settings self.state q.call page_in_indirection_table_resp_step }
    {
        let t = q.call.table;
        if !awaits_table(self.state.awaited, dop_id(q.call.dop)) {
            return Err(Refusal::Id);
        }
        let Brought::Something = dop_brought(q.call.dop) else {
            return Err(Refusal::Contents);
        };
        let complete = sector::wf_complete_indirection_table(self.settings.device, t);
        if !complete | !sector::distinct_addrs(t) {
            return Err(Refusal::Contents);
        }
        Ok(loaded(self.state, t))
    }

    #[tactic(auto, unfolding(blockcache::specs::Step::past_gate, base::specs::Refusals::answer, disklayout::specs::Kinds::kind_holds))]
    pub(crate) fn receive_loc(self, q: Judged) -> Result<CacheState, Refusal>
        ensures { settled_outcome result self.state ≡ past_gate self.settings self.state q.call receive_loc_step }
    {
        let place = vop_loc(q.call.vop);
        if !layout::is_kind(self.settings.device, place, Kind::Table) {
            return Err(Refusal::Place);
        }
        Ok(loading(Phase::Loading, place))
    }

    // The crash's half of step 18: whatever the phase, the cache comes back Unready.
    pub(crate) fn crash(self, q: Judged) -> Result<CacheState, Refusal>
        ensures { settled_outcome result self.state ≡ past_gate self.settings self.state q.call crash_step }
    {
        Ok(empty_cache())
    }
}
