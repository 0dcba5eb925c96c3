// The step entry: any number, any call, on any cache. What goes by the number stands here, what each step takes, what it does and whether it may move
// a location or an outstanding write, and in no other file of this crate.
ghost use Rattle.std.specs.Prelude.{[], ◌≡◌, ◌<◌};
ghost use Rattle.base.specs.Refusals.{answer};
ghost use Rattle.blockcache.specs.Rows.{gate, read_ref, taking};
ghost use Rattle.blockcache.specs.Step.{cache_step, dispatched, gated, test_number};
ghost use Rattle.blockcache.specs.Steps.{relocates as Steps·relocates, step_of};

use crate::Cache;
use crate::answers::{refused, settled, shown};
use crate::form::{cache_form, call_form, settings_form};
use crate::judged::Judged;
use crate::letgo::answer_phase;
use crate::ops::{
    ADVANCE, CLEAN_UP, CRASH, FREEZE, INTERNAL, JOURNAL_INTERNAL, NO_DOP, NODE_READ_REQ,
    NODE_READ_RESP, NODE_WRITE_REQ, NODE_WRITE_RESP, POP_SYNC, PUSH_SYNC, SEND_FROZEN_LOC,
    SEND_PERSISTENT_LOC, TABLE_READ_REQ, TABLE_READ_RESP, TABLE_WRITE_REQ, TABLE_WRITE_RESP,
    dop_kind, idle_disk, vop_kind, vop_no_op,
};
use blockcache::{CacheOutcome, Call, Phase, Refusal, VersionOp};
use blockdisk::DiskOp;

// Refused by the first of version operation, disk operation and phase that is not the step's. They come before a step's own conditions, so
// one function judges them for all steps.
#[tactic(auto, unfolding(base::specs::Refusals::answer))]
fn gate_answer(version: bool, disk: bool, phase: bool) -> Result<(), Refusal>
    ensures { test_number result ≡ answer (gate (taking version disk phase) []) }
{
    if !version {
        return Err(Refusal::Version);
    }
    if !disk {
        return Err(Refusal::Disk);
    }
    if !phase {
        return Err(Refusal::Phase);
    }
    Ok(())
}

// What each step takes; refused where there is no such step.
#[tactic(auto, unfolding(blockcache::specs::Step::gated, blockcache::specs::Steps::step_of, blockcache::specs::Steps::steps))]
fn gate(number: u64, phase: Phase, version: VersionOp, disk: DiskOp) -> Result<(), Refusal>
    ensures { test_number result ≡ gated phase version disk (step_of number) }
{
    let v = vop_kind(version);
    let d = dop_kind(disk);
    let ready = phase == Phase::Ready;
    let loading = phase == Phase::Loading;
    let unready = phase == Phase::Unready;
    let no_op_version = (v == INTERNAL)
        | (v == JOURNAL_INTERNAL)
        | (v == PUSH_SYNC)
        | (v == POP_SYNC);
    let read_resp = (d == NODE_READ_RESP) | (d == TABLE_READ_RESP);
    match number {
        1 => gate_answer(v == INTERNAL, d == NODE_WRITE_REQ, ready),
        2 => gate_answer(v == INTERNAL, d == NODE_WRITE_RESP, ready),
        3 => gate_answer(v == INTERNAL, d == TABLE_WRITE_REQ, ready),
        4 => gate_answer(v == SEND_FROZEN_LOC, d == TABLE_WRITE_RESP, ready),
        5 => gate_answer(vop_no_op(version), d == NO_DOP, ready),
        6 => gate_answer(v == INTERNAL, d == NODE_READ_REQ, ready),
        7 => gate_answer(v == INTERNAL, d == NODE_READ_RESP, ready),
        8 => gate_answer(v == INTERNAL, d == TABLE_READ_REQ, loading),
        9 => gate_answer(v == INTERNAL, d == TABLE_READ_RESP, loading),
        10 => gate_answer(v == SEND_PERSISTENT_LOC, d == NO_DOP, unready),
        11 => gate_answer(v == INTERNAL, d == NO_DOP, ready),
        12 => gate_answer(v == FREEZE, d == NO_DOP, ready),
        13 => gate_answer(v == CLEAN_UP, d == NO_DOP, ready),
        14 => gate_answer(no_op_version, idle_disk(disk), true),
        15 => gate_answer(v == ADVANCE, d == NO_DOP, ready),
        16 => gate_answer(v == ADVANCE, d == NO_DOP, ready),
        17 => gate_answer(true, true, ready),
        18 => gate_answer(v == CRASH, true, true),
        19 => gate_answer(v == INTERNAL, read_resp, answer_phase(phase, disk)),
        20 => gate_answer(v == ADVANCE, d == NO_DOP, ready),
        _ => Err(Refusal::Limits),
    }
}

// Whether the marks are made anew after a step: it may move a location of a table or an outstanding write.
fn relocates(number: u64) -> bool
    ensures { result ≡ Steps·relocates number }
{
    matches!(number, 1 | 2 | 5 | 9 | 12 | 13 | 15)
}

impl Cache {
    pub fn step(self, number: u64, q: Call) -> CacheOutcome
        ensures { result ≡ cache_step self.settings self.state number q }
    {
        let device = self.settings.device;
        if !settings_form(self.settings) {
            return refused(self.state, Refusal::Limits);
        }
        if !(cache_form(device, self.state) & call_form(q)) {
            return refused(self.state, Refusal::Limits);
        }
        if let Err(refusal) = gate(number, self.state.phase, q.vop, q.dop) {
            return refused(self.state, refusal);
        }
        let mut o = self.dispatch(number, Judged { call: q });
        let moved = (o.answer == 0) & relocates(number);
        if !moved {
            return o;
        }
        o.cache.blocks.marks = bitmap::marks_of(device, o.cache.tables, o.cache.outstanding.writes);
        o
    }

    // The step's own conditions and what it does, on a cache and a call in their written form, past V, D and phase. The arms meet before the
    // outcome is made: made in each, or of a lent cache, it is copied more often, and a call takes longer.
    #[tactic(auto, unfolding(blockcache::specs::Steps::step_of, blockcache::specs::Steps::steps, blockcache::specs::Step::past_gate, base::specs::Refusals::answer))]
    fn dispatch(self, number: u64, q: Judged) -> CacheOutcome
        requires { read_ref self.settings self.state q.call < 64 }
        ensures { result ≡ dispatched self.settings self.state q.call (step_of number) }
    {
        let next = match number {
            1 => self.write_back_node_req(q),
            2 => self.write_back_node_resp(q),
            3 => self.write_back_indirection_table_req(q),
            4 => self.write_back_indirection_table_resp(q),
            5 => self.unalloc(q),
            6 => self.page_in_node_req(q),
            7 => self.page_in_node_resp(q),
            8 => self.page_in_indirection_table_req(q),
            9 => self.page_in_indirection_table_resp(q),
            10 => self.receive_loc(q),
            11 => self.evict(q),
            12 => self.freeze(q),
            13 => self.clean_up(q),
            14 => self.no_op(q),
            15 => self.dirty(q),
            16 => self.alloc(q),
            17 => return shown(self.read_step(q), self.state),
            18 => self.crash(q),
            19 => self.let_go(q),
            // a list without an operation; `operations` has the others
            20 => Ok(self.state),
            _ => Err(Refusal::Limits),
        };
        settled(next, self.state)
    }
}
