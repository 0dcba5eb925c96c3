// The cache's one written form: what a phase doesn't have is zeros, and the marks are those of its tables and its outstanding writes.
ghost use Rattle.std.specs.Prelude.{true, ◌≡◌};
ghost use Rattle.blockcache.specs.Form.{writes_form, reads_form, tables_form, places_form, awaited_form, outstanding_form, idle};
ghost use Rattle.blockcache.specs.Form.{phase_form, parts_form, blocks_in, cache_form, call_form, settings_form, empty_cache, loading_at};
ghost use Rattle.disklayout.specs.Device.{made};

use crate::answers::NOT_WAITING;
use blockcache::{
    Awaited, Blocks, CacheState, Call, Marks, Outstanding, Phase, Places, Settings, Tables,
};
use disklayout::Location;
use queue::Requests;

// No block marked, and none given.
const NO_BLOCKS: Blocks = Blocks {
    marks: Marks { low: 0, high: 0 },
    last: 0,
};

// Each write that is outstanding is of a reference.
fn writes_form(q: Requests) -> bool
    ensures { result ≡ writes_form q }
{
    let used = usize::from(q.count);
    let good = q.at.iter().take(used).all(|w| w.reference <= 63);
    queue::form(q) & good
}

// Each read that is outstanding is of a reference; its place is kept zero.
fn reads_form(q: Requests) -> bool
    ensures { result ≡ reads_form q }
{
    let used = usize::from(q.count);
    let good = q
        .at
        .iter()
        .take(used)
        .all(|w| (w.reference <= 63) & sector::loc_zero(w.loc));
    queue::form(q) & good
}

fn tables_form(ts: Tables) -> bool
    ensures { result ≡ tables_form ts }
{
    let persistent = sector::table_form(ts.persistent);
    let ephemeral = sector::table_form(ts.ephemeral);
    let frozen = sector::table_form(ts.frozen);
    persistent & ephemeral & frozen & (ts.isfrozen | (ts.frozen.count == 0))
}

fn places_form(ps: Places) -> bool
    ensures { result ≡ places_form ps }
{
    ps.isfrozen | sector::loc_zero(ps.frozen)
}

fn awaited_form(a: Awaited) -> bool
    ensures { result ≡ awaited_form a }
{
    a.waiting | (a.id == 0)
}

fn outstanding_form(o: Outstanding) -> bool
    ensures { result ≡ outstanding_form o }
{
    writes_form(o.writes) & reads_form(o.reads)
}

// No table, no frozen place, nothing outstanding, nothing cached.
#[tactic(auto, unfolding(blockcache::specs::Form::idle))]
fn idle(c: CacheState) -> bool
    ensures { result ≡ idle c }
{
    (c.tables.persistent.count == 0)
        & (c.tables.ephemeral.count == 0)
        & !c.tables.isfrozen
        & !c.places.isfrozen
        & (c.outstanding.writes.count == 0)
        & (c.outstanding.reads.count == 0)
        & (c.nodes.count == 0)
}

// What the phase doesn't have is zeros.
#[tactic(auto, unfolding(blockcache::specs::Form::phase_form))]
fn phase_form(c: CacheState) -> bool
    ensures { result ≡ phase_form c }
{
    match c.phase {
        Phase::Unready => idle(c) & sector::loc_zero(c.places.persistent) & !c.awaited.waiting,
        Phase::Loading => idle(c),
        Phase::Ready => true,
    }
}

// Each part by itself, and what the phase doesn't have.
#[tactic(auto, unfolding(blockcache::specs::Form::parts_form))]
fn parts_form(c: CacheState) -> bool
    ensures { result ≡ parts_form c }
{
    let tables = tables_form(c.tables);
    let places = places_form(c.places);
    let awaited = awaited_form(c.awaited);
    let outstanding = outstanding_form(c.outstanding);
    let nodes = sector::nodes_form(c.nodes);
    tables & places & awaited & outstanding & nodes & phase_form(c)
}

// In Ready the marks are those of the tables and the outstanding writes, and the block given last is one of the 128; outside Ready both are zeros.
fn blocks_form(device: u64, phase: Phase, blocks: Blocks, ts: Tables, writes: Requests) -> bool
    requires { made device ≡ true }
    ensures { result ≡ blocks_in phase device blocks ts writes }
{
    match phase {
        Phase::Ready => bitmap::same_marks(blocks.marks, bitmap::marks_of(device, ts, writes))
            & (blocks.last <= 127),
        Phase::Unready | Phase::Loading => blocks == NO_BLOCKS,
    }
}

// The cache's one written form, on a device that is made.
#[tactic(auto, unfolding(blockcache::specs::Form::cache_form, blockcache::specs::Form::blocks_form))]
pub(crate) fn cache_form(device: u64, c: CacheState) -> bool
    requires { made device ≡ true }
    ensures { result ≡ cache_form device c }
{
    let parts = parts_form(c);
    let marked = blocks_form(device, c.phase, c.blocks, c.tables, c.outstanding.writes);
    parts & marked
}

// A device above 2, or a rule that is neither 1 nor 2, is refused with 1.
pub(crate) fn settings_form(g: Settings) -> bool
    ensures { result ≡ settings_form g }
{
    (g.device <= 2) & ((g.rule == 1) | (g.rule == 2))
}

// The reference is one, node and table are in their written form. What a step doesn't use is judged all the same.
pub(crate) fn call_form(q: Call) -> bool
    ensures { result ≡ call_form q }
{
    let node = sector::node_form(q.node);
    let table = sector::table_form(q.table);
    (q.reference <= 63) & node & table
}

// The cache that has nothing.
pub fn empty_cache() -> CacheState
    ensures { result ≡ empty_cache }
{
    loading(Phase::Unready, sector::zero_loc())
}

// A cache in a phase before Ready, with the place being loaded.
pub(crate) fn loading(phase: Phase, place: Location) -> CacheState
    ensures { result ≡ loading_at phase place }
{
    CacheState {
        phase,
        tables: Tables {
            persistent: sector::empty_table(),
            ephemeral: sector::empty_table(),
            isfrozen: false,
            frozen: sector::empty_table(),
        },
        places: Places {
            persistent: place,
            isfrozen: false,
            frozen: sector::zero_loc(),
        },
        awaited: NOT_WAITING,
        outstanding: Outstanding {
            writes: queue::empty(),
            reads: queue::empty(),
        },
        nodes: sector::empty_nodes(),
        blocks: NO_BLOCKS,
    }
}
