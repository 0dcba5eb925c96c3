// Questions about the whole cache that a step's refusals ask.
ghost use Rattle.std.specs.Prelude.{◌≡◌, ◌<◌};
ghost use Rattle.blockcache.specs.Scan.{reads, writes_to, names_at, has_predecessor, held_in, needs_cached};

use blockcache::Tables;
use disklayout::Location;
use queue::Requests;
use sectortype::Table;

// Whether a read of this reference is outstanding.
pub(crate) fn reads_of(q: Requests, r: u64) -> bool
    ensures { result ≡ reads q r }
{
    let used = usize::from(q.count);
    q.at.iter().take(used).any(|w| u64::from(w.reference) == r)
}

// Whether a write of this reference to this very location is outstanding.
pub(crate) fn writes_to(q: Requests, r: u64, l: Location) -> bool
    ensures { result ≡ writes_to q r l }
{
    let used = usize::from(q.count);
    q.at.iter()
        .take(used)
        .any(|w| (u64::from(w.reference) == r) & (w.loc == l))
}

// Whether place j of a list of `count`, which holds s, is in use and names r.
fn names_at(count: u8, j: usize, s: u8, r: u64) -> bool
    ensures { result ≡ names_at count j s r }
{
    (j < usize::from(count)) & (u64::from(s) == r)
}

// Whether some list in the graph names r, its own included: left at the first predecessor found.
pub(crate) fn has_predecessor(t: Table, r: u64) -> bool
    ensures { result ≡ has_predecessor t r }
{
    let mut hit = false;
    'search: for e in t.entries.iter() {
        for (j, named) in e.succs.at.iter().enumerate() {
            let here = e.allocated & names_at(e.succs.count, j, *named, r);
            if here {
                hit = true;
                break 'search;
            }
        }
    }
    hit
}

// Whether the persistent, ephemeral or frozen table or an outstanding write holds this address.
#[tactic(auto, unfolding(blockcache::specs::Scan::held_in))]
pub(crate) fn held(ts: Tables, q: Requests, addr: u64) -> bool
    ensures { result ≡ held_in ts q addr }
{
    let persistent = sector::holds_addr(ts.persistent, addr);
    let ephemeral = sector::holds_addr(ts.ephemeral, addr);
    let frozen = ts.isfrozen & sector::holds_addr(ts.frozen, addr);
    persistent | ephemeral | frozen | queue::has_addr(q, addr)
}

// FZ: the frozen table has the reference in its graph without a location.
pub(crate) fn needs_cached(ts: Tables, r: usize) -> bool
    requires { r < 64 }
    ensures { result ≡ needs_cached ts r }
{
    let e = ts.frozen.entries[r];
    ts.isfrozen & e.allocated & !e.located
}
