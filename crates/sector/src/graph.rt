// A table's graph: lists as sets, references that are allocated, addresses that are held.
ghost use Rattle.std.specs.Prelude.{◌||◌, not, ◌≡◌};
ghost use Rattle.sectortype.specs.Graph.{has_succ, subset, same_set, allocated_in, within, graph_closed, holds_addr, apart_at, apart_from};
ghost use Rattle.sectortype.specs.Graph.{distinct_addrs};

use sectortype::{Entry, Succs, Table};

// Whether the list names r.
pub fn has_succ(s: Succs, r: u8) -> bool
    ensures { result ≡ has_succ s r }
{
    s.at.iter().take(usize::from(s.count)).any(|q| *q == r)
}

// Whether b names each reference that a names.
fn subset_of(a: Succs, b: Succs) -> bool
    ensures { result ≡ subset a b }
{
    a.at.iter()
        .take(usize::from(a.count))
        .all(|r| has_succ(b, *r))
}

// Whether two lists are equal as sets.
pub fn same_set(a: Succs, b: Succs) -> bool
    ensures { result ≡ same_set a b }
{
    let there = subset_of(a, b);
    let back = subset_of(b, a);
    there & back
}

// Whether r is a reference of the table, and allocated.
fn is_allocated(t: &Table, r: u8) -> bool
    ensures { result ≡ allocated_in t.now r }
{
    match t.entries.get(usize::from(r)) {
        Some(e) => e.allocated,
        None => false,
    }
}

fn lists_allocated(t: &Table, s: &Succs) -> bool
    ensures { result ≡ within t.now s.now }
{
    s.at.iter()
        .take(usize::from(s.count))
        .all(|r| is_allocated(t, *r))
}

// Whether each reference that the list names is allocated (upstream's BlockPointsToValidReferences).
pub fn points_within(t: Table, s: Succs) -> bool
    ensures { result ≡ within t s }
{
    lists_allocated(&t, &s)
}

// Whether the entry, if it is allocated, names allocated references alone.
fn entry_closed(t: &Table, e: &Entry) -> bool
    ensures { result ≡ (not e.now.allocated || within t.now e.now.succs) }
{
    !e.allocated || lists_allocated(t, &e.succs)
}

// Whether every list of the graph names allocated references alone (upstream's GraphClosed).
pub fn graph_closed(t: Table) -> bool
    ensures { result ≡ graph_closed t }
{
    t.entries.iter().all(|e| entry_closed(&t, e))
}

// Whether a location of the table has this address.
pub fn holds_addr(t: Table, addr: u64) -> bool
    ensures { result ≡ holds_addr t addr }
{
    t.entries.iter().any(|e| e.located & (e.loc.addr == addr))
}

fn apart_at(r: usize, q: usize, e: Entry, f: Entry) -> bool
    ensures { result ≡ apart_at r q e f }
{
    (r == q) | !(e.located & f.located & (e.loc.addr == f.loc.addr))
}

// Whether no other reference than r is at the address of e, the entry of r.
fn apart_from(t: &Table, r: usize, e: Entry) -> bool
    ensures { result ≡ apart_from t.now r e }
{
    t.entries
        .iter()
        .enumerate()
        .all(|(q, f)| apart_at(r, q, e, *f))
}

// Whether no two references have one address (upstream's AllLocationsForDifferentRefsDontOverlap).
pub fn distinct_addrs(t: Table) -> bool
    ensures { result ≡ distinct_addrs t }
{
    t.entries
        .iter()
        .enumerate()
        .all(|(r, e)| apart_from(&t, r, *e))
}
