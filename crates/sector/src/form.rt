// Whether a record is in its one written form and within the limits: a reference is 0 to 63, a list has 0 to 8, unused places are
// zeros, and a count is the number of places in use. What stands here for a table's entries stands here again for the slots of a map of
// nodes: other fields and other tests, so one function for both would be given those as closures, and be no plainer.
ghost use Rattle.std.specs.Prelude.{◌≡◌};
ghost use Rattle.base.specs.Scan.{count_below};
ghost use Rattle.sectortype.specs.Form.{places_zero, succ_ok, succs_form, succs_zero, loc_zero, node_form, node_zero, entry_form};
ghost use Rattle.sectortype.specs.Form.{table_form, slot_form, nodes_form, allocated_at, present_at};

use crate::contents::contents_zero;
use crate::update::zero_loc;
use disklayout::Location;
use sectortype::{Entry, Node, Nodes, Slot, Succs, Table};

// Place k of a list of `count` holds r.
fn succ_ok(count: u8, k: usize, r: u8) -> bool
    ensures { result ≡ succ_ok count k r }
{
    let used = k < usize::from(count);
    (used & (r <= 63)) | (!used & (r == 0))
}

// Every place holds 0, as in most lists that there are.
#[tactic(auto, using(sectortype::proofs::Derived::zeros_is_zero))]
fn places_zero(s: &Succs) -> bool
    ensures { result ≡ places_zero s.now }
{
    s.at == [0; 8]
}

// A list of zeros has only its count to be judged: asked first, since it is asked of hundreds of lists at each call.
fn succs_form(s: &Succs) -> bool
    ensures { result ≡ succs_form s.now }
{
    if places_zero(s) {
        return s.count <= 8;
    }
    let mut good = true;
    for (i, r) in s.at.iter().enumerate() {
        good = good & succ_ok(s.count, i, *r);
    }
    (s.count <= 8) & good
}

fn succs_zero(s: &Succs) -> bool
    ensures { result ≡ succs_zero s.now }
{
    (s.count == 0) & succs_form(s)
}

pub fn loc_zero(l: Location) -> bool
    ensures { result ≡ loc_zero l }
{
    l == zero_loc()
}

pub fn node_form(n: Node) -> bool
    ensures { result ≡ node_form n }
{
    succs_form(&n.succs)
}

pub fn node_zero(n: Node) -> bool
    ensures { result ≡ node_zero n }
{
    contents_zero(n.contents) & succs_zero(&n.succs)
}

fn entry_form(e: &Entry) -> bool
    ensures { result ≡ entry_form e.now }
{
    succs_form(&e.succs)
        & (e.located | loc_zero(e.loc))
        & (e.allocated | (!e.located & (e.succs.count == 0)))
}

// How many of a table's references are allocated.
pub fn count_allocated(entries: &[Entry; 64]) -> u8
    ensures { result ≡ count_below (allocated_at entries.now) 64 }
{
    entries.iter().filter(|e| e.allocated).count() as u8
}

pub fn table_form(t: Table) -> bool
    ensures { result ≡ table_form t }
{
    let mut n: u8 = 0;
    let mut good = true;
    for e in t.entries.iter() {
        n += u8::from(e.allocated);
        good = good & entry_form(e);
    }
    (t.count == n) & good
}

fn slot_form(s: Slot) -> bool
    ensures { result ≡ slot_form s }
{
    node_form(s.node) & (s.present | node_zero(s.node))
}

// How many references a map of nodes has.
pub fn count_present(slots: &[Slot; 64]) -> u8
    ensures { result ≡ count_below (present_at slots.now) 64 }
{
    slots.iter().filter(|s| s.present).count() as u8
}

pub fn nodes_form(m: Nodes) -> bool
    ensures { result ≡ nodes_form m }
{
    let mut n: u8 = 0;
    let mut good = true;
    for s in m.slots.iter() {
        n += u8::from(s.present);
        good = good & slot_form(*s);
    }
    (m.count == n) & good
}
