// The marks of tables and outstanding writes: a walk over the located entries of each table and over the writes, a bit set for each.
ghost use Rattle.std.specs.Prelude.{◌≡◌};
ghost use Rattle.blockcache.specs.Marks.{same_marks as Marks·same_marks};
ghost use Rattle.bitmap.specs.Bitmap.{union_marks, marks_on, table_marks, with_addr, with_mark, writes_marks};

use blockcache::{Marks, Tables};
use queue::Requests;
use sectortype::Table;

const NONE: Marks = Marks { low: 0, high: 0 };

// The marks with that of block k; a number past 127 is no block's.
fn with_mark(m: Marks, k: u64) -> Marks
    ensures { result ≡ with_mark m k }
{
    if k < 64 {
        return Marks {
            low: m.low | (1 << k),
            high: m.high,
        };
    }
    if k < 128 {
        return Marks {
            low: m.low,
            high: m.high | (1 << (k - 64)),
        };
    }
    m
}

// With that of the block that has the address, if one has it.
#[tactic(auto, using(crate::proofs::MarksMade::addr_found, crate::proofs::MarksMade::addr_missed))]
fn with_addr(device: u64, m: Marks, addr: u64) -> Marks
    ensures { result ≡ with_addr device m addr }
{
    match layout::node_block_by_division(device, addr).unwrap_or(None) {
        Some(block) => with_mark(m, block),
        None => m,
    }
}

// The blocks that have the address of a location in the table.
fn table_marks(device: u64, t: Table) -> Marks
    ensures { result ≡ table_marks device t }
{
    let mut marks = NONE;
    for e in t.entries.iter() {
        if e.located {
            marks = with_addr(device, marks, e.loc.addr);
        }
    }
    marks
}

// The blocks that have the address of an outstanding write.
fn writes_marks(device: u64, q: Requests) -> Marks
    ensures { result ≡ writes_marks device q }
{
    let n = q.count as usize;
    let mut marks = NONE;
    for (i, w) in q.at.iter().enumerate() {
        if i < n {
            marks = with_addr(device, marks, w.loc.addr);
        }
    }
    marks
}

fn union(a: Marks, b: Marks) -> Marks
    ensures { result ≡ union_marks a b }
{
    Marks {
        low: a.low | b.low,
        high: a.high | b.high,
    }
}

// The marks of the persistent, the ephemeral and the frozen table, if there is one, and of the outstanding writes; none where there is no such device.
pub fn marks_of(device: u64, ts: Tables, writes: Requests) -> Marks
    ensures { result ≡ marks_on device ts writes }
{
    let p = ts.persistent;
    let e = ts.ephemeral;
    let a = union(table_marks(device, p), table_marks(device, e));
    let b = writes_marks(device, writes);
    let held = union(a, b);
    let isfrozen = ts.isfrozen;
    if isfrozen {
        let f = ts.frozen;
        return union(held, table_marks(device, f));
    }
    held
}

pub fn same_marks(a: Marks, b: Marks) -> bool
    ensures { result ≡ Marks·same_marks a b }
{
    a == b
}
