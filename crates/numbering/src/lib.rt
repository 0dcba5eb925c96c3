// Document 02's small tables by number (Q-13): every complete table on references 0 to 2, on which the loader is tried before a release.
#![tactic(auto)]

ghost use Rattle.std.specs.Prelude.{◌≡◌, ◌<◌, ◌≤◌, ◌/◌, ◌%◌, eqb};
ghost use Rattle.smalltable.specs.Numbers.{small_sets, small_tables, zero_two};
ghost use Rattle.smalltable.specs.Tables.{list_of, listed_if, small_entry, small_table, table_of};

use disklayout::{Location, Refused};
use sectortype::{Entry, Succs, Table};
use smalltable::Sets;

const TABLES: u64 = 546;

// How many small tables there are.
pub fn small_tables() -> u64
    ensures { result ≡ small_tables }
{
    TABLES
}

// Set j of the four sets of references 0 and 2.
fn zero_two(j: u64) -> u64
    requires { j < 4 }
    ensures { result ≡ zero_two j }
{
    j % 2 + 4 * (j / 2)
}

// The allocated set and the three lists of a number.
fn small_sets(n: u64) -> Sets
    ensures { result ≡ small_sets n }
{
    if n < 2 {
        return Sets {
            allocated: 1,
            list0: n,
            list1: 0,
            list2: 0,
        };
    }
    if n < 18 {
        let m = n - 2;
        return Sets {
            allocated: 3,
            list0: m / 4,
            list1: m % 4,
            list2: 0,
        };
    }
    if n < 34 {
        let m = n - 18;
        let list0 = zero_two(m / 4);
        let list2 = zero_two(m % 4);
        return Sets {
            allocated: 5,
            list0,
            list1: 0,
            list2,
        };
    }
    let m = n - 34;
    Sets {
        allocated: 7,
        list0: m / 64,
        list1: m / 8 % 8,
        list2: m % 8,
    }
}

// Whether a set has the reference whose bit is worth p.
fn has(set: u64, p: u64) -> bool
    requires { 0 < p }
    ensures { result ≡ eqb (set / p % 2) 1 }
{
    set / p % 2 == 1
}

fn listed_if(on: bool, r: u8, s: Succs) -> Succs
    requires { s.count < 8 }
    ensures { result ≡ listed_if on r s }
{
    if on {
        let n = s.count as usize;
        let mut at = s.at;
        at[n] = r;
        return Succs {
            count: s.count + 1,
            at,
        };
    }
    s
}

// The references in a set, ascending.
fn list_of(l: u64) -> Succs
    ensures { result ≡ list_of l }
{
    let none = sector::zero_succs();
    let zero = has(l, 1);
    let one = has(l, 2);
    let two = has(l, 4);
    let a = listed_if(zero, 0, none);
    let b = listed_if(one, 1, a);
    listed_if(two, 2, b)
}

// The entry of reference r, allocated with the list l or not.
fn small_entry(device: u64, used: bool, l: u64, r: u64) -> Entry
    requires device_bound { device ≤ 2 }
    requires r_bound { r < 3 }
    ensures { result ≡ small_entry device used l r }
{
    if used {
        let addr = layout::node_block_addr(device, r).unwrap_or(0);
        let loc = Location { addr, len: 4096 };
        let succs = list_of(l);
        return Entry {
            allocated: true,
            located: true,
            loc,
            succs,
        };
    }
    sector::zero_entry()
}

fn table_of(device: u64, s: Sets) -> Table
    requires { device ≤ 2 }
    ensures { result ≡ table_of device s }
{
    let zero = has(s.allocated, 1);
    let one = has(s.allocated, 2);
    let two = has(s.allocated, 4);
    let a = small_entry(device, zero, s.list0, 0);
    let b = small_entry(device, one, s.list1, 1);
    let c = small_entry(device, two, s.list2, 2);
    let none = sector::empty_table();
    let t = sector::with_entry(none, 0, a);
    let u = sector::with_entry(t, 1, b);
    sector::with_entry(u, 2, c)
}

// The table of a number, from 0; there is none past the last, or on a device above 2.
pub fn small_table(device: u64, number: u64) -> Result<Table, Refused>
    ensures { result ≡ small_table device number }
{
    if (device <= 2) & (number < TABLES) {
        return Ok(table_of(device, small_sets(number)));
    }
    Err(Refused::Undefined)
}
