// Every small table (document 02, Q-13): a line for each number, with the table of device 0 in a script's form; then for each device how
// many of its tables a Loading cache that awaits the read accepts in step 9.
#![tactic(auto)]

ghost use Rattle.std.specs.Prelude.{◌≤◌};

use blockcache::{CacheState, Call, Settings, VersionOp};
use blockdisk::{Brought, DiskOp};
use cache::Cache;
use disklayout::Location;
use output::{Output, finish, list, number, text, word};
use sectortype::{Entry, Table};
use std::io;

// The id under which the table's read is awaited.
const ID: u64 = 1;

// `REF@ADDR+LEN:LIST`, behind the entries before it.
fn print_entry(out: &mut Output, first: bool, r: u64, e: Entry) {
    if !first {
        text(out, b";");
    }
    number(out, r);
    word(out, b"@", e.loc.addr);
    word(out, b"+", e.loc.len);
    text(out, b":");
    list(out, e.succs);
}

// A table in a script's form. Each of its references has a location.
fn print_table(out: &mut Output, t: Table) {
    let mut first = true;
    for (r, e) in (0..).zip(t.entries) {
        if e.allocated {
            print_entry(out, first, r, e);
            first = false;
        }
    }
}

fn print_number(out: &mut Output, k: u64) {
    if let Ok(table) = numbering::small_table(0, k) {
        word(out, b"number=", k);
        text(out, b" table=");
        print_table(out, table);
        text(out, b"\n");
    }
}

fn print_numbers(out: &mut Output) {
    for k in 0..numbering::small_tables() {
        print_number(out, k);
    }
}

fn call(vop: VersionOp, dop: DiskOp, table: Table) -> Call {
    Call {
        reference: 0,
        vop,
        dop,
        node: sector::zero_node(),
        table,
    }
}

// A new cache that has received table area 1's place and asked for its table: it is Loading, and awaits the read.
fn loading(settings: Settings) -> CacheState {
    let loc = Location {
        addr: layout::indirection_table1_addr(settings.device).unwrap_or(0),
        len: 4096,
    };
    let none = sector::empty_table();
    let place = call(VersionOp::SendPersistentLocOp(loc), DiskOp::NoDiskOp, none);
    let state = cache::empty_cache();
    let state = Cache { settings, state }.step(10, place).cache;
    let read = DiskOp::ReqReadIndirectionTableOp(ID, loc);
    let ask = call(VersionOp::StatesInternalOp, read, none);
    Cache { settings, state }.step(8, ask).cache
}

// Whether it accepts the table that the read brings.
fn loads(settings: Settings, table: Table) -> bool {
    let state = loading(settings);
    let brings = DiskOp::RespReadIndirectionTableOp(ID, Brought::Something);
    let o = Cache { settings, state }.step(9, call(VersionOp::StatesInternalOp, brings, table));
    o.answer == 0
}

// Whether number k's table is accepted under both rules.
fn is_taken(device: u64, k: u64) -> bool {
    let Ok(table) = numbering::small_table(device, k) else {
        return false;
    };
    loads(Settings { device, rule: 1 }, table) & loads(Settings { device, rule: 2 }, table)
}

fn accepted(device: u64) -> usize {
    (0..numbering::small_tables())
        .filter(|k| is_taken(device, *k))
        .count()
}

fn print_device(out: &mut Output, device: u64) {
    word(out, b"device=", device);
    word(out, b" tables=", numbering::small_tables());
    word(out, b" accepted=", accepted(device) as u64);
    text(out, b"\n");
}

fn main(rt: HostRuntime) -> io::Result<()> {
    let mut out = Output::new(rt.stdout());
    print_numbers(&mut out);
    print_device(&mut out, 0);
    print_device(&mut out, 1);
    print_device(&mut out, 2);
    finish(out)
}
