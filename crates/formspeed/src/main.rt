// A million calls of the disk that do nothing but judge its written form, to be timed: `time crates/formspeed/out/formspeed`.
// Prints how many were accepted.
#![tactic(auto)]

use blockdisk::{DiskCall, DiskOp, DiskState};
use disk::Disk;
use output::{Output, finish, number, text};
use std::io;

fn empty() -> DiskState {
    let records = disk::empty_records();
    let queues = disk::empty_queues();
    DiskState {
        rule: 1,
        records,
        queues,
    }
}

// One call; 1 if it was accepted.
fn turn(s: DiskState) -> u64 {
    let node = sector::zero_node();
    let table = sector::empty_table();
    let c = DiskCall {
        op: DiskOp::NoDiskOp,
        node,
        table,
    };
    let o = Disk {
        device: 0,
        state: s,
    }
    .next(c);
    if o.answer == 0 { 1 } else { 0 }
}

fn main(rt: HostRuntime) -> io::Result<()> {
    let s = empty();
    let mut accepted: u64 = 0;
    for _ in 0..1000000u64 {
        let n = turn(s);
        if n == 1 {
            accepted += 1;
        }
    }
    let mut out = Output::new(rt.stdout());
    number(&mut out, accepted);
    text(&mut out, b"\n");
    finish(out)
}
