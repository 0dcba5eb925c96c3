// Prints a line for each device: its number, journal start, journal end, both table addresses, first node address, end of the node
// blocks. Each number is the layout library's.
#![tactic(auto)]

use disklayout::Refused;
use output::{Output, finish, text, word};
use std::io;

fn line(out: &mut Output, device: u64) {
    word(out, b"device=", device);
    address(out, b" journal=", layout::journal_start_addr(device));
    address(out, b" journal_end=", layout::journal_end_addr(device));
    address(out, b" table1=", layout::indirection_table1_addr(device));
    address(out, b" table2=", layout::indirection_table2_addr(device));
    address(out, b" node=", layout::first_node_addr(device));
    address(out, b" end=", layout::node_blocks_end(device));
    text(out, b"\n");
}

// A refused one is 0.
fn address(out: &mut Output, name: &[u8], answered: Result<u64, Refused>) {
    word(out, name, answered.unwrap_or(0));
}

fn main(rt: HostRuntime) -> io::Result<()> {
    let mut out = Output::new(rt.stdout());
    for device in 0..3 {
        line(&mut out, device);
    }
    finish(out)
}
