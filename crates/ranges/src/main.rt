// Prints a line for each of a list of journal ranges: what is asked, the number of each part's call, and the blocks of each part, read off the
// bytes that were handed back. A ? would be 4096 bytes that are not one block's, and +N would be N bytes behind the last whole block.
#![tactic(auto)]

ghost use Rattle.std.specs.Prelude.{◌≡◌, ℕ, ◌/◌, ◌%◌, ◌<◌, length, get_or};
ghost use Rattle.std.specs.Option.{IfSome};

use output::{Output, finish, number as print_number, text, word};
use std::io;

const BLOCK: usize = 4096;

// How long the devices' journals are, in bytes: 16, 64 and 256 blocks.
const JOURNAL0: usize = 65_536;

const JOURNAL1: usize = 262_144;

const JOURNAL2: usize = 1_048_576;

const U64_MAX: u64 = 0xffff_ffff_ffff_ffff;

// Each byte tells the number of its block.
fn fill(memory: &mut [u8])
    ensures { (k : ℕ) → k < length memory.new → get_or memory.new k 0 ≡ k / 4096 % 256 }
{
    for (i, byte) in memory.iter_mut().enumerate() {
        *byte = (i / BLOCK % 256) as u8;
    }
}

// The number that each byte of a block tells, where all tell one.
fn block_number(block: &[u8]) -> Option<u8>
    ensures { IfSome result (λ n. (k : ℕ) → k < length block.now → get_or block.now k 0 ≡ n) }
{
    let number = *block.first()?;
    if block.iter().all(|told| *told == number) {
        Some(number)
    } else {
        None
    }
}

fn print_block(out: &mut Output, first: bool, number: Option<u8>) {
    if !first {
        text(out, b",");
    }
    match number {
        Some(number) => print_number(out, u64::from(number)),
        None => text(out, b"?"),
    }
}

// Bytes behind the last whole block.
fn print_left(out: &mut Output, bytes: usize) {
    if bytes != 0 {
        word(out, b"+", bytes as u64);
    }
}

// The numbers that a part's blocks tell.
fn print_blocks(out: &mut Output, part: &[u8]) {
    for (i, block) in part.chunks_exact(BLOCK).enumerate() {
        print_block(out, i == 0, block_number(block));
    }
    print_left(out, part.len() % BLOCK);
}

fn line(out: &mut Output, device: u64, area: &[u8], start: u64, blocks: u64) {
    word(out, b"device=", device);
    word(out, b" bytes=", area.len() as u64);
    word(out, b" start=", start);
    word(out, b" blocks=", blocks);
    word(
        out,
        b" front_result=",
        journalarea::front_result(device, area, start, blocks),
    );
    text(out, b" front=");
    print_blocks(out, journalarea::front(device, area, start, blocks));
    word(
        out,
        b" back_result=",
        journalarea::back_result(device, area, start, blocks),
    );
    text(out, b" back=");
    print_blocks(out, journalarea::back(device, area, start, blocks));
    text(out, b"\n");
}

// Ranges of device 0's journal, accepted and refused.
fn device0(out: &mut Output, area: &[u8]) {
    line(out, 0, area, 14, 5);
    line(out, 0, area, 14, 2);
    line(out, 0, area, 14, 3);
    line(out, 0, area, 7, 1);
    line(out, 0, area, 14, 0);
    line(out, 0, area, 0, 16);
    line(out, 0, area, 15, 16);
    line(out, 0, area, 0, 17);
    line(out, 0, area, 15, 17);
    line(out, 0, area, 15, U64_MAX);
    line(out, 0, area, 16, 1);
    line(out, 0, area, 16, 0);
    line(out, 0, area, U64_MAX, 1);
}

// The first bytes of the memory, as many as asked for or as there are.
fn prefix(memory: &[u8], bytes: usize) -> &[u8] {
    if bytes <= memory.len() {
        return &memory[0..bytes];
    }
    memory
}

// Areas that aren't as long as the journal; 1 comes before 23.
fn wrong_areas(out: &mut Output, memory: &[u8]) {
    line(out, 0, prefix(memory, JOURNAL0 - 1), 14, 5);
    line(out, 0, prefix(memory, JOURNAL0 + 1), 14, 5);
    line(out, 0, prefix(memory, 0), 14, 5);
    line(out, 0, prefix(memory, JOURNAL0 - 1), 14, 0);
    line(out, 0, prefix(memory, JOURNAL0 - 1), 14, 17);
    line(out, 0, prefix(memory, JOURNAL0 - 1), 16, 5);
    line(out, 1, prefix(memory, JOURNAL0), 14, 5);
    line(out, 3, prefix(memory, JOURNAL0), 14, 5);
    line(out, 3, prefix(memory, 0), 14, 5);
}

// The other devices' journals.
fn other_devices(out: &mut Output, memory: &[u8]) {
    line(out, 1, prefix(memory, JOURNAL1), 62, 5);
    line(out, 1, prefix(memory, JOURNAL1), 64, 1);
    line(out, 2, prefix(memory, JOURNAL2), 254, 5);
    line(out, 2, prefix(memory, JOURNAL2), 255, 257);
}

// Room for the longest journal. The array stands in a function of its own: in a proof of `main` it would nest too deep for the checker.
fn zeros() -> [u8; 1_048_576] {
    [0; 1_048_576]
}

fn main(rt: HostRuntime) -> io::Result<()> {
    let mut out = Output::new(rt.stdout());
    let mut memory = zeros();
    fill(&mut memory);
    let whole = &memory[..];
    device0(&mut out, prefix(whole, JOURNAL0));
    wrong_areas(&mut out, whole);
    other_devices(&mut out, whole);
    finish(out)
}
