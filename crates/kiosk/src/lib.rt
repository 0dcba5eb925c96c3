// Document 02's layout questions for C (Q-14): which place this is, overlap, the other table's address, and where the front and the back part of
// a journal range lie in an area of `bytes` bytes that holds the journal. All numbers are 64 bits wide, and each number of an answer is a function of
// its own, the result among them; where the result isn't 0 the others are 0. kiosk/layout.h declares the functions, and kiosk/check
// compares it with this file: C looks at the order of the arguments alone, and no contract says what it is. No function has a `requires`.
#![tactic(auto)]

ghost use Rattle.std.specs.Prelude.{◌≡◌};
ghost use Rattle.base.specs.Refusals.{answer};
ghost use Rattle.base.specs.Scan.{bit};
ghost use Rattle.disklayout.specs.Calls.{answer_number, answered, holds_on, kind_or_none, number_on};
ghost use Rattle.disklayout.specs.Device.{device_of};
ghost use Rattle.disklayout.specs.Kinds.{kind_number, kind_of};
ghost use Rattle.disklayout.specs.Layout.{other_indirection_table_addr, overlap};
ghost use Rattle.journalrange.specs.Parts.{front_rows, back_rows, front_part, back_part, place_of};
ghost use Rattle.kiosk.specs.Places.{at};

use disklayout::{Location, Refused};
use journalrange::Part;

fn place(addr: u64, len: u64) -> Location
    ensures { result ≡ at addr len }
{
    Location { addr, len }
}

// 0, or the number of the refusal.
fn answer_number<T: Copy>(answered: Result<T, Refused>) -> u64
    ensures { result ≡ answer_number answered }
{
    match answered {
        Ok(_) => 0,
        Err(refused) => u64::from(refused),
    }
}

// WHICH PLACE THIS IS

// 0, or 1 where there is no such device.
#[unsafe(no_mangle)]
pub extern "C" fn layout_place_result(device: u64, addr: u64, len: u64) -> u64
    ensures { result ≡ answer_number (answered device (kind_of (device_of device) (at addr len))) }
{
    answer_number(layout::kind_of(device, place(addr, len)))
}

// The number of its kind: 1 and 2 the superblocks, 3 journal, 4 table, 5 node; 0 where it is of none.
#[tactic(auto, using(disklayout::proofs::Results::answered_kind))]
#[unsafe(no_mangle)]
pub extern "C" fn layout_place_kind(device: u64, addr: u64, len: u64) -> u64
    ensures { result ≡ kind_number (kind_or_none device (kind_of (device_of device) (at addr len))) }
{
    let kind = layout::kind_of(device, place(addr, len)).unwrap_or(None);
    layout::kind_number(kind)
}

// OVERLAP

// 0, or 1 where there is no such device.
#[unsafe(no_mangle)]
pub extern "C" fn layout_overlap_result(
    device: u64,
    addr1: u64,
    len1: u64,
    addr2: u64,
    len2: u64,
) -> u64
    ensures { result ≡ answer_number (answered device (overlap (at addr1 len1) (at addr2 len2))) }
{
    answer_number(layout::overlap(device, place(addr1, len1), place(addr2, len2)))
}

// 1 where the two places overlap, 0 where they don't.
#[unsafe(no_mangle)]
pub extern "C" fn layout_overlap(device: u64, addr1: u64, len1: u64, addr2: u64, len2: u64) -> u64
    ensures { result ≡ bit (holds_on device (overlap (at addr1 len1) (at addr2 len2))) }
{
    u64::from(layout::overlap(device, place(addr1, len1), place(addr2, len2)).unwrap_or(false))
}

// THE OTHER TABLE'S ADDRESS

// 0, or 1 where there is no such device.
#[unsafe(no_mangle)]
pub extern "C" fn layout_other_table_result(device: u64, addr: u64) -> u64
    ensures { result ≡ answer_number (answered device (other_indirection_table_addr (device_of device) addr)) }
{
    answer_number(layout::other_indirection_table_addr(device, addr))
}

// The address of table area 2 for that of area 1; the address of area 1 for every other, as upstream has it.
#[unsafe(no_mangle)]
pub extern "C" fn layout_other_table_addr(device: u64, addr: u64) -> u64
    ensures { result ≡ number_on device (other_indirection_table_addr (device_of device) addr) }
{
    layout::other_indirection_table_addr(device, addr).unwrap_or(0)
}

// THE FRONT PART OF A RANGE: of `blocks` blocks from block `start` on, up to the journal's end

// 0; 1 where there is no such device or the range begins past the journal's last block; else 23 where `bytes` isn't the journal's length.
#[unsafe(no_mangle)]
pub extern "C" fn layout_front_result(device: u64, bytes: u64, start: u64, blocks: u64) -> u64
    ensures { result ≡ answer (front_rows device bytes start) }
{
    journalarea::front_part(device, bytes, start, blocks).map_or_else(u64::from, |_| 0)
}

// Where it lies: 0 and 0 where the call is refused.
fn front_place(device: u64, bytes: u64, start: u64, blocks: u64) -> Part
    ensures { result ≡ place_of (front_part device bytes start blocks) }
{
    journalarea::front_part(device, bytes, start, blocks).unwrap_or_default()
}

// Its first byte, counted from the area's first.
#[unsafe(no_mangle)]
pub extern "C" fn layout_front_start(device: u64, bytes: u64, start: u64, blocks: u64) -> u64
    ensures { result ≡ (place_of (front_part device bytes start blocks)).start }
{
    front_place(device, bytes, start, blocks).start
}

// How many bytes it has.
#[unsafe(no_mangle)]
pub extern "C" fn layout_front_len(device: u64, bytes: u64, start: u64, blocks: u64) -> u64
    ensures { result ≡ (place_of (front_part device bytes start blocks)).len }
{
    front_place(device, bytes, start, blocks).len
}

// THE BACK PART OF A RANGE: what it has past the journal's end, from the journal's first block on

// 0; 1 where there is no such device, the range begins past the journal's last block or has more blocks than the journal; else 23 where `bytes` isn't
// the journal's length.
#[unsafe(no_mangle)]
pub extern "C" fn layout_back_result(device: u64, bytes: u64, start: u64, blocks: u64) -> u64
    ensures { result ≡ answer (back_rows device bytes start blocks) }
{
    journalarea::back_part(device, bytes, start, blocks).map_or_else(u64::from, |_| 0)
}

fn back_place(device: u64, bytes: u64, start: u64, blocks: u64) -> Part
    ensures { result ≡ place_of (back_part device bytes start blocks) }
{
    journalarea::back_part(device, bytes, start, blocks).unwrap_or_default()
}

// Its first byte, counted from the area's first.
#[unsafe(no_mangle)]
pub extern "C" fn layout_back_start(device: u64, bytes: u64, start: u64, blocks: u64) -> u64
    ensures { result ≡ (place_of (back_part device bytes start blocks)).start }
{
    back_place(device, bytes, start, blocks).start
}

// How many bytes it has.
#[unsafe(no_mangle)]
pub extern "C" fn layout_back_len(device: u64, bytes: u64, start: u64, blocks: u64) -> u64
    ensures { result ≡ (place_of (back_part device bytes start blocks)).len }
{
    back_place(device, bytes, start, blocks).len
}
