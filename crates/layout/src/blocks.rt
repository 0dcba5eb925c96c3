// Document 01's node blocks and table areas: the arithmetic on a row, and the calls.
ghost use Rattle.std.specs.Prelude.{◌≡◌, ◌+◌, ◌^◌, ◌<◌, ltb};
ghost use Rattle.disklayout.specs.Calls.{answered, answered_if, told};
ghost use Rattle.disklayout.specs.Device.{device_of};
ghost use Rattle.disklayout.specs.Blocks.{first_node_addr, node_block_addr, node_blocks_end, node_block_of};
ghost use Rattle.disklayout.specs.Blocks.{table_area_addr, table_area_of, node_place_length, table_place_in, node_place};

use crate::rows::{GoodRow, row};
use disklayout::{Kind, Location, Refused};

const BLOCKS: u64 = 128;

impl GoodRow {
    // The address of block k; the end of the blocks for k = 128.
    fn block_addr(self, k: u64) -> u64
        requires { k < 129 }
        ensures { result ≡ node_block_addr self.numbers k }
    {
        self.first_node() + k * self.numbers.block
    }

    fn area_addr(self, k: u64) -> u64
        requires { k < 2 }
        ensures { result ≡ table_area_addr self.numbers k }
    {
        self.table1() + k * self.numbers.table
    }

    // A running address, a block further.
    fn next_addr(self, at: u64) -> u64
        requires { at + self.numbers.block < 2 ^ 64 }
        ensures { result ≡ at + self.numbers.block }
    {
        at + self.numbers.block
    }

    // The walk from block 0 keeps a running address: the first node address, and a block's size more at each try. It is left at the block found, or
    // once the running address is past the one asked for. At a try no product and no quotient is taken (document 02, Q-4).
    fn walk_to_block(self, addr: u64) -> Option<u64>
        ensures { result ≡ told (node_block_of self.numbers addr) }
    {
        let mut at = self.first_node();
        for k in 0..BLOCKS {
            if addr <= at {
                if addr < at {
                    break;
                }
                return Some(k);
            }
            at = self.next_addr(at);
        }
        None
    }

    // The same with no walk: the test of the address takes a product, first node block times block size, and a remainder; where it passes, a
    // quotient gives the number. The marks ask it of every location in three tables at each call (document 02, Q-1), and a walk for each would
    // cost more than the rest of the call.
    fn block_by_division(self, addr: u64) -> Option<u64>
        ensures { result ≡ told (node_block_of self.numbers addr) }
    {
        if self.is_node_addr(addr) {
            let k = addr / self.numbers.block - self.numbers.first;
            if k < BLOCKS {
                return Some(k);
            }
        }
        None
    }

    #[tactic(auto, unfolding(disklayout::specs::Blocks::table_area_of))]
    fn area_of(self, addr: u64) -> Option<u64>
        ensures { result ≡ told (table_area_of self.numbers addr) }
    {
        if addr == self.table1() {
            Some(0)
        } else if addr == self.table2() {
            Some(1)
        } else {
            None
        }
    }

    // For a walk over the blocks, which has the address of each.
    fn is_node_place_length(self, len: u64) -> bool
        ensures { result ≡ node_place_length self.numbers len }
    {
        (self.kind_at_node(len) == Some(Kind::Node)) & (len != 0)
    }

    #[tactic(auto, using(crate::proofs::Asked::kind_asked), unfolding(disklayout::specs::Blocks::table_place_in, disklayout::specs::Kinds::kind_holds))]
    fn is_table_place_in(self, k: u64, loc: Location) -> bool
        ensures { result ≡ table_place_in self.numbers k loc }
    {
        if k < 2 {
            let addr = self.area_addr(k);
            return (loc.addr == addr) & (self.kind(loc) == Some(Kind::Table));
        }
        false
    }

    // Whether a node's place lies in one of the blocks is told by their end: no block is looked for.
    fn is_node_place(self, loc: Location) -> bool
        ensures { result ≡ node_place self.numbers loc }
    {
        let end = self.block_addr(BLOCKS);
        (loc.addr < end) & (self.kind(loc) == Some(Kind::Node)) & (loc.len != 0)
    }
}

pub fn first_node_addr(device: u64) -> Result<u64, Refused>
    ensures { result ≡ answered device (first_node_addr (device_of device)) }
{
    Ok(row(device)?.first_node())
}

pub fn node_blocks_end(device: u64) -> Result<u64, Refused>
    ensures { result ≡ answered device (node_blocks_end (device_of device)) }
{
    Ok(row(device)?.block_addr(BLOCKS))
}

pub fn node_block_addr(device: u64, k: u64) -> Result<u64, Refused>
    ensures { result ≡ answered_if device (ltb k 128) (node_block_addr (device_of device) k) }
{
    let row = row(device)?;
    if k >= BLOCKS {
        return Err(Refused::Undefined);
    }
    Ok(row.block_addr(k))
}

// The number of the block that has the address, or none: two calls with one contract. This one walks, and multiplies at no try (document
// 02, Q-4): for whoever looks for one block, as the disk does.
pub fn node_block_by_walk(device: u64, addr: u64) -> Result<Option<u64>, Refused>
    ensures { result ≡ answered device (told (node_block_of (device_of device) addr)) }
{
    Ok(row(device)?.walk_to_block(addr))
}

// This one divides: for whoever asks of one location after another, as the marks do (document 02, Q-1).
pub fn node_block_by_division(device: u64, addr: u64) -> Result<Option<u64>, Refused>
    ensures { result ≡ answered device (told (node_block_of (device_of device) addr)) }
{
    Ok(row(device)?.block_by_division(addr))
}

pub fn table_area_of(device: u64, addr: u64) -> Result<Option<u64>, Refused>
    ensures { result ≡ answered device (told (table_area_of (device_of device) addr)) }
{
    Ok(row(device)?.area_of(addr))
}

pub fn node_place_length(device: u64, len: u64) -> Result<bool, Refused>
    ensures { result ≡ answered device (node_place_length (device_of device) len) }
{
    Ok(row(device)?.is_node_place_length(len))
}

pub fn table_place_in(device: u64, k: u64, loc: Location) -> Result<bool, Refused>
    ensures { result ≡ answered device (table_place_in (device_of device) k loc) }
{
    Ok(row(device)?.is_table_place_in(k, loc))
}

pub fn node_place(device: u64, loc: Location) -> Result<bool, Refused>
    ensures { result ≡ answered device (node_place (device_of device) loc) }
{
    Ok(row(device)?.is_node_place(loc))
}
