// The calls on addresses, and on places against each other.
ghost use Rattle.std.specs.Prelude.{◌≡◌};
ghost use Rattle.disklayout.specs.Calls.{answered};
ghost use Rattle.disklayout.specs.Device.{device_of};
ghost use Rattle.disklayout.specs.Layout.{num_journal_blocks, indirection_table_max_length, node_block_size, min_node_block_index};
ghost use Rattle.disklayout.specs.Layout.{indirection_table1_addr, indirection_table2_addr, journal_start_addr, journal_end_addr};
ghost use Rattle.disklayout.specs.Layout.{valid_indirection_table_addr, valid_node_addr, superblock1_location, superblock2_location};
ghost use Rattle.disklayout.specs.Layout.{location_sub, other_indirection_table_addr};
ghost use Rattle.disklayout.specs.Layout.{overlap as Layout·overlap};

use crate::areas::{JOURNAL_START, SUPERBLOCK1, SUPERBLOCK2};
use crate::rows::row;
use crate::sums::{is_part, overlaps};
use disklayout::{Location, Refused};

pub fn num_journal_blocks(device: u64) -> Result<u64, Refused>
    ensures { result ≡ answered device (num_journal_blocks (device_of device)) }
{
    Ok(row(device)?.numbers.journal)
}

pub fn indirection_table_max_length(device: u64) -> Result<u64, Refused>
    ensures { result ≡ answered device (indirection_table_max_length (device_of device)) }
{
    Ok(row(device)?.numbers.table)
}

pub fn node_block_size(device: u64) -> Result<u64, Refused>
    ensures { result ≡ answered device (node_block_size (device_of device)) }
{
    Ok(row(device)?.numbers.block)
}

pub fn min_node_block_index(device: u64) -> Result<u64, Refused>
    ensures { result ≡ answered device (min_node_block_index (device_of device)) }
{
    Ok(row(device)?.numbers.first)
}

pub fn indirection_table1_addr(device: u64) -> Result<u64, Refused>
    ensures { result ≡ answered device (indirection_table1_addr (device_of device)) }
{
    Ok(row(device)?.table1())
}

pub fn indirection_table2_addr(device: u64) -> Result<u64, Refused>
    ensures { result ≡ answered device (indirection_table2_addr (device_of device)) }
{
    Ok(row(device)?.table2())
}

pub fn journal_start_addr(device: u64) -> Result<u64, Refused>
    ensures { result ≡ answered device journal_start_addr }
{
    row(device)?;
    Ok(JOURNAL_START)
}

pub fn journal_end_addr(device: u64) -> Result<u64, Refused>
    ensures { result ≡ answered device (journal_end_addr (device_of device)) }
{
    Ok(row(device)?.table1())
}

pub fn other_indirection_table_addr(device: u64, addr: u64) -> Result<u64, Refused>
    ensures { result ≡ answered device (other_indirection_table_addr (device_of device) addr) }
{
    Ok(row(device)?.other_table(addr))
}

pub fn valid_indirection_table_addr(device: u64, addr: u64) -> Result<bool, Refused>
    ensures { result ≡ answered device (valid_indirection_table_addr (device_of device) addr) }
{
    Ok(row(device)?.is_table_addr(addr))
}

pub fn valid_node_addr(device: u64, addr: u64) -> Result<bool, Refused>
    ensures { result ≡ answered device (valid_node_addr (device_of device) addr) }
{
    Ok(row(device)?.is_node_addr(addr))
}

pub fn superblock1_location(device: u64) -> Result<Location, Refused>
    ensures { result ≡ answered device superblock1_location }
{
    row(device)?;
    Ok(SUPERBLOCK1)
}

pub fn superblock2_location(device: u64) -> Result<Location, Refused>
    ensures { result ≡ answered device superblock2_location }
{
    row(device)?;
    Ok(SUPERBLOCK2)
}

pub fn overlap(device: u64, a: Location, b: Location) -> Result<bool, Refused>
    ensures { result ≡ answered device (Layout·overlap a b) }
{
    row(device)?;
    Ok(overlaps(a, b))
}

pub fn location_sub(device: u64, a: Location, b: Location) -> Result<bool, Refused>
    ensures { result ≡ answered device (location_sub a b) }
{
    row(device)?;
    Ok(is_part(a, b))
}
