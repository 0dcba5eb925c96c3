// What a place is (document 02, Q-5): the one question that stands for upstream's five, on a row and as a call. The tests of single
// kinds are private: whoever wants to know what a place is asks for its kind, a walk over the blocks for the kind at a node address.
ghost use Rattle.std.specs.Prelude.{None, ◌≡◌, eqb};
ghost use Rattle.std.specs.Result.{result_unwrap_or};
ghost use Rattle.disklayout.specs.Calls.{answered, holds_on};
ghost use Rattle.disklayout.specs.Device.{device_of};
ghost use Rattle.disklayout.specs.Kinds.{kind_of, kind_at_node, kind_holds, kind_number};
ghost use Rattle.disklayout.specs.Layout.{valid_journal_location, valid_indirection_table_location};
ghost use Rattle.disklayout.specs.Layout.{same_loc, valid_superblock_location, valid_location};

use crate::areas::{JOURNAL_START, PAGE, SUPERBLOCK1, SUPERBLOCK2};
use crate::rows::{GoodRow, row};
use crate::sums::sum_within;
use disklayout::{Kind, Location, Refused};

pub const TABLE_KIND: u64 = 4;

pub const NODE_KIND: u64 = 5;

// Document 02's number of a kind: 1 to 5, and 0 for none.
#[tactic(auto, unfolding(disklayout::specs::Kinds::kind_number))]
pub fn kind_number(kind: Option<Kind>) -> u64
    ensures { result ≡ kind_number kind }
{
    match kind {
        Some(Kind::Superblock1) => 1,
        Some(Kind::Superblock2) => 2,
        Some(Kind::Journal) => 3,
        Some(Kind::Table) => TABLE_KIND,
        Some(Kind::Node) => NODE_KIND,
        None => 0,
    }
}

impl GoodRow {
    // Upstream's index test, (addr - 2*4096) / 4096 < blocks, is addr < end; and its test that the sum fits 64 bits follows from the
    // last one, as the end does.
    #[tactic(auto, using(disklayout::proofs::Facts::journal_short))]
    fn is_journal(self, loc: Location) -> bool
        ensures { result ≡ valid_journal_location self.numbers loc }
    {
        let end = self.table1();
        let inside = sum_within(loc.addr, loc.len, end, 0);
        let aligned = (loc.addr % PAGE == 0) & (loc.len % PAGE == 0);
        aligned & (JOURNAL_START <= loc.addr) & (loc.addr < end) & inside
    }

    #[tactic(auto, unfolding(disklayout::specs::Layout::valid_indirection_table_location))]
    fn is_table(self, loc: Location) -> bool
        ensures { result ≡ valid_indirection_table_location self.numbers loc }
    {
        self.is_table_addr(loc.addr) & (0 < loc.len) & (loc.len <= self.numbers.table)
    }

    // The kind of a place of this length at a node address. Who has come upon the address by a walk over the blocks asks this: the address isn't
    // tested again, and no remainder is taken.
    pub(crate) fn kind_at_node(self, len: u64) -> Option<Kind>
        ensures { result ≡ kind_at_node self.numbers len }
    {
        if len <= self.numbers.block {
            Some(Kind::Node)
        } else {
            None
        }
    }

    // The kinds lie one behind the other on a device, so the address leaves one or two of them to be tested. A place of zeros, as a table's
    // reference without a location has, is told by comparisons alone; the remainder by the block size is taken only at or past the first node
    // address.
    pub(crate) fn kind(self, loc: Location) -> Option<Kind>
        ensures { result ≡ kind_of self.numbers loc }
    {
        if loc.addr < JOURNAL_START {
            return if loc == SUPERBLOCK1 {
                Some(Kind::Superblock1)
            } else if loc == SUPERBLOCK2 {
                Some(Kind::Superblock2)
            } else {
                None
            };
        }
        if self.first_node() <= loc.addr {
            return if self.is_node_addr(loc.addr) {
                self.kind_at_node(loc.len)
            } else {
                None
            };
        }
        if self.is_journal(loc) {
            Some(Kind::Journal)
        } else if self.is_table(loc) {
            Some(Kind::Table)
        } else {
            None
        }
    }
}

// What a place is on a device; refused where no such device is made.
pub fn kind_of(device: u64, loc: Location) -> Result<Option<Kind>, Refused>
    ensures { result ≡ answered device (kind_of (device_of device) loc) }
{
    Ok(row(device)?.kind(loc))
}

// Whether a place is of this kind on a device; it is of none where no such device is made.
pub fn is_kind(device: u64, loc: Location, kind: Kind) -> bool
    ensures { result ≡ holds_on device (kind_holds kind (device_of device) loc) }
{
    kind_of(device, loc) == Ok(Some(kind))
}

// Whether an answer of `kind_of` is the kind that has this number; a refused one is kind 0, none, and no kind has a number above 5.
pub fn is_kind_number(asked: Result<Option<Kind>, Refused>, number: u64) -> bool
    ensures { result ≡ eqb (kind_number (result_unwrap_or asked None)) number }
{
    kind_number(asked.unwrap_or(None)) == number
}

// Equality of places, address and length: the `==` that they derive.
pub fn same_loc(a: Location, b: Location) -> bool
    ensures { result ≡ same_loc a b }
{
    a == b
}

// Of one superblock or the other.
#[tactic(auto, using(crate::proofs::Asked::superblock_asked), unfolding(disklayout::specs::Layout::valid_superblock_location))]
pub fn valid_superblock_location(device: u64, loc: Location) -> Result<bool, Refused>
    ensures { result ≡ answered device (valid_superblock_location loc) }
{
    let row = row(device)?;
    let kind = row.kind(loc);
    Ok((kind == Some(Kind::Superblock1)) | (kind == Some(Kind::Superblock2)))
}

// Of any kind.
#[tactic(auto, using(crate::proofs::Asked::kind_some))]
pub fn valid_location(device: u64, loc: Location) -> Result<bool, Refused>
    ensures { result ≡ answered device (valid_location (device_of device) loc) }
{
    let row = row(device)?;
    Ok(row.kind(loc).is_some())
}
