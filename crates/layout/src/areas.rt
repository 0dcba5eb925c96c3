// Where the areas lie and which addresses are theirs.
ghost use Rattle.std.specs.Prelude.{◌≡◌};
ghost use Rattle.disklayout.specs.Layout.{indirection_table1_addr, indirection_table2_addr, other_indirection_table_addr};
ghost use Rattle.disklayout.specs.Layout.{valid_indirection_table_addr, valid_node_addr};
ghost use Rattle.disklayout.specs.Blocks.{first_node_addr};

use crate::rows::GoodRow;
use disklayout::Location;

pub(crate) const PAGE: u64 = 4096;

pub(crate) const JOURNAL_START: u64 = 2 * 4096;

pub(crate) const SUPERBLOCK1: Location = Location { addr: 0, len: 4096 };

pub(crate) const SUPERBLOCK2: Location = Location {
    addr: 4096,
    len: 4096,
};

impl GoodRow {
    // Table area 1 begins where the journal ends.
    pub(crate) fn table1(self) -> u64
        ensures { result ≡ indirection_table1_addr self.numbers }
    {
        JOURNAL_START + self.numbers.journal * PAGE
    }

    pub(crate) fn table2(self) -> u64
        ensures { result ≡ indirection_table2_addr self.numbers }
    {
        self.table1() + self.numbers.table
    }

    pub(crate) fn other_table(self, addr: u64) -> u64
        ensures { result ≡ other_indirection_table_addr self.numbers addr }
    {
        if addr == self.table1() {
            self.table2()
        } else {
            self.table1()
        }
    }

    pub(crate) fn first_node(self) -> u64
        ensures { result ≡ first_node_addr self.numbers }
    {
        self.numbers.block * self.numbers.first
    }

    #[tactic(auto, unfolding(disklayout::specs::Layout::valid_indirection_table_addr))]
    pub(crate) fn is_table_addr(self, addr: u64) -> bool
        ensures { result ≡ valid_indirection_table_addr self.numbers addr }
    {
        (addr == self.table1()) | (addr == self.table2())
    }

    #[tactic(auto, unfolding(disklayout::specs::Layout::valid_node_addr))]
    pub(crate) fn is_node_addr(self, addr: u64) -> bool
        ensures { result ≡ valid_node_addr self.numbers addr }
    {
        (addr % self.numbers.block == 0) & (self.first_node() <= addr)
    }
}
