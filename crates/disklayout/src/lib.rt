// Upstream's DiskLayout as definitions: the types, a device's row, which places are valid, and the laws of the layout for any good
// row. The only code is the number of a refusal: `layout` has the calls, each of which is proved to return what is defined here.
#![tactic(auto)]

ghost use Rattle.std.specs.Prelude.{◌≡◌};

// A place on the device: len bytes from addr on. Upstream's Addr is a u64.
#[derive(Clone, Copy, Debug, PartialEq, Eq)]
pub struct Location {
    pub addr: u64,
    pub len: u64,
}

// Document 01's row of four numbers: journal blocks, table length, node block size, first node block.
#[derive(Clone, Copy)]
pub struct Device {
    pub journal: u64,
    pub table: u64,
    pub block: u64,
    pub first: u64,
}

// What a place is (document 02, Q-5): upstream's five validity predicates as one answer. On a good row at most one of them holds.
#[derive(Clone, Copy, Debug, PartialEq, Eq)]
pub enum Kind {
    Superblock1,
    Superblock2,
    Journal,
    Table,
    Node,
}

// Why a layout call has no result.
#[derive(Clone, Copy, Debug, PartialEq, Eq)]
pub enum Refused {
    // There is no such device, what upstream requires fails, or the result doesn't fit 64 bits.
    Undefined,
}

// Document 01's number of it.
impl From<Refused> for u64 {
    ghost use Rattle.disklayout.specs.Calls.{refused_number};

    ghost from_gives = { λ refused n. n ≡ refused_number refused };

    fn from(refused: Refused) -> u64 {
        match refused {
            Refused::Undefined => 1,
        }
    }
}
