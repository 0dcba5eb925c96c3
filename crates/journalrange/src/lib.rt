// Document 02's journal bytes (Q-3) as definitions: where in a lent journal area the front and the back part of a circular range lie, which
// refusals the call of each has, and the theorem of the two together. The calls are in `journalarea`, and each is proved to return what is
// defined here; the code here is the number of a refusal.
#![tactic(auto)]

use disklayout::Refused;

// Where in the lent area a part of a range lies: `len` bytes from byte `start` on. Where the range has no such part, both are 0.
#[derive(Clone, Copy, Default)]
pub struct Part {
    pub start: u64,
    pub len: u64,
}

// Why a part's call tells no part.
#[derive(Clone, Copy, Debug, PartialEq, Eq)]
pub enum PartRefused {
    // There is no such device, or what upstream requires of the part's location fails.
    Undefined,
    // The lent area isn't exactly as long as the device's journal.
    OtherLength,
}

// Document 01's number of the first, and document 02's own of the second.
impl From<PartRefused> for u64 {
    ghost use Rattle.std.specs.Prelude.{◌≡◌};
    ghost use Rattle.journalrange.specs.Parts.{part_refused_number};

    ghost from_gives = { λ refused n. n ≡ part_refused_number refused };

    fn from(refused: PartRefused) -> u64 {
        match refused {
            PartRefused::Undefined => 1,
            PartRefused::OtherLength => 23,
        }
    }
}

// A part whose location the layout refuses to tell.
impl From<Refused> for PartRefused {
    ghost use Rattle.std.specs.Prelude.{◌≡◌};
    ghost use Rattle.journalrange.specs.Parts.{untold};

    ghost from_gives = { λ refused part. part ≡ untold refused };

    fn from(refused: Refused) -> PartRefused {
        match refused {
            Refused::Undefined => PartRefused::Undefined,
        }
    }
}
