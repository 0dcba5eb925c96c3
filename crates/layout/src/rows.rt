// The devices that are made, and the row of one.
ghost use Rattle.std.specs.Prelude.{◌≡◌, true, false, MatchResult};
ghost use Rattle.disklayout.specs.Device.{Good, device_of, made};

use disklayout::{Device, Refused};

// Document 01's table, row by row as it stands there.
const DEVICES: [Device; 3] = [
    Device {
        journal: 16,
        table: 65_536,
        block: 65_536,
        first: 4,
    },
    Device {
        journal: 64,
        table: 262_144,
        block: 131_072,
        first: 7,
    },
    Device {
        journal: 256,
        table: 1_048_576,
        block: 1_048_576,
        first: 4,
    },
];

// A good row of numbers: no sum or product on the way to an address in the areas or blocks passes 64 bits, and no divisor is 0.
#[derive(Clone, Copy)]
pub(crate) struct GoodRow {
    pub(crate) numbers: Device,
    ghost good: { Good numbers },
}

// The row of a device that is made.
pub(crate) fn row(device: u64) -> Result<GoodRow, Refused>
    ensures { MatchResult result (λ r. (made device ≡ true) × (r.numbers ≡ device_of device)) (λ _. made device ≡ false) }
{
    if device > 2 {
        return Err(Refused::Undefined);
    }
    Ok(GoodRow {
        numbers: DEVICES[device as usize],
    })
}
