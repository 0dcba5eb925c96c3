// Reading through a named place, and the count of references lost, added and altered.
ghost use Rattle.std.specs.Prelude.{◌≡◌};
ghost use Rattle.blocksystem.specs.Audit.{through_table, is_lost, is_added, is_altered, tally, counted};

use crate::Store;
use blockdisk::{Record, Records};
use blocksystem::{Counts, Named};
use sectortype::{Entry, Node, Slot, Table};

// A reference's node on the disk, through the table that was read; nothing where there is none. All are lent: a count asks 64 times.
fn through_table(device: u64, r: &Records, x: &Record<Table>, e: &Entry) -> Record<Node>
    ensures { result ≡ through_table device r.now x.now e.now }
{
    if x.present & e.located {
        return disk::node_in(device, r, e.loc);
    }
    disk::absent(sector::zero_node())
}

#[tactic(auto, unfolding(blocksystem::specs::Audit::tally))]
fn lost(x: Record<Node>, s: Slot) -> u64
    ensures { result ≡ tally (is_lost x s) }
{
    u64::from(s.present & !x.present)
}

#[tactic(auto, unfolding(blocksystem::specs::Audit::tally))]
fn added(x: Record<Node>, s: Slot) -> u64
    ensures { result ≡ tally (is_added x s) }
{
    u64::from(x.present & !s.present)
}

#[tactic(auto, unfolding(blocksystem::specs::Audit::tally))]
fn altered(x: Record<Node>, s: Slot) -> u64
    ensures { result ≡ tally (is_altered x s) }
{
    u64::from(x.present & s.present & !sector::same_node(x.held, s.node))
}

impl Store {
    // The counts for one named place.
    pub fn audit(self, m: Named) -> Counts
        ensures { result ≡ counted self.device self.disk.records m }
    {
        let records = self.disk.records;
        let through = disk::table_at(self.device, records, m.place);
        let mut a: u64 = 0;
        let mut b: u64 = 0;
        let mut c: u64 = 0;
        for (i, e) in through.held.entries.iter().enumerate() {
            let slot = m.picture.slots[i];
            let y = through_table(self.device, &records, &through, e);
            a += lost(y, slot);
            b += added(y, slot);
            c += altered(y, slot);
        }
        Counts {
            lost: a,
            added: b,
            altered: c,
        }
    }
}
