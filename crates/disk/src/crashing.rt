// A crash: the records offered afterwards must be possible ones; nothing is outstanding then.
ghost use Rattle.std.specs.Prelude.{◌≡◌};
ghost use Rattle.blockdisk.specs.Crash.{kept, kept_table, kept_node, tables_kept, nodes_kept, records_kept};
ghost use Rattle.blockdisk.specs.Crash.{empty_queues, disk_crash};

use crate::Disk;
use crate::form::records_ok;
use blockdisk::{DiskOutcome, Queues, Record, Records};
use queue::Requests;
use sectortype::{Node, Table};

// A stored record is offered unchanged, of which it is told whether what it holds is the same, unless a write to its area or block is
// outstanding. A stored record is at the address of that.
fn kept<T>(q: Requests, a: &Record<T>, b: &Record<T>, same: bool) -> bool
    ensures { result ≡ kept q a.now b.now same }
{
    !a.present | queue::has_addr(q, a.loc.addr) | (b.present & (a.loc == b.loc) & same)
}

fn kept_table(q: Requests, a: &Record<Table>, b: &Record<Table>) -> bool
    ensures { result ≡ kept_table q a.now b.now }
{
    kept(q, a, b, sector::same_table(a.held, b.held))
}

fn kept_node(q: Requests, a: &Record<Node>, b: &Record<Node>) -> bool
    ensures { result ≡ kept_node q a.now b.now }
{
    kept(q, a, b, sector::same_node(a.held, b.held))
}

#[tactic(auto, unfolding(blockdisk::specs::Crash::tables_kept))]
fn tables_kept(q: Requests, old: [Record<Table>; 2], new: [Record<Table>; 2]) -> bool
    ensures { result ≡ tables_kept q old new }
{
    kept_table(q, &old[0], &new[0]) & kept_table(q, &old[1], &new[1])
}

fn nodes_kept(q: Requests, old: [Record<Node>; 128], new: [Record<Node>; 128]) -> bool
    ensures { result ≡ nodes_kept q old new }
{
    old.iter().zip(new.iter()).all(|(a, b)| kept_node(q, a, b))
}

#[tactic(auto, unfolding(blockdisk::specs::Crash::records_kept))]
fn records_kept(qs: Queues, old: Records, new: Records) -> bool
    ensures { result ≡ records_kept qs old new }
{
    tables_kept(qs.tablewrites, old.tables, new.tables)
        & nodes_kept(qs.nodewrites, old.nodes, new.nodes)
}

pub fn empty_queues() -> Queues
    ensures { result ≡ empty_queues }
{
    Queues {
        tablereads: queue::empty(),
        nodereads: queue::empty(),
        tablewrites: queue::empty(),
        nodewrites: queue::empty(),
    }
}

impl Disk {
    // A crash that leaves the records offered: 1 if the disk, or a node or table of these, is not in its written form; 19 if they
    // are not possible. An offered record's place is judged by 19 alone. The rule stays: what is offered does not carry one.
    pub fn crash(self, offered: Records) -> DiskOutcome
        ensures { result ≡ disk_crash self.device self.state offered }
    {
        let mut s = self.state;
        let old = s.records;
        let queues = s.queues;
        let form = self.well_formed();
        let c = records_ok(self.device, offered);
        let good = form & c.form;
        if !good {
            return DiskOutcome { answer: 1, disk: s };
        }
        let kept = records_kept(queues, old, offered);
        let possible = c.placed & kept;
        if !possible {
            return DiskOutcome {
                answer: 19,
                disk: s,
            };
        }
        let none = empty_queues();
        s.records = offered;
        s.queues = none;
        DiskOutcome { answer: 0, disk: s }
    }
}
