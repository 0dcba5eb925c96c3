// The joined call: any step number, any arguments, on any cache and disk.
ghost use Rattle.std.specs.Prelude.{◌≡◌};
ghost use Rattle.base.specs.Refusals.{answer, lowest};
ghost use Rattle.blocksystem.specs.Joined.{disk_call, joined, start_rows};

use crate::Store;
use crate::start::wf_succs;
use blockcache::Call;
use blockdisk::{DiskCall, DiskOp, Records};
use blocksystem::Outcome;
use disk::Disk;

// The three steps that a joined call asks for by themselves: a start, a read, a crash.
const START: u64 = 10;

pub const READ: u64 = 17;

pub const CRASH: u64 = 18;

// Step 20, whose list of operations `operations` takes (transaction.rt); without a list it is a step as any other.
pub const TRANSACTION: u64 = 20;

// The lower of two answers, of which 0 is no refusal.
fn lower(a: u64, b: u64) -> u64
    ensures { result ≡ lowest a b }
{
    match (a, b) {
        (0, _) => b,
        (_, 0) => a,
        _ => a.min(b),
    }
}

// What the disk is asked: a read takes no disk operation.
fn disk_call(number: u64, q: Call) -> DiskCall
    ensures { result ≡ disk_call number q }
{
    DiskCall {
        op: if number == READ {
            DiskOp::NoDiskOp
        } else {
            q.dop
        },
        node: q.node,
        table: q.table,
    }
}

// A start asks for a whole graph at the place given.
#[tactic(auto, unfolding(base::specs::Refusals::answer))]
fn ask_start(q: Call, d: Disk) -> u64
    ensures { result ≡ answer (start_rows d.device 10 q d.state) }
{
    if wf_succs(d.device, d.state.records, cache::vop_loc(q.vop)) {
        return 0;
    }
    20
}

impl Store {
    // The joined call: it asks cache and disk, and if either refuses, neither moves. A crash is offered records, every other step asks the
    // disk for its operation, and a start alone asks for a graph. The three are asked here and not in a function between, as each call by
    // value copies the disk; for the same reason cache and disk are made once, and no part of them is read but from there. The cache is
    // asked under the rule that the disk carries.
    pub fn step(self, number: u64, q: Call, offered: Records) -> Outcome
        ensures { result ≡ joined self.device number q offered self.cache self.disk }
    {
        let d = self.on_disk();
        let c = self.in_cache();
        let a = c.step(number, q);
        let b = if number == CRASH {
            d.crash(offered)
        } else {
            d.next(disk_call(number, q))
        };
        let n20 = if number == START { ask_start(q, d) } else { 0 };
        let answer = lower(lower(a.answer, b.answer), n20);
        if answer != 0 {
            return Outcome {
                answer,
                node: sector::zero_node(),
                cache: c.state,
                disk: d.state,
            };
        }
        Outcome {
            answer: 0,
            node: a.node,
            cache: a.cache,
            disk: b.disk,
        }
    }
}
