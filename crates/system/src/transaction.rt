// Step 20 on cache and disk: a lent list of operations, and what it does to the pictures. `operations` passes the slice on to the cache;
// `operations_of` is for programs, which make the list as an array and say how many of it are meant.
ghost use Rattle.std.specs.Prelude.{◌≡◌, take};
ghost use Rattle.blockcache.specs.Operations.{operation_call, operation_number};
ghost use Rattle.blocksystem.specs.Names.{pictures_after};
ghost use Rattle.blocksystem.specs.Operations.{joined_operations, joined_with, operations_pictures};

use crate::Store;
use crate::pictures::set_node;
use blockcache::{Call, Operation, OperationsOutcome};
use blockdisk::{DiskCall, DiskOp};
use blocksystem::{JoinedOperationsOutcome, Pictures};

// What the cache gives, joined with the disk, which is asked with no operation.
#[tactic(auto, unfolding(blocksystem::specs::Operations::joined_with))]
fn join_operations(s: Store, q: Call, o: OperationsOutcome) -> JoinedOperationsOutcome
    ensures { result ≡ joined_with s.device q o s.cache s.disk }
{
    let x = s.on_disk().next(DiskCall {
        op: DiskOp::NoDiskOp,
        node: q.node,
        table: q.table,
    });
    if x.answer != 0 {
        return JoinedOperationsOutcome {
            answer: x.answer,
            place: 0,
            cache: s.cache,
            disk: s.disk,
        };
    }
    JoinedOperationsOutcome {
        answer: o.answer,
        place: o.place,
        cache: o.cache,
        disk: x.disk,
    }
}

impl Store {
    #[tactic(auto, unfolding(blocksystem::specs::Operations::joined_operations))]
    pub fn operations(self, q: Call, list: &[Operation]) -> JoinedOperationsOutcome
        ensures { result ≡ joined_operations self.device q list.now self.cache self.disk }
    {
        join_operations(self, q, self.in_cache().operations(q, list))
    }

    // The first n operations of an array, or all 40 where n is more. A list has at most 32, so one that is too long can be lent too. (An array
    // and a count: a program may name a count that no slice of the array has.)
    pub fn operations_of(self, q: Call, list: [Operation; 40], n: usize) -> JoinedOperationsOutcome
        ensures { result ≡ joined_operations self.device q (take n list) self.cache self.disk }
    {
        self.operations(q, &list[..n.min(40)])
    }
}

// One operation's node in the working picture.
fn pictured(t: Pictures, o: Operation) -> Pictures
    ensures { result ≡ pictures_after (operation_number o) (operation_call o) t }
{
    set_node(t, o.reference as usize, o.node)
}

// Names and pictures after an accepted list: in list order.
pub fn pictures_after_operations(t: Pictures, list: &[Operation]) -> Pictures
    ensures { result ≡ operations_pictures list.now t }
{
    let mut after = t;
    for o in list {
        after = pictured(after, *o);
    }
    after
}

// The same of the first n operations of an array, or of all 40 where n is more, as `operations_of` takes them.
pub fn pictures_after_operations_of(t: Pictures, list: [Operation; 40], n: usize) -> Pictures
    ensures { result ≡ operations_pictures (take n list) t }
{
    pictures_after_operations(t, &list[..n.min(40)])
}
