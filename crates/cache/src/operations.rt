// Step 20: a lent list of operations, each in turn as Dirty or Alloc on the cache left by those before. One function walks over the
// slice, `operations`; it has no condition but the loop's and reads no field, and asks the others.
ghost use Rattle.std.specs.Prelude.{◌≡◌};
ghost use Rattle.blockcache.specs.Operations.{cache_operations, operation_answer, operation_call, operation_next};
ghost use Rattle.blockcache.specs.Step.{outcome, settled_outcome};
ghost use Rattle.blockcache.specs.Walk.{advanced, begun, finished, limit};
ghost use Rattle.sectortype.specs.Form.{zero_node};

use crate::Cache;
use crate::answers::number;
use crate::form::settings_form;
use crate::judged::Judged;
use blockcache::{CacheState, Call, Operation, OperationsOutcome, Refusal, Settings, VersionOp};
use blockdisk::DiskOp;

// The step of a list.
const TRANSACTION: u64 = 20;

// How many operations are taken: none of a list that is longer than 32.
fn limit(length: usize) -> usize
    ensures { result ≡ limit length }
{
    if 32 < length { 0 } else { length }
}

fn settings_of(c: Cache) -> Settings
    ensures { result ≡ c.settings }
{
    c.settings
}

// The call that an operation would be by itself.
fn operation_call(o: Operation) -> Call
    ensures { result ≡ operation_call o }
{
    Call {
        reference: o.reference,
        vop: VersionOp::AdvanceOp(false),
        dop: DiskOp::NoDiskOp,
        node: o.node,
        table: sector::empty_table(),
    }
}

// One operation more, at its place; after a refusal nothing moves.
#[tactic(auto, unfolding(blockcache::specs::Walk::advanced))]
fn advanced(g: Settings, w: OperationsOutcome, o: Operation, place: usize) -> OperationsOutcome
    ensures { result ≡ advanced g w o place }
{
    if w.answer != 0 {
        return w;
    }
    let c = Cache {
        settings: g,
        state: w.cache,
    };
    match c.operation(o) {
        Ok(cache) => OperationsOutcome {
            answer: 0,
            place: 0,
            cache,
        },
        Err(refusal) => OperationsOutcome {
            answer: number(refusal),
            place: place as u64,
            cache: w.cache,
        },
    }
}

impl Cache {
    // Dirty or Alloc, past V, D and phase; refused where the operation is outside the limits.
    fn operation(self, o: Operation) -> Result<CacheState, Refusal>
        ensures { settled_outcome result self.state
            ≡ outcome (operation_answer self.settings self.state o) zero_node (operation_next self.state o) self.state }
    {
        let formed = sector::node_form(o.node);
        if !((o.reference <= 63) & formed) {
            return Err(Refusal::Limits);
        }
        let q = Judged {
            call: operation_call(o),
        };
        if o.alloc {
            return self.alloc(q);
        }
        self.dirty(q)
    }

    // Before the first operation: what step 20 refuses, then a list that is too long.
    fn begun(self, q: Call, length: usize) -> OperationsOutcome
        ensures { result ≡ begun self.settings self.state q length }
    {
        let cache = self.state;
        let refused = self.step(TRANSACTION, q).answer;
        let long = (refused == 0) & (32 < length);
        let answer = if long {
            number(Refusal::TooLong)
        } else {
            refused
        };
        OperationsOutcome {
            answer,
            place: 0,
            cache,
        }
    }

    // After the last: the marks of what it leaves, or after a refusal the cache as it was. Marks are made on a device that is made; on
    // another the walk was refused before its first operation.
    fn finished(self, w: OperationsOutcome) -> OperationsOutcome
        ensures { result ≡ finished self.settings self.state w }
    {
        if !(settings_form(self.settings) & (w.answer == 0)) {
            return OperationsOutcome {
                answer: w.answer,
                place: w.place,
                cache: self.state,
            };
        }
        let mut cache = w.cache;
        cache.blocks.marks = bitmap::marks_of(
            self.settings.device,
            cache.tables,
            cache.outstanding.writes,
        );
        OperationsOutcome {
            answer: 0,
            place: 0,
            cache,
        }
    }

    // The list, an operation at a time.
    pub fn operations(self, q: Call, list: &[Operation]) -> OperationsOutcome
        ensures { result ≡ cache_operations self.settings self.state q list.now }
    {
        let length = list.len();
        let n = limit(length);
        let g = settings_of(self);
        let mut w = self.begun(q, length);
        for (i, o) in list[..n].iter().enumerate() {
            w = advanced(g, w, *o, i);
        }
        self.finished(w)
    }
}
