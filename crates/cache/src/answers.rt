// What the steps ask and hand back: the awaited table request, a refusal's number, the outcome.
ghost use Rattle.std.specs.Prelude.{◌≡◌};
ghost use Rattle.blockcache.specs.Form.{ready_phase};
ghost use Rattle.blockcache.specs.Rows.{awaits_table};
ghost use Rattle.blockcache.specs.Step.{answered, read_outcome, refusal_number, settled_outcome};

use blockcache::{Awaited, CacheOutcome, CacheState, Phase, Refusal};
use sectortype::Node;

// No table request is waited for.
pub(crate) const NOT_WAITING: Awaited = Awaited {
    waiting: false,
    id: 0,
};

pub fn is_ready(phase: Phase) -> bool
    ensures { result ≡ ready_phase phase }
{
    phase == Phase::Ready
}

// Whether the awaited table request has this id: in Loading a read, in Ready a write.
pub(crate) fn awaits_table(a: Awaited, id: u64) -> bool
    ensures { result ≡ awaits_table a id }
{
    a.waiting & (a.id == id)
}

// The number of documents 01 and 02.
pub(crate) fn number(refusal: Refusal) -> u64
    ensures { result ≡ refusal_number refusal }
{
    match refusal {
        Refusal::Limits => 1,
        Refusal::Version => 2,
        Refusal::Disk => 3,
        Refusal::Phase => 4,
        Refusal::Id => 5,
        Refusal::Place => 6,
        Refusal::Held => 7,
        Refusal::Reference => 8,
        Refusal::Contents => 9,
        Refusal::Outstanding => 10,
        Refusal::Frozen => 11,
        Refusal::Named => 12,
        Refusal::Successor => 13,
        Refusal::Full => 14,
        Refusal::NoBlock => 21,
        Refusal::Awaited => 22,
        Refusal::TooLong => 24,
        Refusal::Rule => 25,
    }
}

// The refusal's number, no node, and the cache as it was.
pub(crate) fn refused(old: CacheState, refusal: Refusal) -> CacheOutcome
    ensures { result ≡ answered (refusal_number refusal) old }
{
    CacheOutcome {
        answer: number(refusal),
        node: sector::zero_node(),
        cache: old,
    }
}

// What a step gives, as the outcome of its call.
pub(crate) fn settled(next: Result<CacheState, Refusal>, old: CacheState) -> CacheOutcome
    ensures { result ≡ settled_outcome next old }
{
    match next {
        Ok(cache) => CacheOutcome {
            answer: 0,
            node: sector::zero_node(),
            cache,
        },
        Err(refusal) => refused(old, refusal),
    }
}

// What a read gives, as the outcome of its call: it leaves the cache as it is.
pub(crate) fn shown(read: Result<Node, Refusal>, cache: CacheState) -> CacheOutcome
    ensures { result ≡ read_outcome read cache }
{
    match read {
        Ok(node) => CacheOutcome {
            answer: 0,
            node,
            cache,
        },
        Err(refusal) => refused(cache, refusal),
    }
}
