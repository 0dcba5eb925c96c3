// A map keyed by an id, as document 01 keeps one: at most 16 outstanding requests by ascending id, unused places zeros.
// All six queues of disk and cache have this one shape, so what is proved here is proved once.
#![tactic(auto)]

ghost use Rattle.std.specs.Prelude.{take, eqb, [], ◌∷◌, ◌++◌, ◌≡◌, ◌<◌, ◌≤◌};
ghost use Rattle.std.specs.List.{position};
ghost use Rattle.base.specs.Lists.{opened, closed};
ghost use Rattle.queue.specs.Queue.{zero_request, request_form, requests_form, has_of, has_addr, place_of, entry_of, insert_of};
ghost use Rattle.queue.specs.Queue.{remove_of, empty_requests};

use disklayout::Location;

// An outstanding request: its id, the reference that it is for, its place. A queue that has no use for one of these keeps it zero.
#[derive(Clone, Copy, PartialEq, Eq)]
pub struct Request {
    pub id: u64,
    pub reference: u8,
    pub loc: Location,
}

// The requests, a count beside an array: document 01's form for a map, and no heap.
#[derive(Clone, Copy, PartialEq, Eq)]
pub struct Requests {
    pub count: u8,
    pub at: [Request; 16],
}

// A place that is not in use.
fn zero_request() -> Request
    ensures { result ≡ zero_request }
{
    Request {
        id: 0,
        reference: 0,
        loc: Location { addr: 0, len: 0 },
    }
}

// The queue with nothing outstanding.
pub fn empty() -> Requests
    ensures { result ≡ empty_requests }
{
    Requests {
        count: 0,
        at: [zero_request(); 16],
    }
}

// Place k of a queue of `count`, after the request `before` where k is not the first.
fn request_form(count: u8, k: usize, before: Request, w: Request) -> bool
    ensures { result ≡ request_form count k before w }
{
    let used = k < usize::from(count);
    let zero = w == zero_request();
    let first = k == 0;
    (!used & zero) | (used & true & (first | (before.id < w.id)))
}

// Whether the queue is in its one written form.
pub fn form(q: Requests) -> bool
    ensures { result ≡ requests_form q }
{
    let mut good = true;
    let mut before = q.at[0];
    for (i, w) in q.at.iter().enumerate() {
        good = good & request_form(q.count, i, before, *w);
        before = *w;
    }
    (q.count <= 16) & good
}

// Whether a request has this id.
pub fn has(q: Requests, id: u64) -> bool
    ensures { result ≡ has_of q id }
{
    q.at.iter().take(usize::from(q.count)).any(|w| w.id == id)
}

// Whether a request has this address.
pub fn has_addr(q: Requests, addr: u64) -> bool
    ensures { result ≡ has_addr q addr }
{
    q.at.iter()
        .take(usize::from(q.count))
        .any(|w| w.loc.addr == addr)
}

// The place of the request with this id.
fn find(q: Requests, id: u64) -> Option<usize>
    ensures { result ≡ position (λ w. eqb w.id id) (take q.count q.at) }
{
    q.at.iter()
        .take(usize::from(q.count))
        .position(|w| w.id == id)
}

// The request with this id, or zeros.
#[tactic(auto, using(crate::proofs::Scans::chain_found, crate::proofs::Scans::chain_no_entry), unfolding(crate::specs::Queue::entry_of))]
pub fn entry(q: Requests, id: u64) -> Request
    ensures { result ≡ entry_of q id }
{
    match find(q, id) {
        Some(p) => q.at[p],
        None => zero_request(),
    }
}

// The place at which a request with this id belongs: before the first with a larger one, or behind all. A count past 16 counts as 16.
fn place(q: Requests, id: u64) -> usize
    ensures { result ≡ place_of q id }
{
    let n = usize::from(q.count);
    q.at.iter()
        .take(n)
        .position(|w| id <= w.id)
        .unwrap_or(n.min(16))
}

// The places with w at p, those from p on one place further; what stood in the last goes.
#[tactic(auto, using(base::proofs::Shifted::opened_by_copy))]
fn opened(mut at: [Request; 16], p: usize, w: Request) -> [Request; 16]
    requires { p < 16 }
    ensures { result ≡ take 16 (opened at p w) }
{
    at.copy_within(p..15, p + 1);
    at[p] = w;
    at
}

// The queue with one request more; a full queue comes back as it is.
#[tactic(auto, using(crate::proofs::Scans::place_used), unfolding(crate::specs::Queue::insert_of, crate::specs::Queue::place_of))]
pub fn insert(q: Requests, w: Request) -> Requests
    ensures { result ≡ insert_of q w }
{
    if 16 <= q.count {
        return q;
    }
    let p = place(q, w.id);
    Requests {
        count: q.count + 1,
        at: opened(q.at, p, w),
    }
}

// The places without p, those behind it one place back; zeros stand in the last.
#[tactic(auto, using(base::proofs::Shifted::closed_by_copy))]
fn closed(mut at: [Request; 16], p: usize) -> [Request; 16]
    requires { p < 16 }
    ensures { result ≡ closed at p ++ (zero_request ∷ []) }
{
    at.copy_within(p + 1..16, p);
    at[15] = zero_request();
    at
}

// The queue without the request that has this id; a queue that has none comes back as it is.
#[tactic(auto, using(crate::proofs::Scans::chain_find), unfolding(crate::specs::Queue::remove_of, crate::specs::Queue::find_of))]
pub fn remove(q: Requests, id: u64) -> Requests
    ensures { result ≡ remove_of q id }
{
    let Some(p) = find(q, id) else {
        return q;
    };
    Requests {
        count: q.count - 1,
        at: closed(q.at, p),
    }
}
