// The operations that a line of step 20 has, a word `op=` each, in the line's order.
ghost use Rattle.std.specs.Prelude.{take, ◌≡◌};
ghost use Rattle.script.specs.Transactions.{zero_operation, kind_read_of, operation_read_of, with_operation, with_operation_word};
ghost use Rattle.script.specs.Transactions.{no_operations_yet, operation_list_of};

use blockcache::Operation;
use words::digits::number;
use words::lists::node;
use words::text::{after, cut, words};

// A line has at most this many.
pub const MOST: usize = 40;

// The operations so far, `count` of them.
#[derive(Clone, Copy)]
pub struct OperationList {
    pub count: usize,
    pub at: [Operation; MOST],
}

impl OperationList {
    // The operations themselves.
    pub fn operations(&self) -> &[Operation]
        ensures { result.now ≡ take self.now.count self.now.at }
    {
        self.at.get(..self.count).unwrap_or(&self.at)
    }
}

fn zero_operation() -> Operation
    ensures { result ≡ zero_operation }
{
    let node = sector::zero_node();
    Operation {
        alloc: false,
        reference: 0,
        node,
    }
}

// `REF/NODE`: REF any 64-bit number, as the store says which it knows; NODE written out.
#[tactic(auto, unfolding(crate::specs::Transactions::kind_read_of))]
fn kind_read(alloc: bool, w: &[u8]) -> Option<Operation>
    ensures { result ≡ kind_read_of alloc w.now }
{
    let (first, second) = cut(w, b'/')?;
    let reference = number(first)?;
    let node = node(second)?;
    Some(Operation {
        alloc,
        reference,
        node,
    })
}

// `dirty/REF/NODE` or `alloc/REF/NODE`.
#[tactic(auto, unfolding(crate::specs::Transactions::operation_read_of))]
fn operation_read(w: &[u8]) -> Option<Operation>
    ensures { result ≡ operation_read_of w.now }
{
    if w.starts_with(b"dirty/") {
        return kind_read(false, after(w, 6));
    }
    if w.starts_with(b"alloc/") {
        return kind_read(true, after(w, 6));
    }
    None
}

// With the operation that one word has behind its key, where it isn't the 41st.
#[tactic(auto, unfolding(crate::specs::Transactions::with_operation))]
fn with_operation(mut l: OperationList, w: &[u8]) -> Option<OperationList>
    ensures { result ≡ with_operation l w.now }
{
    let n = l.count;
    if MOST <= n {
        return None;
    }
    l.at[n] = operation_read(w)?;
    l.count = n + 1;
    Some(l)
}

// With what one word of a line has; only `op=` says anything of operations.
#[tactic(auto, unfolding(crate::specs::Transactions::with_operation_word))]
fn with_operation_word(l: OperationList, w: &[u8]) -> Option<OperationList>
    ensures { result ≡ with_operation_word l w.now }
{
    if w.starts_with(b"op=") {
        return with_operation(l, after(w, 3));
    }
    Some(l)
}

fn no_operations_yet() -> OperationList
    ensures { result ≡ no_operations_yet }
{
    let zero = zero_operation();
    OperationList {
        count: 0,
        at: [zero; MOST],
    }
}

// The operations of a line of step 20, from what follows its first word.
#[tactic(auto, unfolding(crate::specs::Transactions::operation_list_of))]
pub fn operation_list(rest: &[u8]) -> Option<OperationList>
    ensures { result ≡ operation_list_of rest.now }
{
    let mut l = no_operations_yet();
    for w in words(rest) {
        l = with_operation_word(l, w)?;
    }
    Some(l)
}
