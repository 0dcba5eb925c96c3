// Document 02's small tables (Q-13): the complete tables on references 0 to 2, on which the loader is tried before a release. Here are the
// types. What the calls answer is in specs/; that each of these tables has one number, and is accepted by the loader, is proved in proofs/.
#![tactic(auto)]

// The four sets that determine a small table: its allocated references, and the lists of references 0, 1 and 2. Each is a set of references
// 0 to 2, as a number with bit r for reference r.
#[derive(Clone, Copy)]
pub struct Sets {
    pub allocated: u64,
    pub list0: u64,
    pub list1: u64,
    pub list2: u64,
}
