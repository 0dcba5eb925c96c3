// Equality: contents and list equal, order and repeats counted. It is the `==` that the records derive, with the definition that it is.
ghost use Rattle.std.specs.Prelude.{◌≡◌};
ghost use Rattle.sectortype.specs.Same.{same_entry, same_node, same_succs, same_table};

use sectortype::{Entry, Node, Succs, Table};

#[tactic(auto, using(sectortype::proofs::Derived::succs_is_same))]
pub fn same_succs(s: Succs, t: Succs) -> bool
    ensures { result ≡ same_succs s t }
{
    s == t
}

#[tactic(auto, using(sectortype::proofs::Derived::node_is_same))]
pub fn same_node(a: Node, b: Node) -> bool
    ensures { result ≡ same_node a b }
{
    a == b
}

// A place of its own, since a table says nothing of the length of each entry's list, and an entry that is handed over does.
#[tactic(auto, using(sectortype::proofs::Derived::entry_is_same))]
fn same_entry(e: Entry, f: Entry) -> bool
    ensures { result ≡ same_entry e f }
{
    e == f
}

pub fn same_table(a: Table, b: Table) -> bool
    ensures { result ≡ same_table a b }
{
    let mut good = true;
    for (i, e) in a.entries.iter().enumerate() {
        good = good & same_entry(*e, b.entries[i]);
    }
    (a.count == b.count) & good
}
