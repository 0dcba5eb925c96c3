// The functions on the records of `sectortype`: written form, equality, graphs, well-formed tables, and changes by value.
#![tactic(auto)]

mod contents;
mod form;
mod graph;
mod same;
mod update;
mod wf;

pub use contents::{carried, carried_contents, zero_contents};
pub use form::{loc_zero, node_form, node_zero, nodes_form, table_form};
pub use graph::{distinct_addrs, graph_closed, has_succ, holds_addr, points_within, same_set};
pub use same::{same_node, same_succs, same_table};
pub use update::{
    empty_nodes, empty_table, leaf_node, with_entry, with_slot, zero_entry, zero_loc, zero_node,
    zero_slot, zero_succs,
};
pub use wf::{locs_complete, wf_complete_indirection_table, wf_indirection_table};
