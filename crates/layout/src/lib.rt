// Upstream's DiskLayout: where on a device the superblocks, the journal, the two table areas and the node blocks lie, and which
// places are valid. Each function and predicate of the module is a call that names its device, but for the five predicates of a place's
// kind, which are one call, `kind_of`. A call returns its result, or refuses: a device above 2, a failed upstream `requires`, a result past
// 64 bits. `is_kind` takes a refusal for no. Tests on values, a kind's number and the equality of places, name no device. No call has a
// `requires`.
#![tactic(auto)]

mod areas;
mod blocks;
mod calls;
mod journal;
mod kinds;
mod rows;
mod sums;

pub use blocks::{
    first_node_addr, node_block_addr, node_block_by_division, node_block_by_walk, node_blocks_end,
    node_place, node_place_length, table_area_of, table_place_in,
};
pub use calls::{
    indirection_table_max_length, indirection_table1_addr, indirection_table2_addr,
    journal_end_addr, journal_start_addr, location_sub, min_node_block_index, node_block_size,
    num_journal_blocks, other_indirection_table_addr, overlap, superblock1_location,
    superblock2_location, valid_indirection_table_addr, valid_node_addr,
};
pub use journal::{
    journal_back_location, journal_block_idx, journal_front_location, journal_point,
    journal_pos_add, journal_range_location, loc_contained_in_circular_journal_range,
    loc_disjoint_from_circular_journal_range,
};
pub use kinds::{
    NODE_KIND, TABLE_KIND, is_kind, is_kind_number, kind_number, kind_of, same_loc, valid_location,
    valid_superblock_location,
};
