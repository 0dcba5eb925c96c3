// The bitmap of the node blocks (document 02, Q-1): the marks that belong to tables and outstanding writes, and what the chooser asks of them. Two words
// hold a bit for each of the 128 blocks; trailing zeros find a block and ones count them, so that no question walks over the blocks.
#![tactic(auto)]

mod marking;
mod nextfit;

pub use marking::{marks_of, same_marks};
pub use nextfit::{free_count, next_free};
