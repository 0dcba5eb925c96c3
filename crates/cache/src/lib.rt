// The cache: the step, the list of operations and the chooser are proved to answer and to leave what `blockcache` defines. One function
// for each question of documents 01 and 02.
#![tactic(auto)]

mod answers;
mod choose;
mod entry;
mod form;
mod judged;
mod letgo;
mod load;
mod operations;
mod ops;
mod page;
mod scan;
mod work;
mod write;

use blockcache::{CacheState, Settings};

// A cache on its device, under its freeze rule: the state that `blockcache` defines, and what every call names beside it. Its methods are the
// steps, the list of operations and the chooser.
#[derive(Clone, Copy)]
pub struct Cache {
    pub settings: Settings,
    pub state: CacheState,
}

pub use answers::is_ready;
pub use choose::refused_choice;
pub use form::empty_cache;
pub use ops::vop_loc;
