// The disk: each call, and a crash, is proved to answer and to leave what `blockdisk` defines.
#![tactic(auto)]

mod crashing;
mod form;
mod ops;
mod read;

use blockdisk::DiskState;
pub use crashing::empty_queues;
pub use form::is_rule;
pub use read::{absent, empty_records, node_at, node_in, present, table_at};

// A disk: which device it is, and its state. A step takes it by value and returns the answer's number and the state; the device stays.
#[derive(Clone, Copy)]
pub struct Disk {
    pub device: u64,
    pub state: DiskState,
}
