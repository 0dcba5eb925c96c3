// Cache and disk joined: formatting, the joined call, a list of operations, the chooser's call, names and pictures, what a crash has
// lost and what is shown, as `blocksystem` defines them.
#![tactic(auto)]

mod choosing;
mod formatting;
mod joined;
mod pictures;
mod reading;
mod screen;
mod start;
mod transaction;

ghost use Rattle.std.specs.Prelude.{◌≡◌};
ghost use Rattle.blocksystem.specs.Joined.{settings_of};

use blockcache::{CacheState, Settings};
use blockdisk::DiskState;
use cache::Cache;
use disk::Disk;

// The store: cache and disk on one device; its freeze rule is the one that the disk carries. Its methods are the calls on both; each call
// gets the cache and the disk that the last one handed back.
#[derive(Clone, Copy)]
pub struct Store {
    pub device: u64,
    pub cache: CacheState,
    pub disk: DiskState,
}

impl Store {
    // The cache, with the device and the rule that the disk carries. Both are inlined: else what they make would be copied once more.
    #[inline(always)]
    fn in_cache(&self) -> Cache
        ensures { result ≡ record { settings = settings_of self.now.device self.now.disk; state = self.now.cache } }
    {
        Cache {
            settings: Settings {
                device: self.device,
                rule: self.disk.rule,
            },
            state: self.cache,
        }
    }

    #[inline(always)]
    fn on_disk(&self) -> Disk
        ensures { result ≡ record { device = self.now.device; state = self.now.disk } }
    {
        Disk {
            device: self.device,
            state: self.disk,
        }
    }
}

pub use formatting::format_pictures;
pub use joined::{CRASH, READ, TRANSACTION};
pub use pictures::pictures_after;
pub use screen::is_pictured;
pub use transaction::{pictures_after_operations, pictures_after_operations_of};
