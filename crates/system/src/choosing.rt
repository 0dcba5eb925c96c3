// The chooser's call on cache and disk.
ghost use Rattle.std.specs.Prelude.{◌≡◌};
ghost use Rattle.blocksystem.specs.Choosing.{joined_choice};

use crate::Store;
use blockcache::Choice;

impl Store {
    // A free block for the next write. The state of a joined call is cache and disk, so number 1 is given for a disk out of its written
    // form too; past that the cache is asked, under the rule that the disk carries. The disk stays as it is.
    #[tactic(auto, using(blocksystem::proofs::Choosing::choice_misformed, blocksystem::proofs::Choosing::choice_formed))]
    pub fn choose(self) -> Choice
        ensures { result ≡ joined_choice self.device self.cache self.disk }
    {
        if !self.on_disk().well_formed() {
            return cache::refused_choice(self.cache, 1);
        }
        self.in_cache().choose()
    }
}
