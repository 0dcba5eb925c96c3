// The chooser: a free block for the next write, the first after the one given last, so that wear is spread.
ghost use Rattle.std.specs.Prelude.{◌≡◌};
ghost use Rattle.blockcache.specs.Chooser.{chooser, refused_choice, settled_choice};

use crate::Cache;
use crate::answers::number;
use crate::form::{cache_form, settings_form};
use blockcache::{CacheState, Choice, Phase, Refusal};

// Zeros, and the cache as it was.
pub fn refused_choice(c: CacheState, n: u64) -> Choice
    ensures { result ≡ refused_choice n c }
{
    Choice {
        answer: n,
        block: 0,
        addr: 0,
        free: 0,
        cache: c,
    }
}

impl Cache {
    fn free_block(self) -> Result<Choice, Refusal>
        ensures { settled_choice result self.state ≡ chooser self.settings self.state }
    {
        let mut cache = self.state;
        if !settings_form(self.settings) {
            return Err(Refusal::Limits);
        }
        if !cache_form(self.settings.device, cache) {
            return Err(Refusal::Limits);
        }
        if cache.phase != Phase::Ready {
            return Err(Refusal::Phase);
        }
        let marks = cache.blocks.marks;
        let Some(block) = bitmap::next_free(marks, cache.blocks.last) else {
            return Err(Refusal::NoBlock);
        };
        let addr = layout::node_block_addr(self.settings.device, block).unwrap_or(0);
        cache.blocks.last = block;
        Ok(Choice {
            answer: 0,
            block,
            addr,
            free: bitmap::free_count(marks),
            cache,
        })
    }

    // The block's number, its address and how many are free now. Giving a block marks nothing; the next call gives a block after it.
    pub fn choose(self) -> Choice
        ensures { result ≡ chooser self.settings self.state }
    {
        match self.free_block() {
            Ok(choice) => choice,
            Err(refusal) => refused_choice(self.state, number(refusal)),
        }
    }
}
