// What the chooser asks of the marks: the first free block after the one given last, going round, and how many are free.
ghost use Rattle.std.specs.Prelude.{not, ◌≡◌, ◌+◌, ◌≤◌};
ghost use Rattle.base.specs.Bits.{digit_at};
ghost use Rattle.base.specs.Scan.{count_below, first_from};
ghost use Rattle.bitmap.specs.Bitmap.{if_below, is_free_in, next_free};

use blockcache::Marks;

// The first clear bit of a word, from a place on.
fn first_clear(word: u64, from: u64) -> Option<u64>
    requires { from ≤ 64 }
    ensures { result ≡ if_below 64 (first_from (λ k. not (digit_at word k)) from 64) }
{
    if from >= 64 {
        return None;
    }
    let rest = !word >> from;
    if rest == 0 {
        return None;
    }
    Some(from + u64::from(rest.trailing_zeros()))
}

// The first free block of the high word, from a place of that word on.
fn first_high(m: Marks, from: u64) -> Option<u64>
    requires { from ≤ 64 }
    ensures { result ≡ if_below 128 (64 + first_from (λ k. not (digit_at m.high k)) from 64) }
{
    Some(64 + first_clear(m.high, from)?)
}

// The first free block, from a block on.
fn first_free(m: Marks, from: u64) -> Option<u64>
    requires { from ≤ 128 }
    ensures { result ≡ if_below 128 (first_from (is_free_in m) from 128) }
{
    if from >= 64 {
        return first_high(m, from - 64);
    }
    first_clear(m.low, from).or_else(|| first_high(m, 0))
}

// The first free block after the one given last, going round to block 0; none where none is free, or where there is no such last block.
pub fn next_free(m: Marks, last: u64) -> Option<u64>
    ensures { result ≡ if_below 128 (next_free m last) }
{
    if last > 127 {
        return None;
    }
    first_free(m, last + 1).or_else(|| first_free(m, 0))
}

pub fn free_count(m: Marks) -> u64
    ensures { result ≡ count_below (is_free_in m) 128 }
{
    let low = u64::from(m.low.count_ones());
    let high = u64::from(m.high.count_ones());
    128 - (low + high)
}
