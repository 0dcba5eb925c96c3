// Numbers and places.
ghost use Rattle.std.specs.Prelude.{IfSome, ◌≡◌, ◌≤◌};
ghost use Rattle.words.specs.Cut.{number_word, place_word};
ghost use Rattle.words.specs.Numbers.{digit_of, appended_of, number_of, small_of, sides_of, location_of};

use crate::text::{after, cut, word};
use disklayout::Location;

// What a digit is worth.
fn digit(b: u8) -> Option<u64>
    ensures { result ≡ digit_of b }
{
    if b.is_ascii_digit() {
        Some(u64::from(b - b'0'))
    } else {
        None
    }
}

// n with one digit more, where the number stays below 2 to the 64.
fn appended(n: u64, b: u8) -> Option<u64>
    ensures { result ≡ appended_of n b }
{
    let d = digit(b)?;
    n.checked_mul(10)?.checked_add(d)
}

// A number below 2 to the 64: decimal digits, at least one, without leading zeros.
pub fn number(w: &[u8]) -> Option<u64>
    ensures { result ≡ number_of w.now }
{
    if w.is_empty() {
        return None;
    }
    if w.len() > 1 && w[0] == b'0' {
        return None;
    }
    let mut n = 0;
    for b in w {
        n = appended(n, *b)?;
    }
    Some(n)
}

// A number that is at most `most`.
#[tactic(auto, unfolding(crate::specs::Numbers::small_of))]
pub fn small(w: &[u8], most: u64) -> Option<u64>
    ensures value { result ≡ small_of w.now most }
    ensures within { IfSome result (λ n. n ≤ most) }
{
    let n = number(w)?;
    if n > most { None } else { Some(n) }
}

// The numbers on the two sides of the first byte b.
#[tactic(auto, unfolding(crate::specs::Numbers::sides_of))]
pub(crate) fn sides(w: &[u8], b: u8) -> Option<(u64, u64)>
    ensures { result ≡ sides_of w.now b }
{
    let (left, right) = cut(w, b)?;
    Some((number(left)?, number(right)?))
}

// `ADDR+LEN`.
#[tactic(auto, unfolding(crate::specs::Numbers::location_of))]
pub fn location(w: &[u8]) -> Option<Location>
    ensures { result ≡ location_of w.now }
{
    let (addr, len) = sides(w, b'+')?;
    Some(Location { addr, len })
}

// The number that the word with this key has; 0 where there is no such word.
#[tactic(auto, unfolding(crate::specs::Cut::number_word))]
pub fn number_word(rest: &[u8], key: &[u8]) -> Option<u64>
    ensures { result ≡ number_word rest.now key.now }
{
    let w = word(rest, key);
    if w.is_empty() {
        return Some(0);
    }
    number(after(w, key.len()))
}

// The place that the word with this key has; zeros where there is no such word.
#[tactic(auto, unfolding(crate::specs::Cut::place_word))]
pub fn place_word(rest: &[u8], key: &[u8]) -> Option<Location>
    ensures { result ≡ place_word rest.now key.now }
{
    let w = word(rest, key);
    if w.is_empty() {
        return Some(Location { addr: 0, len: 0 });
    }
    location(after(w, key.len()))
}
