// Contents, written out.
ghost use Rattle.std.specs.Prelude.{◌≡◌};
ghost use Rattle.words.specs.ContentsText.{low_alone, contents_of, contents_word};
ghost use Rattle.words.specs.Numbers.{number_of};

use crate::digits::{number, sides};
use crate::text::{after, word};
use sectortype::Contents;

// `LOW` alone: high 0.
fn low_alone(w: &[u8]) -> Option<Contents>
    ensures { result ≡ low_alone (number_of w.now) }
{
    let low = number(w)?;
    Some(sector::carried_contents(low))
}

// `HIGH.LOW`, else `LOW` alone: a text with a full stop in it is no number.
#[tactic(auto, unfolding(crate::specs::ContentsText::contents_of))]
pub fn contents_of(w: &[u8]) -> Option<Contents>
    ensures { result ≡ contents_of w.now }
{
    let Some((high, low)) = sides(w, b'.') else {
        return low_alone(w);
    };
    Some(Contents { high, low })
}

// The contents that the word with this key has. (No line may leave the word out, so that it has no value if absent.)
pub fn contents_word(rest: &[u8], key: &[u8]) -> Option<Contents>
    ensures { result ≡ contents_word rest.now key.now }
{
    let w = word(rest, key);
    contents_of(after(w, key.len()))
}
