// What kind of line it is.
ghost use Rattle.std.specs.Prelude.{◌≡◌};
ghost use Rattle.words.specs.Cut.{rest_of};
ghost use Rattle.words.specs.Parsed.{both_of, rule_word, format_of, place_of, alone_of, line_of, first_of};

use crate::contents::contents_word;
use crate::digits::{number, number_word, place_word};
use crate::text::{Keys, after, find, front, same, word, words_fit};
use disklayout::Location;
use sectortype::Contents;

// A line is at most this long, without its line feed.
pub const MOST: usize = 4096;

#[derive(Clone, Copy)]
pub enum Line {
    // Empty, or a comment.
    Skip,
    // `format`, with the device, the root's contents and the freeze rule.
    Format(u64, Contents, u64),
    // `step`, with its number; its words are yet to be read.
    Step(u64),
    Audit,
    Show,
    Choose,
    // `place`, with the device and the location that is asked about.
    Place(u64, Location),
}

// What follows a line's first word.
pub fn rest(s: &[u8]) -> &[u8]
    ensures { result.now ≡ rest_of s.now }
{
    let at = find(s, b' ');
    after(s, at)
}

// Whether the words of a rest are the line's, with these two keys among them.
#[tactic(auto, unfolding(crate::specs::Parsed::both_of))]
fn words_both<'a, 'b>(rest: &'a [u8], keys: Keys, one: &'b [u8], two: &'b [u8]) -> bool
    ensures { result ≡ both_of rest.now keys one.now two.now }
{
    words_fit(rest, keys) && !word(rest, one).is_empty() && !word(rest, two).is_empty()
}

// The freeze rule that a `format` names: any number, which the store judges; 1 where there is no such word.
#[tactic(auto, unfolding(crate::specs::Parsed::rule_word))]
fn rule_word(rest: &[u8]) -> Option<u64>
    ensures { result ≡ rule_word rest.now }
{
    if word(rest, b"rule=").is_empty() {
        return Some(1);
    }
    number_word(rest, b"rule=")
}

// A `format` line, from what follows its first word: the device and the contents, perhaps a rule, in any order.
#[tactic(auto, unfolding(crate::specs::Parsed::format_of))]
fn format_of(rest: &[u8]) -> Option<Line>
    ensures { result ≡ format_of rest.now }
{
    if !words_both(rest, Keys::Format, b"device=", b"contents=") {
        return None;
    }
    let device = number_word(rest, b"device=")?;
    let contents = contents_word(rest, b"contents=")?;
    let rule = rule_word(rest)?;
    Some(Line::Format(device, contents, rule))
}

// A `place` line, from its first word and what follows it: both words, in either order.
#[tactic(auto, unfolding(crate::specs::Parsed::place_of))]
fn place_of<'a>(first: &'a [u8], rest: &'a [u8]) -> Option<Line>
    ensures { result ≡ place_of first.now rest.now }
{
    if !same(first, b"place") || !words_both(rest, Keys::Place, b"device=", b"loc=") {
        return None;
    }
    let device = number_word(rest, b"device=")?;
    let loc = place_word(rest, b"loc=")?;
    Some(Line::Place(device, loc))
}

// A line whose first word stands alone: `audit`, `show` and `choose`.
#[tactic(auto, unfolding(crate::specs::Parsed::alone_of))]
fn alone_of(first: &[u8]) -> Option<Line>
    ensures { result ≡ alone_of first.now }
{
    if same(first, b"audit") {
        return Some(Line::Audit);
    }
    if same(first, b"show") {
        return Some(Line::Show);
    }
    if same(first, b"choose") {
        return Some(Line::Choose);
    }
    None
}

// A line by its first word, what follows that, and whether anything does.
#[tactic(auto, unfolding(crate::specs::Parsed::first_of))]
fn first_of<'a>(first: &'a [u8], rest: &'a [u8], more: bool) -> Option<Line>
    ensures { result ≡ first_of first.now rest.now more }
{
    if same(first, b"format") {
        return format_of(rest);
    }
    if first.starts_with(b"step=") {
        return Some(Line::Step(number(after(first, 5))?));
    }
    if more {
        return place_of(first, rest);
    }
    alone_of(first)
}

// What kind of line s is.
#[tactic(auto, unfolding(crate::specs::Parsed::line_of))]
pub fn line_of(s: &[u8]) -> Option<Line>
    ensures { result ≡ line_of s.now }
{
    if s.len() > MOST {
        return None;
    }
    if s.is_empty() || s[0] == b'#' {
        return Some(Line::Skip);
    }
    let at = find(s, b' ');
    first_of(front(s, at), after(s, at), at < s.len())
}
