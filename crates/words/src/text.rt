// Bytes, and the words of a line. What follows a line's first word is its rest: each word of it stands behind one space, so a
// rest is empty or begins with a space, and two spaces, or one at the end, make an empty word, which no key begins.

ghost use Rattle.std.specs.Iterator.{YieldsFirstRef, item_count};
ghost use Rattle.std.specs.Prelude.{length, take, drop, option_map, IfSome, ◌≡◌, ◌-◌, ◌≤◌, ◌<◌};
ghost use Rattle.words.specs.Bytes.{place_of, find_of, same_of, cut_of, key_of, rare_key_of, any_step, keys_of};
ghost use Rattle.words.specs.Cut.{left_of, pieces_of, words_of, word_of, fit_of};

// The lines that have words behind the first one. Which keys each may have is `allowed`'s to say.
#[derive(Clone, Copy)]
pub enum Keys {
    Step,
    Crash,
    Format,
    Place,
    Transaction,
}

// The keys of words. `Block` and `Op` may come more than once in a line.
#[derive(Clone, Copy, PartialEq, Eq)]
pub enum Key {
    Ref,
    V,
    Vloc,
    Uiop,
    D,
    Id,
    Loc,
    Node,
    Table,
    Table1,
    Table2,
    Block,
    Device,
    Contents,
    Rule,
    Op,
}

// The pieces of a text between the bytes `by`, from the front: what is left to be cut, and nothing once the last piece is taken. (The
// slice's own `split` holds a closure, whose type no function can name, so that none could hand out a line's words.)
#[derive(Clone, Copy)]
pub struct Pieces<'a> {
    left: Option<&'a [u8]>,
    by: u8,
}

// Where b first stands in s.
fn place(s: &[u8], b: u8) -> Option<usize>
    ensures value { result ≡ place_of s.now b }
    ensures within { IfSome result (λ i. i < length s.now) }
{
    s.iter().position(|x| *x == b)
}

// Where b first stands in s; the length of s where it does not. (A line's rest keeps the byte that it is cut at, so that the place is
// wanted, and one without such a byte is cut at its end.)
#[tactic(auto, using(crate::proofs::Cuts::find_place))]
pub fn find(s: &[u8], b: u8) -> usize
    ensures value { result ≡ find_of s.now b }
    ensures within { result ≤ length s.now }
{
    place(s, b).unwrap_or(s.len())
}

// Whether s and p are the same bytes. (A text such as b"show" is an array, which `==` takes beside a slice only where it is made one.)
#[tactic(auto, unfolding(crate::specs::Bytes::same_of))]
pub fn same(s: &[u8], p: &[u8]) -> bool
    ensures { result ≡ same_of s.now p.now }
{
    s == p
}

// The first n bytes of w, or all of it where it has fewer.
pub fn front(w: &[u8], n: usize) -> &[u8]
    ensures { result.now ≡ take n w.now }
{
    w.get(..n).unwrap_or(w)
}

// What stands behind the first n bytes of w: nothing where it has fewer.
pub fn after(w: &[u8], n: usize) -> &[u8]
    ensures result_value { result.now ≡ drop n w.now }
    ensures size { length result.now ≡ length w.now - n }
{
    w.get(n..).unwrap_or(&[])
}

// The two sides of the first b in s.
#[tactic(auto, unfolding(crate::specs::Bytes::cut_of))]
pub fn cut(s: &[u8], b: u8) -> Option<(&[u8], &[u8])>
    ensures { option_map (λ p. (p.0.now, p.1.now)) result ≡ cut_of s.now b }
{
    let at = place(s, b)?;
    Some((&s[..at], &s[at + 1..]))
}

#[tactic(auto, using(crate::proofs::Cuts::pieces_last, crate::proofs::Cuts::pieces_more))]
impl<'a> Iterator for Pieces<'a> {
    type Item = &'a [u8];

    ghost next_gives = { YieldsFirstRef left_of };

    ghost remaining = { item_count left_of };

    fn next(&mut self) -> Option<&'a [u8]> {
        let s = self.left?;
        let Some((piece, left)) = cut(s, self.by) else {
            self.left = None;
            return Some(s);
        };
        self.left = Some(left);
        Some(piece)
    }
}

// What stands between the bytes `by`: one piece more than there are of them.
pub(crate) fn cut_at(w: &[u8], by: u8) -> Pieces<'_>
    ensures { left_of result ≡ pieces_of by w.now }
{
    Pieces { left: Some(w), by }
}

// The words of a rest.
#[tactic(auto, unfolding(crate::specs::Cut::words_of))]
pub fn words(rest: &[u8]) -> Pieces<'_>
    ensures { left_of result ≡ words_of rest.now }
{
    Pieces {
        left: rest.get(1..),
        by: b' ',
    }
}

// The first word of a rest that begins with the key, `=` and all; empty where none does. (An empty word counts as none, so that an
// Option would say the same twice.)
#[tactic(auto, unfolding(crate::specs::Cut::word_of))]
pub fn word<'a, 'b>(rest: &'a [u8], key: &'b [u8]) -> &'a [u8]
    ensures { result.now ≡ word_of rest.now key.now }
{
    for w in words(rest) {
        if w.starts_with(key) {
            return w;
        }
    }
    &[]
}

// A word's key.
#[tactic(auto, unfolding(crate::specs::Bytes::key_of))]
pub fn key_of(w: &[u8]) -> Option<Key>
    ensures { result ≡ key_of w.now }
{
    if w.starts_with(b"ref=") {
        return Some(Key::Ref);
    }
    if w.starts_with(b"v=") {
        return Some(Key::V);
    }
    if w.starts_with(b"vloc=") {
        return Some(Key::Vloc);
    }
    if w.starts_with(b"uiop=") {
        return Some(Key::Uiop);
    }
    if w.starts_with(b"d=") {
        return Some(Key::D);
    }
    if w.starts_with(b"id=") {
        return Some(Key::Id);
    }
    if w.starts_with(b"loc=") {
        return Some(Key::Loc);
    }
    if w.starts_with(b"node=") {
        return Some(Key::Node);
    }
    if w.starts_with(b"table=") {
        return Some(Key::Table);
    }
    rare_key_of(w)
}

// The same for the keys that stand on a crash, on `format`, on `place` and on step 20 alone.
#[tactic(auto, unfolding(crate::specs::Bytes::rare_key_of))]
fn rare_key_of(w: &[u8]) -> Option<Key>
    ensures { result ≡ rare_key_of w.now }
{
    if w.starts_with(b"table1=") {
        return Some(Key::Table1);
    }
    if w.starts_with(b"table2=") {
        return Some(Key::Table2);
    }
    if w.starts_with(b"block=") {
        return Some(Key::Block);
    }
    if w.starts_with(b"device=") {
        return Some(Key::Device);
    }
    if w.starts_with(b"contents=") {
        return Some(Key::Contents);
    }
    if w.starts_with(b"rule=") {
        return Some(Key::Rule);
    }
    if w.starts_with(b"op=") {
        return Some(Key::Op);
    }
    None
}

// Whether any step's line may have this key.
fn any_step(k: Key) -> bool
    ensures { result ≡ any_step k }
{
    matches!(
        k,
        Key::Ref
            | Key::V
            | Key::Vloc
            | Key::Uiop
            | Key::D
            | Key::Id
            | Key::Loc
            | Key::Node
            | Key::Table
    )
}

// Whether a line may have this key.
fn allowed(keys: Keys, k: Key) -> bool
    ensures { result ≡ keys_of keys k }
{
    match keys {
        Keys::Step => any_step(k),
        Keys::Crash => any_step(k) || matches!(k, Key::Table1 | Key::Table2 | Key::Block),
        Keys::Format => matches!(k, Key::Device | Key::Contents | Key::Rule),
        Keys::Place => matches!(k, Key::Loc | Key::Device),
        Keys::Transaction => any_step(k) || matches!(k, Key::Op),
    }
}

// Whether each word of a rest has a key that the line may have, and each but `block` and `op` at most once.
#[tactic(auto, unfolding(crate::specs::Cut::fit_of))]
pub fn words_fit(rest: &[u8], keys: Keys) -> bool
    ensures { result ≡ fit_of rest.now keys }
{
    let mut seen = [false; 16];
    for w in words(rest) {
        let Some(k) = key_of(w) else {
            return false;
        };
        let twice = seen[k as usize] && !matches!(k, Key::Block | Key::Op);
        if !allowed(keys, k) || twice {
            return false;
        }
        seen[k as usize] = true;
    }
    true
}
