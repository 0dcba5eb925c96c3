// Tables, written out.
ghost use Rattle.std.specs.Prelude.{◌≡◌};
ghost use Rattle.words.specs.Parsed.{reference_of, head_of, entry_of, extended_of, table_read_of};

use crate::digits::{location, small};
use crate::lists::list;
use crate::text::{cut, cut_at};
use disklayout::Location;
use sectortype::{Entry, Table};

// A table, and the lowest reference that its next entry may have.
#[derive(Clone, Copy)]
pub struct TableRead {
    pub next: usize,
    pub table: Table,
}

// A table has places for 0 to 63.
#[tactic(auto, unfolding(crate::specs::Parsed::reference_of))]
fn reference(w: &[u8]) -> Option<usize>
    ensures { result ≡ reference_of w.now }
{
    let r = small(w, 63)?;
    Some(r as usize)
}

// `REF` or `REF@ADDR+LEN`.
#[tactic(auto, unfolding(crate::specs::Parsed::head_of))]
fn head_of(w: &[u8]) -> Option<(usize, Option<Location>)>
    ensures { result ≡ head_of w.now }
{
    let Some((first, second)) = cut(w, b'@') else {
        return Some((reference(w)?, None));
    };
    let r = reference(first)?;
    Some((r, Some(location(second)?)))
}

// `REF@ADDR+LEN:LIST` or `REF:LIST`.
#[tactic(auto, unfolding(crate::specs::Parsed::entry_of))]
fn entry(w: &[u8]) -> Option<(usize, Entry)>
    ensures { result ≡ entry_of w.now }
{
    let (first, second) = cut(w, b':')?;
    let (r, place) = head_of(first)?;
    let succs = list(second)?;
    let entry = Entry {
        allocated: true,
        located: place.is_some(),
        loc: place.unwrap_or(Location { addr: 0, len: 0 }),
        succs,
    };
    Some((r, entry))
}

// A table with one entry more, whose reference is above those before it.
#[tactic(auto, unfolding(crate::specs::Parsed::extended_of))]
fn extended(t: TableRead, w: &[u8]) -> Option<TableRead>
    ensures { result ≡ extended_of t w.now }
{
    let (r, added) = entry(w)?;
    if r < t.next {
        return None;
    }
    if r > 63 {
        return None;
    }
    let table = sector::with_entry(t.table, r, added);
    Some(TableRead { next: r + 1, table })
}

// Entries by ascending reference joined by `;`, at least one: the empty table is spelled out by another word.
#[tactic(auto, unfolding(crate::specs::Parsed::table_read_of))]
pub fn table(w: &[u8]) -> Option<TableRead>
    ensures { result ≡ table_read_of w.now }
{
    let mut t = TableRead {
        next: 0,
        table: sector::empty_table(),
    };
    for piece in cut_at(w, b';') {
        t = extended(t, piece)?;
    }
    Some(t)
}
