// Points and ranges of the journal: the arithmetic on a row, and the calls.
ghost use Rattle.std.specs.Prelude.{◌≡◌, ◌+◌, ◌-◌, ◌*◌, ◌/◌, ◌^◌, ◌<◌, ◌≤◌, ltb};
ghost use Rattle.disklayout.specs.Calls.{answered_when, answered_if, told};
ghost use Rattle.disklayout.specs.Device.{device_of};
ghost use Rattle.disklayout.specs.Journal.{journal_point, journal_point_requires, journal_range_location, journal_range_requires};
ghost use Rattle.disklayout.specs.Journal.{loc_contained_in_circular_journal_range, loc_disjoint_from_circular_journal_range};
ghost use Rattle.disklayout.specs.Journal.{circular_requires};
ghost use Rattle.disklayout.specs.Journal.{journal_pos_add, journal_block_idx, journal_block_idx_requires};
ghost use Rattle.disklayout.specs.Journal.{journal_front_location, journal_front_requires, journal_back_location, journal_back_requires};

use crate::areas::{JOURNAL_START, PAGE};
use crate::kinds::is_kind;
use crate::rows::{GoodRow, row};
use crate::sums::{lies_in, lies_outside, sum_within};
use disklayout::{Kind, Location, Refused};

impl GoodRow {
    fn point(self, p: u64) -> u64
        requires { p ≤ self.numbers.journal }
        ensures { result ≡ journal_point self.numbers p }
    {
        JOURNAL_START + p * PAGE
    }

    fn range(self, start: u64, len: u64) -> Location
        requires { start + len ≤ self.numbers.journal }
        ensures { result ≡ journal_range_location self.numbers start len }
    {
        Location {
            addr: self.point(start),
            len: len * PAGE,
        }
    }

    #[tactic(auto, using(disklayout::proofs::Ranges::contained_whole, disklayout::proofs::Ranges::contained_round))]
    fn contained(self, loc: Location, start: u64, len: u64) -> bool
        requires start_lt_journal { start < self.numbers.journal }
        requires len_le_journal { len ≤ self.numbers.journal }
        ensures { result ≡ loc_contained_in_circular_journal_range self.numbers loc start len }
    {
        let from = self.point(start);
        let room = self.numbers.journal - start;
        if len <= room {
            let to = self.point(start + len);
            return lies_in(loc, from, to);
        }
        let end = self.table1();
        let to = self.point(len - room);
        lies_in(loc, from, end) | lies_in(loc, JOURNAL_START, to)
    }

    #[tactic(auto, using(disklayout::proofs::Ranges::disjoint_whole, disklayout::proofs::Ranges::disjoint_round))]
    fn disjoint(self, loc: Location, start: u64, len: u64) -> bool
        requires start_lt_journal { start < self.numbers.journal }
        requires len_le_journal { len ≤ self.numbers.journal }
        ensures { result ≡ loc_disjoint_from_circular_journal_range self.numbers loc start len }
    {
        let from = self.point(start);
        let room = self.numbers.journal - start;
        if len <= room {
            let to = self.point(start + len);
            return lies_outside(loc, from, to);
        }
        let end = self.table1();
        let to = self.point(len - room);
        lies_outside(loc, JOURNAL_START, end) | lies_in(loc, to, from)
    }

    // A sum past 64 bits whose result fits is answered; one whose result doesn't fit is refused.
    fn pos_add(self, start: u64, span: u64) -> Result<u64, Refused>
        ensures { result ≡ answered_when (ltb (journal_pos_add self.numbers start span) (2 ^ 64)) (journal_pos_add self.numbers start span) }
    {
        let blocks = self.numbers.journal;
        if blocks <= start {
            let past = start - blocks;
            return past.checked_add(span).ok_or(Refused::Undefined);
        }
        let room = blocks - start;
        if span < room {
            Ok(start + span)
        } else {
            Ok(span - room)
        }
    }

    fn front(self, start: u64, len: u64) -> Option<Location>
        requires { start < self.numbers.journal }
        ensures { result ≡ told (journal_front_location self.numbers start len) }
    {
        if len == 0 {
            return None;
        }
        let room = self.numbers.journal - start;
        Some(self.range(start, len.min(room)))
    }

    fn back(self, start: u64, len: u64) -> Option<Location>
        requires start_lt_journal { start < self.numbers.journal }
        requires len_le_journal { len ≤ self.numbers.journal }
        ensures { result ≡ told (journal_back_location self.numbers start len) }
    {
        let room = self.numbers.journal - start;
        if len <= room {
            return None;
        }
        Some(self.range(0, len - room))
    }

    // Whether a range of so many blocks from start on, which may go round the journal's end, is one that upstream asks for.
    fn is_circular(self, start: u64, len: u64) -> bool
        ensures { result ≡ circular_requires self.numbers start len }
    {
        (start < self.numbers.journal) & (len <= self.numbers.journal)
    }
}

fn block_idx(loc: Location) -> u64
    requires { 2 * 4096 ≤ loc.addr }
    ensures { result ≡ (loc.addr - 2 * 4096) / 4096 }
{
    (loc.addr - JOURNAL_START) / PAGE
}

pub fn journal_point(device: u64, p: u64) -> Result<u64, Refused>
    ensures { result ≡ answered_if device (journal_point_requires (device_of device) p) (journal_point (device_of device) p) }
{
    let row = row(device)?;
    if p <= row.numbers.journal {
        Ok(row.point(p))
    } else {
        Err(Refused::Undefined)
    }
}

pub fn journal_range_location(device: u64, start: u64, len: u64) -> Result<Location, Refused>
    ensures { result ≡ answered_if device (journal_range_requires (device_of device) start len) (journal_range_location (device_of device) start len) }
{
    let row = row(device)?;
    let blocks = row.numbers.journal;
    if (start < blocks) & sum_within(start, len, blocks, 0) {
        Ok(row.range(start, len))
    } else {
        Err(Refused::Undefined)
    }
}

pub fn loc_contained_in_circular_journal_range(
    device: u64,
    loc: Location,
    start: u64,
    len: u64,
) -> Result<bool, Refused>
    ensures { result ≡ answered_if device (circular_requires (device_of device) start len) (loc_contained_in_circular_journal_range (device_of device) loc start len) }
{
    let row = row(device)?;
    if row.is_circular(start, len) {
        Ok(row.contained(loc, start, len))
    } else {
        Err(Refused::Undefined)
    }
}

pub fn loc_disjoint_from_circular_journal_range(
    device: u64,
    loc: Location,
    start: u64,
    len: u64,
) -> Result<bool, Refused>
    ensures { result ≡ answered_if device (circular_requires (device_of device) start len) (loc_disjoint_from_circular_journal_range (device_of device) loc start len) }
{
    let row = row(device)?;
    if row.is_circular(start, len) {
        Ok(row.disjoint(loc, start, len))
    } else {
        Err(Refused::Undefined)
    }
}

pub fn journal_pos_add(device: u64, start: u64, span: u64) -> Result<u64, Refused>
    ensures { result ≡ answered_if device (ltb (journal_pos_add (device_of device) start span) (2 ^ 64)) (journal_pos_add (device_of device) start span) }
{
    row(device)?.pos_add(start, span)
}

pub fn journal_front_location(
    device: u64,
    start: u64,
    len: u64,
) -> Result<Option<Location>, Refused>
    ensures { result ≡ answered_if device (journal_front_requires (device_of device) start) (told (journal_front_location (device_of device) start len)) }
{
    let row = row(device)?;
    if start < row.numbers.journal {
        Ok(row.front(start, len))
    } else {
        Err(Refused::Undefined)
    }
}

pub fn journal_back_location(device: u64, start: u64, len: u64) -> Result<Option<Location>, Refused>
    ensures { result ≡ answered_if device (journal_back_requires (device_of device) start len) (told (journal_back_location (device_of device) start len)) }
{
    let row = row(device)?;
    if row.is_circular(start, len) {
        Ok(row.back(start, len))
    } else {
        Err(Refused::Undefined)
    }
}

pub fn journal_block_idx(device: u64, loc: Location) -> Result<u64, Refused>
    ensures { result ≡ answered_if device (journal_block_idx_requires (device_of device) loc) (journal_block_idx (device_of device) loc) }
{
    if is_kind(device, loc, Kind::Journal) {
        Ok(block_idx(loc))
    } else {
        Err(Refused::Undefined)
    }
}
