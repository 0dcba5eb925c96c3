// Sums that may pass 64 bits, compared without adding.
ghost use Rattle.std.specs.Prelude.{◌≡◌, ◌&&◌, ◌||◌, ◌+◌, leb, ltb};
ghost use Rattle.disklayout.specs.Layout.{location_sub};
ghost use Rattle.disklayout.specs.Layout.{overlap as Layout·overlap};

use disklayout::Location;

// a + b > x
pub(crate) fn sum_passes(a: u64, b: u64, x: u64) -> bool
    ensures { result ≡ ltb x (a + b) }
{
    if x < a {
        return true;
    }
    let gap = x - a;
    gap < b
}

// a + b <= c + d
pub(crate) fn sum_within(a: u64, b: u64, c: u64, d: u64) -> bool
    ensures { result ≡ leb (a + b) (c + d) }
{
    if a <= c {
        let gap = c - a;
        if b <= gap {
            return true;
        }
        let rest = b - gap;
        return rest <= d;
    }
    let gap = a - c;
    if d < gap {
        return false;
    }
    let room = d - gap;
    b <= room
}

#[tactic(auto, unfolding(disklayout::specs::Layout::overlap))]
pub(crate) fn overlaps(a: Location, b: Location) -> bool
    ensures { result ≡ Layout·overlap a b }
{
    let one = sum_passes(a.addr, a.len, b.addr);
    let two = sum_passes(b.addr, b.len, a.addr);
    one & two
}

#[tactic(auto, unfolding(disklayout::specs::Layout::location_sub))]
pub(crate) fn is_part(a: Location, b: Location) -> bool
    ensures { result ≡ location_sub a b }
{
    let ends = sum_within(a.addr, a.len, b.addr, b.len);
    (b.addr <= a.addr) & ends
}

// The place lies in from .. to.
pub(crate) fn lies_in(loc: Location, from: u64, to: u64) -> bool
    ensures { result ≡ (leb from loc.addr && leb (loc.addr + loc.len) to) }
{
    let ends = sum_within(loc.addr, loc.len, to, 0);
    (from <= loc.addr) & ends
}

// The place ends at or before from, or begins at or past to.
pub(crate) fn lies_outside(loc: Location, from: u64, to: u64) -> bool
    ensures { result ≡ (leb (loc.addr + loc.len) from || leb to loc.addr) }
{
    let before = sum_within(loc.addr, loc.len, from, 0);
    before | (to <= loc.addr)
}
