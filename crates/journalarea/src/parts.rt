// Where in the lent area a part lies, and the calls.
ghost use Rattle.std.specs.Prelude.{true, ◌≡◌, ◌+◌, ◌≤◌, length};
ghost use Rattle.std.proofs.Math.Option.{some};
ghost use Rattle.base.specs.Refusals.{answer};
ghost use Rattle.disklayout.specs.Calls.{answered};
ghost use Rattle.disklayout.specs.Device.{device_of};
ghost use Rattle.disklayout.specs.Layout.{journal_start_addr};
ghost use Rattle.journalrange.specs.Parts.{journal_length, front_rows, back_rows, located, part_of, place_of, front_part, back_part, cut};
ghost use Rattle.journalrange.specs.Parts.{front_bytes, back_bytes, part_ptr};

use disklayout::{Location, Refused};
use journalrange::{Part, PartRefused};

// The journal lies between the layout's two addresses of it.
#[tactic(auto, using(journalrange::proofs::Told::length_ends, journalrange::proofs::Told::length_told))]
fn journal_length(device: u64) -> Result<u64, Refused>
    ensures { result ≡ answered device (journal_length (device_of device)) }
{
    let begin = layout::journal_start_addr(device)?;
    let end = layout::journal_end_addr(device)?;
    Ok(end - begin)
}

// The part that lies at a location of the journal. A device that is not made has no journal, and is refused here too.
fn part_at(device: u64, bytes: u64, location: Option<Location>) -> Result<Part, PartRefused>
    requires { (l : Location) → located location ≡ some l → journal_start_addr ≤ l.addr }
    ensures { result ≡ part_of device true bytes (located location) }
{
    let length = journal_length(device)?;
    if bytes != length {
        return Err(PartRefused::OtherLength);
    }
    let Some(loc) = location else {
        return Ok(Part::default());
    };
    Ok(Part {
        start: loc.addr - layout::journal_start_addr(device)?,
        len: loc.len,
    })
}

// Where in `bytes` lent bytes the front part lies: 0 and 0 where it doesn't exist.
pub fn front_part(device: u64, bytes: u64, start: u64, blocks: u64) -> Result<Part, PartRefused>
    ensures { result ≡ front_part device bytes start blocks }
{
    let location = layout::journal_front_location(device, start, blocks)?;
    part_at(device, bytes, location)
}

// The same of the back part.
pub fn back_part(device: u64, bytes: u64, start: u64, blocks: u64) -> Result<Part, PartRefused>
    ensures { result ≡ back_part device bytes start blocks }
{
    let location = layout::journal_back_location(device, start, blocks)?;
    part_at(device, bytes, location)
}

// The part of the lent area itself.
fn cut_out<'a>(area: &'a [u8], part: Part) -> &'a [u8]
    requires { part.start + part.len ≤ length area.now }
    ensures bytes { result.now ≡ cut area.now part }
    ensures memory { result.ref_ptr ≡ part_ptr area.entry.ref_ptr part }
{
    let from = part.start as usize;
    let to = from + part.len as usize;
    &area[from..to]
}

// The front part of the range of `blocks` blocks from block `start` on: the area from start times 4096 on (`front_start`), to the range's or the
// journal's end. Where the range has no blocks, or the call is refused, it is the area's first 0 bytes. Its number is `front_result`'s.
pub fn front<'a>(device: u64, area: &'a [u8], start: u64, blocks: u64) -> &'a [u8]
    ensures bytes { result.now ≡ front_bytes device area.now start blocks }
    ensures memory { result.ref_ptr ≡ part_ptr area.entry.ref_ptr (place_of (front_part device (length area.now) start blocks)) }
{
    let part = front_part(device, area.len() as u64, start, blocks);
    cut_out(area, part.unwrap_or_default())
}

pub fn front_result(device: u64, area: &[u8], start: u64, blocks: u64) -> u64
    ensures { result ≡ answer (front_rows device (length area.now) start) }
{
    front_part(device, area.len() as u64, start, blocks).map_or_else(u64::from, |_| 0)
}

// The back part: the area from 0 on (`Back-start`), what the range has past the journal's end. Its number is `back_result`'s.
pub fn back<'a>(device: u64, area: &'a [u8], start: u64, blocks: u64) -> &'a [u8]
    ensures bytes { result.now ≡ back_bytes device area.now start blocks }
    ensures memory { result.ref_ptr ≡ part_ptr area.entry.ref_ptr (place_of (back_part device (length area.now) start blocks)) }
{
    let part = back_part(device, area.len() as u64, start, blocks);
    cut_out(area, part.unwrap_or_default())
}

pub fn back_result(device: u64, area: &[u8], start: u64, blocks: u64) -> u64
    ensures { result ≡ answer (back_rows device (length area.now) start blocks) }
{
    back_part(device, area.len() as u64, start, blocks).map_or_else(u64::from, |_| 0)
}
