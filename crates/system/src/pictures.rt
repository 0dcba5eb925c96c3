// What an accepted call does to names and pictures.
ghost use Rattle.std.specs.Prelude.{◌≡◌};
ghost use Rattle.blockcache.specs.Next.{cached_slot};
ghost use Rattle.sectortype.specs.Form.{with_slot, zero_slot};
ghost use Rattle.blocksystem.specs.Names.{names, picture_of, with_working, naming, frozen_named, started_at, froze, cleaned};
ghost use Rattle.blocksystem.specs.Names.{pictures_after};

use crate::formatting::zero_named;
use blockcache::Call;
use blocksystem::{Named, Pictures};
use disklayout::Location;
use sectortype::{Node, Nodes, Slot};

fn names_place(m: Named, l: Location) -> bool
    ensures { result ≡ names m l }
{
    m.present & (m.place == l)
}

fn naming_place(place: Location, picture: Nodes) -> Named
    ensures { result ≡ naming place picture }
{
    Named {
        present: true,
        place,
        picture,
    }
}

// The picture that belongs to a place; the empty one where it is not named.
fn picture_of(t: Pictures, l: Location) -> Nodes
    ensures { result ≡ picture_of t l }
{
    if names_place(t.first, l) {
        return t.first.picture;
    }
    if names_place(t.second, l) {
        return t.second.picture;
    }
    sector::empty_nodes()
}

fn frozen_named(mut t: Pictures, l: Location) -> Pictures
    ensures { result ≡ frozen_named t l }
{
    t.second = naming_place(l, t.frozen);
    t
}

fn started_at(mut t: Pictures, l: Location) -> Pictures
    ensures { result ≡ started_at t l }
{
    let p = picture_of(t, l);
    t.first = naming_place(l, p);
    t.second = zero_named();
    t.working = p;
    t
}

fn freeze(mut t: Pictures) -> Pictures
    ensures { result ≡ froze t }
{
    t.second = zero_named();
    t.frozen = t.working;
    t
}

fn clean_up(mut t: Pictures) -> Pictures
    ensures { result ≡ cleaned t }
{
    t.first = t.second;
    t.second = zero_named();
    t
}

fn removed(mut t: Pictures, r: usize) -> Pictures
    ensures { result ≡ with_working t (with_slot t.working r zero_slot) }
{
    t.working = sector::with_slot(t.working, r, sector::zero_slot());
    t
}

pub(crate) fn set_node(mut t: Pictures, r: usize, node: Node) -> Pictures
    ensures { result ≡ with_working t (with_slot t.working r (cached_slot node)) }
{
    let slot = Slot {
        present: true,
        node,
    };
    t.working = sector::with_slot(t.working, r, slot);
    t
}

// Names and pictures after an accepted call. Most steps change none.
pub fn pictures_after(t: Pictures, number: u64, q: Call) -> Pictures
    ensures { result ≡ pictures_after number q t }
{
    let l = cache::vop_loc(q.vop);
    let r = q.reference as usize;
    match number {
        4 => frozen_named(t, l),
        5 => removed(t, r),
        10 => started_at(t, l),
        12 => freeze(t),
        13 => clean_up(t),
        15 => set_node(t, r, q.node),
        16 => set_node(t, r, q.node),
        _ => t,
    }
}
