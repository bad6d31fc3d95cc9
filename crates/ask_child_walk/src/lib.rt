// The children of a cluster, one at a time and into a column: what the questions that walk from cluster to cluster rest on.
#![tactic(auto)]

ghost use Rattle.std.specs.Prelude.{◌≡◌};
ghost use Rattle.kdslots.specs.laws.All.{AllBelow};
ghost use Rattle.ask_base.specs.laws.Around.{ring_held, ahead_in};
ghost use Rattle.ask_child_walk.specs.laws.Next.{Listed, next_in, child_in};

use ask_base::Ring;
use build_tables::Entry;
use kdpages::Pages;
use refusals::Refusal;

// A child of a cluster: its place in the table, and its entry.
#[derive(Clone, Copy)]
pub struct Child {
    pub place: u32,
    pub entry: Entry,
}

// The next child of the cluster cid among the slots that are ahead of a walk over the ring, if one is left; a slot that names a place past
// the table is refused 11.
pub fn next_child(
    g: &Ring<'_>,
    cid: u32,
    page: &mut [usize],
    at: &mut Pages,
) -> Result<Option<Child>, Refusal>
    requires { let g = ring_held g.now in AllBelow g.len (ahead_in g page.old at.old) }
    ensures { let g = ring_held g.now in
        child_in g page.new at.new result ≡ next_in g cid (ahead_in g page.old at.old) }
{
    let n = g.search.n;
    let ids = g.table.index.ids;
    while let Some(slot) = g.next(page, at) {
        let place = ids[slot];
        if n <= place as usize {
            return Err(Refusal::Spoiled);
        }
        let entry = g.table.entries.at(place as usize);
        if entry.parent == cid {
            return Ok(Some(Child { place, entry }));
        }
    }
    Ok(None)
}

// The children of the cluster cid in the ring, written to `out` as far as they fit: how many there are.
pub fn list_kids(g: &Ring<'_>, cid: u32, out: &mut [u32]) -> Result<usize, Refusal>
    ensures { Listed (ring_held g.now) cid out.old result out.new }
{
    let mut k = 0;
    let mut page = [0usize; 16];
    let mut at = Pages::begin();
    while let Some(kid) = next_child(g, cid, &mut page, &mut at)? {
        prove!(k < g.search.n);
        ask_base::put_at(out, k, kid.place);
        k += 1;
    }
    Ok(k)
}
