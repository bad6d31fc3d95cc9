// The questions that walk from cluster to cluster: the children of a cluster, the zoom at which it falls apart, and its lamps. Each looks
// at the state first, then at where the id leads.
#![tactic(auto)]

ghost use Rattle.std.specs.Prelude.{◌≡◌, true, false, ℕ, ◌+◌, ◌-◌, length, Ok};
ghost use Rattle.build_tables.specs.Room.{room_of};
ghost use Rattle.build_tables.specs.Lent.{tables_held};
ghost use Rattle.ask_base.specs.Asked.{answer_of, column_of};
ghost use Rattle.ask_base.specs.laws.Reached.{Reached};
ghost use Rattle.ask_cluster.specs.Children.{children_of};
ghost use Rattle.ask_cluster.specs.Expansion.{expand, zoom_of};
ghost use Rattle.ask_cluster.specs.Leaves.{list_one, leaves_at, leaves_of};
ghost use Rattle.ask_cluster.specs.laws.Fetch.{fetched_at};
ghost use Rattle.ask_cluster.specs.laws.Column.{fate_of, Does, BrokeBy, Opened, Walked};

use ask_base::{Answer, Origin};
use build_tables::{State, Tables};
use kdpages::Pages;
use refusals::Refusal;

// The children of the cluster cid: their places in its table.
pub fn children(s: State, t: &Tables<'_>, cid: u32, out: &mut [u32]) -> Answer
    ensures { let a = children_of s (tables_held t.now) cid in
        (result ≡ answer_of a (length out.old)) × (out.new ≡ column_of a out.old) }
{
    let cap = build_room::room(t);
    let at = ask_base::find_target(&s, cap, cid)?;
    let g = ask_base::ring_at(&s, t, cap, at);
    let k = ask_child_walk::list_kids(&g, cid, out)?;
    if k == 0 {
        return Err(Refusal::NoCluster);
    }
    ask_base::fit(k, out.len())
}

// The children of a cluster, as far as its expansion goes by them: a sole one that is a cluster, with its id; none; or others.
#[derive(Clone, Copy)]
enum Fetched {
    Cluster(u32),
    Nobody,
    Others,
}

fn fetch(s: &State, t: &Tables<'_>, cid: u32, at: Origin) -> Result<Fetched, Refusal>
    requires { Reached s.now (room_of (tables_held t.now)) at.table at.place }
    ensures { result ≡ fetched_at s.now (tables_held t.now) cid at.table at.place }
{
    let g = ask_base::ring_at(s, t, build_room::room(t), at);
    let mut one = [0u32; 1];
    let k = ask_child_walk::list_kids(&g, cid, &mut one)?;
    if k == 0 {
        return Ok(Fetched::Nobody);
    }
    if 1 < k {
        return Ok(Fetched::Others);
    }
    let e = g.table.entries.at(one[0] as usize);
    if 1 < e.num {
        return Ok(Fetched::Cluster(e.id));
    }
    Ok(Fetched::Others)
}

// The expansion zoom of the cluster cid, whose origin is an entry of a table.
fn expand_from(s: &State, t: &Tables<'_>, cid: u32, at: Origin) -> Result<u8, Refusal>
    requires { Reached s.now (room_of (tables_held t.now)) at.table at.place }
    ensures { let k = s.now.options.max_zoom + 1 - (at.table - 1) in
        result ≡ expand s.now (tables_held t.now) k (Ok at) cid (at.table - 1) true }
{
    let top = s.options.max_zoom as usize;
    let mut of = cid;
    let mut from = at;
    let mut first = true;
    for z in at.table..top + 2 {
        match fetch(s, t, of, from)? {
            Fetched::Nobody => {
                if first {
                    return Err(Refusal::NoCluster);
                }
                return Err(Refusal::Spoiled);
            }
            Fetched::Others => return Ok(z as u8),
            Fetched::Cluster(child) => {
                if z <= top {
                    from = ask_base::go_on(s, from.table, child)?;
                    of = child;
                    first = false;
                }
            }
        }
    }
    Ok((top + 1) as u8)
}

// The zoom at which the cluster cid falls apart.
pub fn expansion_zoom(s: State, t: &Tables<'_>, cid: u32) -> Result<u8, Refusal>
    ensures { result ≡ zoom_of s (tables_held t.now) cid }
{
    let at = ask_base::find_target(&s, build_room::room(t), cid)?;
    expand_from(&s, t, cid, at)
}

// What becomes of a child in a walk over lamps: so many are then skipped; or it is entered; or it is listed.
#[derive(Clone, Copy)]
enum Fate {
    Skipped(u32),
    Entered,
    Listed,
}

fn fate_of(offset: u32, skipped: u32, num: u32) -> Fate
    ensures { result ≡ fate_of offset skipped num }
{
    if 1 < num {
        if skipped as u64 + num as u64 <= offset as u64 {
            return Fate::Skipped(skipped + num);
        }
        return Fate::Entered;
    }
    if skipped < offset {
        return Fate::Skipped(skipped + 1);
    }
    Fate::Listed
}

// A walk over lamps: of which build, and which of the lamps are asked for.
#[derive(Clone, Copy)]
struct Tour<'a> {
    state: &'a State,
    tables: &'a Tables<'a>,
    limit: u32,
    offset: u32,
}

// How many lamps a walk has skipped, and how many it has listed. One that breaks is refused 11, and one into a cluster with no children 6.
#[derive(Clone, Copy)]
struct Sofar {
    skipped: u32,
    listed: usize,
}

// A lamp is listed, unless `count` are.
fn list_one(count: u32, lamp: u32, so: Sofar, out: &mut [u32]) -> Result<Sofar, Refusal>
    ensures does { Does so.listed out.old result out.new (list_one count lamp so.skipped) }
    ensures broke { BrokeBy false result }
{
    if count as usize <= so.listed {
        return Err(Refusal::Spoiled);
    }
    ask_base::put_at(out, so.listed, lamp);
    Ok(Sofar {
        skipped: so.skipped,
        listed: so.listed + 1,
    })
}

// The child cluster id is entered.
#[cycle(enter_walk_into)]
fn enter(w: &Tour<'_>, table: usize, id: u32, so: Sofar, out: &mut [u32]) -> Result<Sofar, Refusal>
    requires { Reached w.now.state.now (room_of (tables_held w.now.tables.now)) table 0 }
    ensures opened { let t = w.now in
        Opened t.state.now (tables_held t.tables.now) t.limit t.offset table id so.skipped so.listed out.old result out.new }
    ensures broke { BrokeBy false result }
{
    let at = ask_base::go_on(w.state, table, id)?;
    match walk_into(w, id, at, so, out) {
        Ok(next) => Ok(next),
        Err(_) => Err(Refusal::Spoiled),
    }
}

// The children of the cluster cid, one after the other, from the ring around its origin.
#[cycle(enter_walk_into)]
fn walk_into(
    w: &Tour<'_>,
    cid: u32,
    at: Origin,
    was: Sofar,
    out: &mut [u32],
) -> Result<Sofar, Refusal>
    requires { Reached w.now.state.now (room_of (tables_held w.now.tables.now)) at.table at.place }
    ensures { let t = w.now in
        Walked t.state.now (tables_held t.tables.now) t.limit t.offset cid at.table at.place was.skipped was.listed out.old result out.new }
{
    let g = ask_base::ring_at(w.state, w.tables, build_room::room(w.tables), at);
    let mut any = false;
    let mut so = was;
    let mut page = [0usize; 16];
    let mut from = Pages::begin();
    while let Some(kid) = ask_child_walk::next_child(&g, cid, &mut page, &mut from)? {
        let e = kid.entry;
        so = match fate_of(w.offset, so.skipped, e.num) {
            Fate::Entered => enter(w, at.table, e.id, so, out)?,
            Fate::Listed => list_one(w.state.count, e.id, so, out)?,
            Fate::Skipped(skipped) => Sofar {
                skipped,
                listed: so.listed,
            },
        };
        if so.listed == w.limit as usize {
            return Ok(so);
        }
        any = true;
    }
    if any {
        return Ok(so);
    }
    Err(Refusal::NoCluster)
}

// No lamps of the cluster cid, whose origin is an entry of a table: the whole search for its children has its refusals, and otherwise
// nothing is listed, whatever the offset and the room.
fn list_none(s: &State, t: &Tables<'_>, cid: u32, at: Origin) -> Answer
    requires { Reached s.now (room_of (tables_held t.now)) at.table at.place }
    ensures { let c = tables_held t.now in
        ((offset room : ℕ) → result ≡ answer_of (leaves_at s.now c cid 0 offset at.table at.place) room) }
{
    match fetch(s, t, cid, at)? {
        Fetched::Nobody => Err(Refusal::NoCluster),
        Fetched::Others => Ok(0),
        Fetched::Cluster(_) => Ok(0),
    }
}

// The lamps of the cluster cid: the ids of at most limit of them, after the first offset. Limit 0 lists nothing at every offset, and enters
// no child.
pub fn leaves(
    s: State,
    t: &Tables<'_>,
    cid: u32,
    limit: u32,
    offset: u32,
    out: &mut [u32],
) -> Answer
    ensures { let a = leaves_of s (tables_held t.now) cid limit offset in
        (result ≡ answer_of a (length out.old)) × (out.new ≡ column_of a out.old) }
{
    let at = ask_base::find_target(&s, build_room::room(t), cid)?;
    if limit == 0 {
        return list_none(&s, t, cid, at);
    }
    let w = Tour {
        state: &s,
        tables: t,
        limit,
        offset,
    };
    let none = Sofar {
        skipped: 0,
        listed: 0,
    };
    let so = walk_into(&w, cid, at, none, out)?;
    ask_base::fit(so.listed, out.len())
}
