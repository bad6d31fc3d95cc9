// What every question to a build rests on: its answer, the lent columns and the parts of them that hold one table, where a cluster's id
// leads, and the ring around an entry, in which its children are. A question looks at the state first (`State::is_sound`); what is asked
// here of a caller follows from that.
#![tactic(auto)]

ghost use Rattle.std.specs.Prelude.{◌≡◌, ◌<◌, ◌≤◌, set};
ghost use Rattle.build_tables.specs.Room.{index_room, room_of};
ghost use Rattle.build_tables.specs.Lent.{tables_held};
ghost use Rattle.build_tables.specs.Ids.{origin_of, table_of};
ghost use Rattle.build_tables.specs.laws.Roomy.{Roomy};
ghost use Rattle.build_tables.specs.laws.Sound.{Stands};
ghost use Rattle.ask_base.specs.Answers.{fitted};
ghost use Rattle.ask_base.specs.Columns.{table_at, ids_at, coords_at};
ghost use Rattle.ask_base.specs.Ids.{origin, is_built, target_of, onward};
ghost use Rattle.ask_base.specs.laws.Reached.{Reached};
ghost use Rattle.ask_base.specs.laws.Around.{ring_held, ring_of, ring_at};

mod ring;

use build_tables::{State, Tables};
use kdslots::{Query, Search};
use kdsort::Index;
use refusals::Refusal;
pub use ring::Ring;

// The answer of a question that lists: how many items, or a refusal. `NoRoom` carries the whole length.
pub type Answer = Result<usize, Refusal>;

// The answer of k items for a column of so many.
pub fn fit(k: usize, room: usize) -> Answer
    ensures { result ≡ fitted k room }
{
    if k <= room {
        return Ok(k);
    }
    Err(Refusal::NoRoom(k))
}

// Stores v at k, if the column reaches so far.
pub fn put_at<T: Copy>(out: &mut [T], k: usize, v: T)
    ensures { out.new ≡ set out.old k v }
{
    if k < out.len() {
        out[k] = v;
    }
}

// The entry that a cluster was made at: its table, and its place there.
#[derive(Clone, Copy)]
pub struct Origin {
    pub table: usize,
    pub place: usize,
}

// Whether a table is built.
fn is_built(s: &State, table: usize) -> bool
    ensures { result ≡ is_built s.now table }
{
    let o = s.options;
    o.min_zoom as usize <= table && table <= o.max_zoom as usize + 1
}

// The entry that an id of a cluster names, in a build of n points.
fn origin_of(id: u32, n: u32) -> Origin
    requires { n ≤ id }
    ensures { result ≡ origin (table_of n id) (origin_of n id) }
{
    Origin {
        table: build_tables::table_of(id, n),
        place: build_tables::origin_of(id, n),
    }
}

// The origin of the cluster that is asked for, in columns of cap entries.
#[tactic(auto, using(std::proofs::lemmas::Bool::Decides::nat_tests), unfolding(crate::specs::Ids::target_of))]
pub fn find_target(s: &State, cap: usize, id: u32) -> Result<Origin, Refusal>
    ensures { result ≡ target_of s.now cap id }
{
    if !s.is_sound(cap) {
        return Err(Refusal::Spoiled);
    }
    if id < s.count {
        return Err(Refusal::NoCluster);
    }
    let at = origin_of(id, s.count);
    if !is_built(s, at.table) {
        return Err(Refusal::NoTree);
    }
    let o = s.options;
    if at.table == o.min_zoom as usize {
        return Err(Refusal::NoCluster);
    }
    if build_tables::len_of(*s, at.table) <= at.place {
        return Err(Refusal::NoCluster);
    }
    Ok(at)
}

// The origin of a child cluster that a walk in this table goes on into.
#[tactic(auto, using(std::proofs::lemmas::Bool::Decides::nat_tests), unfolding(crate::specs::Ids::onward))]
pub fn go_on(s: &State, table: usize, id: u32) -> Result<Origin, Refusal>
    ensures { result ≡ onward s.now table id }
{
    if id < s.count {
        return Err(Refusal::Spoiled);
    }
    let next = origin_of(id, s.count);
    if next.table <= table {
        return Err(Refusal::Spoiled);
    }
    if !is_built(s, next.table) {
        return Err(Refusal::Spoiled);
    }
    if build_tables::len_of(*s, next.table) <= next.place {
        return Err(Refusal::Spoiled);
    }
    Ok(next)
}

// Where a ring lies: the part of the columns that holds its table, and the search in it, around (x, y).
#[derive(Clone, Copy)]
pub struct RingPart {
    pub start: usize,
    pub len: usize,
    pub x: f64,
    pub y: f64,
    pub radius: f64,
    pub node_size: usize,
}

// Where the ring around the origin in its table lies. The columns of the index may be of any length.
pub fn ring_of(s: &State, t: &Tables<'_>, cap: usize, at: Origin) -> RingPart
    requires reached { Reached s.now cap at.table at.place }
    requires roomy { Roomy cap (tables_held t.now).table }
    ensures { result ≡ ring_of s.now (table_at s.now (tables_held t.now) at.table) at.table at.place }
{
    let o = s.options;
    let start = build_tables::start_of(*s, at.table);
    let len = build_tables::len_of(*s, at.table);
    let e = build_tables::entries_in(t, start, start + len).at(at.place);
    let radius = build_tables::radius_at(o.radius, o.extent, (at.table - 1) as u8);
    RingPart {
        start,
        len,
        x: e.x,
        y: e.y,
        radius,
        node_size: o.node_size,
    }
}

// The ring around the origin in its table, in which its children are.
pub fn ring_at<'a>(s: &State, t: &Tables<'a>, cap: usize, at: Origin) -> Ring<'a>
    requires reached { Reached s.now cap at.table at.place }
    requires room { cap ≤ room_of (tables_held t.now) }
    ensures { ring_held result ≡ ring_at s.now (tables_held t.now) at.table at.place }
{
    let g = ring_of(s, t, cap, at);
    let table = build_tables::table_in(t, g.start, g.len);
    let search = Search {
        query: Query::Within {
            qx: g.x,
            qy: g.y,
            radius: g.radius,
        },
        node_size: g.node_size,
        n: table.entries.len(),
        coords: table.index.coords,
    };
    Ring { table, search }
}

// The index of the table of zoom z.
pub fn index_at<'a>(s: &State, index: &Index<'a>, z: usize) -> Index<'a>
    requires { Stands s.now (index_room index.now.ids.now index.now.coords.now) z × (z < 32) }
    ensures ids { result.ids.now ≡ ids_at s.now index.now.ids.now z }
    ensures coords { result.coords.now ≡ coords_at s.now index.now.coords.now z }
{
    let start = build_tables::start_of(*s, z);
    let end = start + build_tables::len_of(*s, z);
    Index {
        ids: &index.ids[start..end],
        coords: &index.coords[2 * start..2 * end],
    }
}
