// Box and ring: the places of a table that a search finds. Nothing is asked of the caller: what SCOPE does not take is refused with its
// number.
#![tactic(auto)]

ghost use Rattle.std.specs.Prelude.{◌≡◌, true, length};
ghost use Rattle.kdbush.specs.Run.{sound, whole, filled};
ghost use Rattle.kdbush.specs.Reply.{found, index_ok};
ghost use Rattle.build_tables.specs.Options.{zoom_used};
ghost use Rattle.build_tables.specs.Sound.{state_ok};
ghost use Rattle.build_tables.specs.Room.{index_room};
ghost use Rattle.ask_base.specs.Asked.{answer_of, column_of};
ghost use Rattle.ask_box_plan.specs.laws.Queries.{queries_of};
ghost use Rattle.ask_box.specs.Lists.{walked, planned, listed_at, ring_asked, box_asked};
ghost use Rattle.ask_box.specs.laws.Joined.{part_of};

use ask_base::Answer;
use ask_box_plan::BoxPlan;
use build_tables::{Options, State};
use kdslots::{Query, Search};
use kdsort::Index;
use refusals::Refusal;

// Lists the places of one search: how many it found. An index that may be searched is refused for nothing but a place past the table.
fn list_one(s: &Search<'_>, ids: &[u32], out: &mut [u32]) -> Result<usize, Refusal>
    requires { index_ok s.now.node_size s.now.n ids.now s.now.coords.now ≡ true }
    ensures { let a = s.now in let l = found a.query a.node_size a.n ids.now a.coords.now in
        (result ≡ part_of (whole a.n l) (length l)) × (out.new ≡ filled (sound a.n l) out.old) }
{
    match kdbush::search(s, ids, out) {
        Ok(k) => Ok(k),
        Err(e) => match e {
            Refusal::NoRoom(k) => Ok(k),
            _ => Err(Refusal::Spoiled),
        },
    }
}

// Lists the places that a plan finds in an index of n slots: the second search is lent what the first has left of the column.
fn list_plan(p: &BoxPlan, node_size: usize, n: usize, index: &Index<'_>, out: &mut [u32]) -> Answer
    requires { index_ok node_size n index.now.ids.now index.now.coords.now ≡ true }
    ensures { let a = walked n (planned (queries_of p.now) node_size n index.now.ids.now index.now.coords.now) in
        (result ≡ answer_of a (length out.old)) × (out.new ≡ column_of a out.old) }
{
    let first = Search {
        query: p.first,
        node_size,
        n,
        coords: index.coords,
    };
    let k = list_one(&first, index.ids, out)?;
    let Some(query) = p.second else {
        return ask_base::fit(k, out.len());
    };
    let second = Search {
        query,
        node_size,
        n,
        coords: index.coords,
    };
    let from = k.min(out.len());
    let j = list_one(&second, index.ids, &mut out[from..])?;
    ask_base::fit(k + j, out.len())
}

// The same in the table of the zoom used.
fn list_used(p: &BoxPlan, s: &State, index: &Index<'_>, zoom: u8, out: &mut [u32]) -> Answer
    requires { state_ok s.now (index_room index.now.ids.now index.now.coords.now) ≡ true }
    ensures { let a = listed_at s.now index.now.ids.now index.now.coords.now (zoom_used s.now.options zoom) (queries_of p.now) in
        (result ≡ answer_of a (length out.old)) × (out.new ≡ column_of a out.old) }
{
    let o = s.options;
    let z = o.zoom_used(zoom) as usize;
    let part = ask_base::index_at(s, index, z);
    list_plan(p, o.node_size, build_tables::len_of(*s, z), &part, out)
}

// The zoom whose table a question at this zoom goes to.
pub fn zoom_used(o: Options, zoom: u8) -> u8
    ensures { result ≡ zoom_used o zoom }
{
    o.zoom_used(zoom)
}

// The places of the table of the zoom used within a ring.
#[tactic(auto, unfolding(crate::specs::Lists::ring_asked))]
pub fn list_ring(
    s: State,
    index: &Index<'_>,
    zoom: u8,
    x: f64,
    y: f64,
    radius: f64,
    out: &mut [u32],
) -> Answer
    ensures { let a = ring_asked s index.now.ids.now index.now.coords.now zoom x y radius in
        (result ≡ answer_of a (length out.old)) × (out.new ≡ column_of a out.old) }
{
    if !s.is_sound(build_room::index_room(index)) {
        return Err(Refusal::Spoiled);
    }
    let first = Query::Within {
        qx: x,
        qy: y,
        radius,
    };
    if !first.is_ok() {
        return Err(Refusal::Box);
    }
    let p = BoxPlan {
        first,
        second: None,
    };
    list_used(&p, &s, index, zoom, out)
}

// The places of the table of the zoom used in the box from (west, least_y) to (east, greatest_y). y grows downwards on a mercator map, so
// that least_y is the northern edge of a longitude build; on a Cartesian plan it is the least y as given.
#[tactic(auto, unfolding(crate::specs::Lists::box_asked))]
pub fn list_box(
    s: State,
    index: &Index<'_>,
    zoom: u8,
    west: f64,
    least_y: f64,
    east: f64,
    greatest_y: f64,
    out: &mut [u32],
) -> Answer
    ensures { let a = box_asked s index.now.ids.now index.now.coords.now zoom west least_y east greatest_y in
        (result ≡ answer_of a (length out.old)) × (out.new ≡ column_of a out.old) }
{
    if !s.is_sound(build_room::index_room(index)) {
        return Err(Refusal::Spoiled);
    }
    let c = s.options.coordinate_system;
    if !ask_box_plan::box_ok(c, west, least_y, east, greatest_y) {
        return Err(Refusal::Box);
    }
    let p = ask_box_plan::plan_box(c, west, least_y, east, greatest_y);
    list_used(&p, &s, index, zoom, out)
}
