// The public functions by C names, for Rust and C: numbers, slices, and arrays of 32. A slice is passed as a pointer and a length,
// a `&mut usize` or a `&[u32; 32]` as a pointer.
// Each answers SCOPE's number of the reply, 0 where there is no refusal, and leaves what the reply carries in `carried`, 0 where it
// carries nothing; an entry's fields are left one by one. But `supercluster_normalize`, `supercluster_denormalize` and
// `supercluster_zoom_used` refuse nothing, and answer their value. Proved: each tells what the public function promises, and writes
// nothing else. Assumed: nothing.
#![tactic(auto)]

ghost use Rattle.std.specs.Prelude.{◌≡◌, length};
ghost use Rattle.kdbush.specs.Reply.{built, index_checked, searched, column_after};
ghost use Rattle.kdwalk.specs.Reply.{step_carried, first_step, after_step};
ghost use Rattle.refusals.specs.Refusals.{number, carried as carried_by, refusal_carried};
ghost use Rattle.exports.specs.Given.{ranged, given_options};
ghost use Rattle.exports.specs.Told.{said, number_said, tally_said, told_c, told_of, effort_told, effort_told_of, tile_told, tile_of};
ghost use Rattle.exports.specs.Told.{post_told, post_told_of};
ghost use Rattle.exports.specs.Laid.{replied, replied_of, laid, laid_of};
ghost use Rattle.exports.specs.Read.{entry_asked, lent_entry, read_as, read_of};
ghost use Rattle.owners.specs.LoadedWith.{loaded_with};
ghost use Rattle.supercluster.specs.Lent.{lent_all_mut};
ghost use Rattle.kdsort.specs.Lent.{lent_index_mut};
ghost use Rattle.range.specs.Range.{normalized, denormalized};
ghost use Rattle.build_tables.specs.State.{state_of};
ghost use Rattle.build_tables.specs.Options.{zoom_used};
ghost use Rattle.build_tables.specs.Lent.{lent_columns, tables_held};
ghost use Rattle.ask_tile_table.specs.Tally.{tally_value};
ghost use Rattle.ask_box.specs.Lists.{box_asked, ring_asked};
ghost use Rattle.ask_effort.specs.Effort.{effort_asked};
ghost use Rattle.ask_effort_tests.specs.Reply.{effort_number, effort_carried};
ghost use Rattle.ask_cluster.specs.Children.{children_of};
ghost use Rattle.ask_cluster.specs.Leaves.{leaves_of};
ghost use Rattle.ask_cluster.specs.Expansion.{zoom_of};
ghost use Rattle.ask_tile.specs.Asked.{tiled};
ghost use Rattle.ask_tile.specs.Tallied.{tallied};
ghost use Rattle.ask_owner.specs.Asked.{owner_asked};
ghost use Rattle.posting.specs.Post.{posted};

use ask_effort_tests::{Effort, EffortRefusal};
use ask_tile::StateParts;
use build_tables::{Entry, Options, State, Tables, TablesMut};
use kdslots::{Query, Search};
use kdsort::{Index, IndexMut};
use range::DataRange;
use refusals::Refusal;
use supercluster::Points;

// SCOPE's number of a reply, 0 where nothing is refused.
fn number(reply: Result<(), Refusal>) -> u32
    ensures { result ≡ number reply }
{
    refusals::number(&reply)
}

// The same, and behind a pointer what the refusal carries, or 0.
fn tell_done(reply: Result<(), Refusal>, carried: &mut usize) -> u32
    ensures number { result ≡ number reply }
    ensures carried { carried.new ≡ refusal_carried reply }
{
    *carried = refusals::refusal_carried(&reply);
    number(reply)
}

// The number of a reply; what it carries goes behind a pointer.
fn tell(reply: Result<usize, Refusal>, carried: &mut usize) -> u32
    ensures number { result ≡ number reply }
    ensures carried { carried.new ≡ carried_by reply }
{
    *carried = refusals::carried(reply);
    refusals::number(&reply)
}

// The same of a sum: 0 where it is refused.
fn tell_sum(reply: Result<u64, Refusal>, sum: &mut usize) -> u32
    ensures number { result ≡ number reply }
    ensures sum { sum.new ≡ tally_value reply }
{
    *sum = ask_tile_table::tally_value(reply) as usize;
    refusals::number(&reply)
}

// The same of a box within an effort: how many were found, how many slots were tested, and whether a test was left.
fn tell_effort(
    reply: Result<Effort, EffortRefusal>,
    items: &mut usize,
    tested: &mut usize,
    stopped: &mut bool,
) -> u32
    ensures number { result ≡ effort_number reply }
    ensures items { items.new ≡ (effort_carried reply).items }
    ensures tested { tested.new ≡ (effort_carried reply).tested }
    ensures stopped { stopped.new ≡ (effort_carried reply).stopped }
{
    let e = ask_effort_tests::effort_carried(reply);
    *items = e.items;
    *tested = e.tested;
    *stopped = e.stopped;
    ask_effort_tests::effort_number(reply)
}

// The same of a step of a walk: its slot, or the largest usize where it has none.
fn tell_step(step: Result<Option<usize>, Refusal>, slot: &mut usize) -> u32
    ensures number { result ≡ number step }
    ensures slot { slot.new ≡ step_carried step }
{
    *slot = kdwalk::step_carried(step);
    refusals::number(&step)
}

// The index of N points, xs_len of them, whose coordinates are from 0 to 1. Written are the first N entries of ids (the place of
// each slot) and the first 2N of coords (its x and y), sorted by node_size (1 to 65,535); what lies behind them stays. Refused in
// this order, and then neither is written: 1 node_size, 2 N is not from 1 to 1,048,576 or ys has not N, 3 a coordinate (carried: the
// first such point, from 0), 4 ids has fewer than N entries or coords fewer than 2N.
#[unsafe(no_mangle)]
pub extern "C" fn kdbush_build(
    node_size: usize,
    xs: &[f64],
    ys: &[f64],
    ids: &mut [u32],
    coords: &mut [f64],
    carried: &mut usize,
) -> u32
    ensures result_value { let c = lent_index_mut ids coords in result ≡ number (index_checked node_size xs.now ys.now c.entry) }
    ensures carried_value { let c = lent_index_mut ids coords in carried.new ≡ refusal_carried (index_checked node_size xs.now ys.now c.entry) }
    ensures c_value { let c = lent_index_mut ids coords in c.exit ≡ built node_size xs.now ys.now c.entry }
{
    let mut index = IndexMut { ids, coords };
    let r = kdbush::build(node_size, xs, ys, &mut index);
    tell_done(r, carried)
}

// Searches an index of n points: the places of those with min_x <= x <= max_x and min_y <= y <= max_y, in the order of the walk.
// Written are the first entries of out, carried is how many. Refused in this order: 11 by node_size, n or a short column, 9 a number
// that is not finite, 11 a slot whose place is not below n (out has those before it that fit), 10 out is too short (carried: how
// many there are; out has those that fit). 9 and the first 11 write nothing.
#[unsafe(no_mangle)]
pub extern "C" fn kdbush_range(
    node_size: usize,
    n: usize,
    ids: &[u32],
    coords: &[f64],
    min_x: f64,
    min_y: f64,
    max_x: f64,
    max_y: f64,
    out: &mut [u32],
    carried: &mut usize,
) -> u32
    ensures result_value { let q = Query.Range min_x min_y max_x max_y in
        result ≡ number (searched q node_size n ids.now coords.now (length out.old)) }
    ensures carried_value { let q = Query.Range min_x min_y max_x max_y in
        carried.new ≡ carried_by (searched q node_size n ids.now coords.now (length out.old)) }
    ensures out_value { let q = Query.Range min_x min_y max_x max_y in
        out.new ≡ column_after q node_size n ids.now coords.now out.old }
{
    let index = Index { ids, coords };
    let r = kdbush::range(node_size, n, &index, min_x, min_y, max_x, max_y, out);
    tell(r, carried)
}

// Searches an index of n points: the places of those with (x - qx)^2 + (y - qy)^2 <= radius^2, in the order of the walk. Written,
// carried and refused as for kdbush_range; 9 also refuses a radius below 0.
#[unsafe(no_mangle)]
pub extern "C" fn kdbush_within(
    node_size: usize,
    n: usize,
    ids: &[u32],
    coords: &[f64],
    qx: f64,
    qy: f64,
    radius: f64,
    out: &mut [u32],
    carried: &mut usize,
) -> u32
    ensures value { result ≡ number (searched (Query.Within qx qy radius) node_size n ids.now coords.now (length out.old)) }
    ensures carried_value { let q = Query.Within qx qy radius in
        carried.new ≡ carried_by (searched q node_size n ids.now coords.now (length out.old)) }
    ensures out_value { out.new ≡ column_after (Query.Within qx qy radius) node_size n ids.now coords.now out.old }
{
    let index = Index { ids, coords };
    let r = kdbush::within(node_size, n, &index, qx, qy, radius, out);
    tell(r, carried)
}

// The search of a box, in the first n slots of an index.
fn box_search(
    node_size: usize,
    n: usize,
    coords: &[f64],
    min_x: f64,
    min_y: f64,
    max_x: f64,
    max_y: f64,
) -> Search<'_>
    ensures query { result.query ≡ Query.Range min_x min_y max_x max_y }
    ensures index { (result.node_size ≡ node_size) × (result.n ≡ n) × (result.coords.now ≡ coords.now) }
{
    let query = Query::Range {
        min_x,
        min_y,
        max_x,
        max_y,
    };
    Search {
        query,
        node_size,
        n,
        coords,
    }
}

// The search around a place.
fn ring_search(
    node_size: usize,
    n: usize,
    coords: &[f64],
    qx: f64,
    qy: f64,
    radius: f64,
) -> Search<'_>
    ensures query { result.query ≡ Query.Within qx qy radius }
    ensures index { (result.node_size ≡ node_size) × (result.n ≡ n) × (result.coords.now ≡ coords.now) }
{
    let query = Query::Within { qx, qy, radius };
    Search {
        query,
        node_size,
        n,
        coords,
    }
}

// The walk of kdbush_range by steps, over coords alone. slot is the first slot that passes, and ids[slot] its place; where none
// passes, it is the largest size_t. Refused: 11 by node_size, n or short coords, 9 a number that is not finite; then, too, slot is
// the largest size_t.
#[unsafe(no_mangle)]
pub extern "C" fn kdbush_range_first(
    node_size: usize,
    n: usize,
    coords: &[f64],
    min_x: f64,
    min_y: f64,
    max_x: f64,
    max_y: f64,
    slot: &mut usize,
) -> u32
    ensures result_value { let q = Query.Range min_x min_y max_x max_y in
        result ≡ number (first_step q node_size n coords.now) }
    ensures slot_value { let q = Query.Range min_x min_y max_x max_y in
        slot.new ≡ step_carried (first_step q node_size n coords.now) }
{
    let step = kdwalk::first(&box_search(node_size, n, coords, min_x, min_y, max_x, max_y));
    tell_step(step, slot)
}

// The slot that follows slot in that walk, into next; the largest size_t where none follows, and for each slot from n on. Refused as
// kdbush_range_first, with the largest size_t in next.
#[unsafe(no_mangle)]
pub extern "C" fn kdbush_range_after(
    node_size: usize,
    n: usize,
    coords: &[f64],
    min_x: f64,
    min_y: f64,
    max_x: f64,
    max_y: f64,
    slot: usize,
    next: &mut usize,
) -> u32
    ensures result_value { let q = Query.Range min_x min_y max_x max_y in
        result ≡ number (after_step q node_size n coords.now slot) }
    ensures next_value { let q = Query.Range min_x min_y max_x max_y in
        next.new ≡ step_carried (after_step q node_size n coords.now slot) }
{
    let s = box_search(node_size, n, coords, min_x, min_y, max_x, max_y);
    let step = kdwalk::after(&s, slot);
    tell_step(step, next)
}

// The walk of kdbush_within by steps. As kdbush_range_first; 9 also refuses a radius below 0.
#[unsafe(no_mangle)]
pub extern "C" fn kdbush_within_first(
    node_size: usize,
    n: usize,
    coords: &[f64],
    qx: f64,
    qy: f64,
    radius: f64,
    slot: &mut usize,
) -> u32
    ensures value { result ≡ number (first_step (Query.Within qx qy radius) node_size n coords.now) }
    ensures slot_value { slot.new ≡ step_carried (first_step (Query.Within qx qy radius) node_size n coords.now) }
{
    let step = kdwalk::first(&ring_search(node_size, n, coords, qx, qy, radius));
    tell_step(step, slot)
}

// The slot that follows slot in that walk, into next. As kdbush_range_after; 9 also refuses a radius below 0.
#[unsafe(no_mangle)]
pub extern "C" fn kdbush_within_after(
    node_size: usize,
    n: usize,
    coords: &[f64],
    qx: f64,
    qy: f64,
    radius: f64,
    slot: usize,
    next: &mut usize,
) -> u32
    ensures value { result ≡ number (after_step (Query.Within qx qy radius) node_size n coords.now slot) }
    ensures next_value { next.new ≡ step_carried (after_step (Query.Within qx qy radius) node_size n coords.now slot) }
{
    let s = ring_search(node_size, n, coords, qx, qy, radius);
    let step = kdwalk::after(&s, slot);
    tell_step(step, next)
}

// The range of a Cartesian plan: its offset and its scale where they are given.
fn range_of(
    min_x: f64,
    min_y: f64,
    max_x: f64,
    max_y: f64,
    offset_given: bool,
    offset: f64,
    scale_given: bool,
    scale: f64,
) -> DataRange
    ensures { result ≡ ranged min_x min_y max_x max_y offset_given offset scale_given scale }
{
    DataRange {
        min_x,
        min_y,
        max_x,
        max_y,
        offset: build_tables::setting(offset_given, offset),
        scale: build_tables::setting(scale_given, scale),
    }
}

// The options.
fn options(
    min_zoom: u8,
    max_zoom: u8,
    min_points: u8,
    radius: f64,
    extent: f64,
    node_size: usize,
    cartesian: bool,
    min_x: f64,
    min_y: f64,
    max_x: f64,
    max_y: f64,
    offset_given: bool,
    offset: f64,
    scale_given: bool,
    scale: f64,
    longitude_strips_only: bool,
) -> Options
    ensures { result ≡ given_options min_zoom max_zoom min_points radius extent node_size cartesian min_x min_y max_x max_y
        offset_given offset scale_given scale longitude_strips_only }
{
    let range = range_of(
        min_x,
        min_y,
        max_x,
        max_y,
        offset_given,
        offset,
        scale_given,
        scale,
    );
    let coordinate_system = build_tables::system(cartesian, range);
    Options {
        min_zoom,
        max_zoom,
        min_points,
        radius,
        extent,
        node_size,
        coordinate_system,
        longitude_strips_only,
    }
}

// A number of a Cartesian plan as the tables have it: (v - offset) / scale. The offset is as given, or else the lesser of min_x and
// min_y; the scale as given, or else the greater of max_x and max_y less the offset. All numbers are taken, and none is refused: a
// range that no build takes gives what the formula gives.
#[unsafe(no_mangle)]
pub extern "C" fn supercluster_normalize(
    min_x: f64,
    min_y: f64,
    max_x: f64,
    max_y: f64,
    offset_given: bool,
    offset: f64,
    scale_given: bool,
    scale: f64,
    v: f64,
) -> f64
    ensures { result ≡ normalized (ranged min_x min_y max_x max_y offset_given offset scale_given scale) v }
{
    let range = range_of(
        min_x,
        min_y,
        max_x,
        max_y,
        offset_given,
        offset,
        scale_given,
        scale,
    );
    range.normalize(v)
}

// And back: v * scale + offset, with the offset and the scale as for supercluster_normalize.
#[unsafe(no_mangle)]
pub extern "C" fn supercluster_denormalize(
    min_x: f64,
    min_y: f64,
    max_x: f64,
    max_y: f64,
    offset_given: bool,
    offset: f64,
    scale_given: bool,
    scale: f64,
    v: f64,
) -> f64
    ensures { result ≡ denormalized (ranged min_x min_y max_x max_y offset_given offset scale_given scale) v }
{
    let range = range_of(
        min_x,
        min_y,
        max_x,
        max_y,
        offset_given,
        offset,
        scale_given,
        scale,
    );
    range.denormalize(v)
}

// The zoom whose table a question at this zoom goes to: zoom, but at least min_zoom and at most max_zoom + 1. Only these two options
// are looked at, and none is refused.
#[unsafe(no_mangle)]
pub extern "C" fn supercluster_zoom_used(
    min_zoom: u8,
    max_zoom: u8,
    min_points: u8,
    radius: f64,
    extent: f64,
    node_size: usize,
    cartesian: bool,
    min_x: f64,
    min_y: f64,
    max_x: f64,
    max_y: f64,
    offset_given: bool,
    offset: f64,
    scale_given: bool,
    scale: f64,
    longitude_strips_only: bool,
    zoom: u8,
) -> u8
    ensures { let o = given_options min_zoom max_zoom min_points radius extent node_size cartesian min_x min_y max_x max_y
        offset_given offset scale_given scale longitude_strips_only in
        result ≡ zoom_used o zoom }
{
    let o = options(
        min_zoom,
        max_zoom,
        min_points,
        radius,
        extent,
        node_size,
        cartesian,
        min_x,
        min_y,
        max_x,
        max_y,
        offset_given,
        offset,
        scale_given,
        scale,
        longitude_strips_only,
    );
    ask_box::zoom_used(o, zoom)
}

// The state of a build.
fn state(options: Options, count: u32, starts: &[u32; 32], lens: &[u32; 32]) -> State
    ensures { result ≡ state_of options count starts.now lens.now }
{
    State {
        options,
        count,
        starts: *starts,
        lens: *lens,
    }
}

// Writes where the tables of a state start, and how long they are.
fn store(state: State, starts: &mut [u32; 32], lens: &mut [u32; 32])
    ensures { (starts.new ≡ state.starts) × (lens.new ≡ state.lens) }
{
    let first = state.starts;
    *starts = first;
    let long = state.lens;
    *lens = long;
}

// The reply of a build, as numbers: SCOPE's number is the answer, the rest goes behind pointers. A refusal leaves the two arrays as they
// were.
fn tell_load(
    reply: Result<State, Refusal>,
    starts: &mut [u32; 32],
    lens: &mut [u32; 32],
    carried: &mut usize,
) -> u32
    ensures { replied result carried.new starts.new lens.new ≡ replied_of reply starts.old lens.old }
{
    match reply {
        Ok(state) => {
            *carried = 0;
            store(state, starts, lens);
            0
        }
        Err(refused) => {
            *carried = refused.carried();
            refused.number()
        }
    }
}

// Builds the tables of N points, xs_len of them: xs and ys in the coordinates of the options, energies in watt-hours. With need =
// (max_zoom - min_zoom + 2) * N, each of the eleven columns from x to owners has at least need entries, coords twice as many. Written
// are the tables in x, y, seen, id, parent, num, energy, the finest first, their indexes in ids and coords, 0 in the first 2N of
// near, in the first need of owners each lamp's owner, N places a table, the finest first, and in starts and lens, by zoom, where
// each table starts and how long it is; what lies behind stays. Carried is 0. Refused in this order, and then nothing but carried is
// written: 1 an option, 2 N is not from 1 to 1,048,576 or ys or energies has not N, 3 a converted coordinate is not from 0 to 1, 15
// an energy above 2^40 (3 and 15 carry the first such point, from 0), 4 a column is too short.
#[unsafe(no_mangle)]
pub extern "C" fn supercluster_load(
    min_zoom: u8,
    max_zoom: u8,
    min_points: u8,
    radius: f64,
    extent: f64,
    node_size: usize,
    cartesian: bool,
    min_x: f64,
    min_y: f64,
    max_x: f64,
    max_y: f64,
    offset_given: bool,
    offset: f64,
    scale_given: bool,
    scale: f64,
    longitude_strips_only: bool,
    xs: &[f64],
    ys: &[f64],
    energies: &[u64],
    x: &mut [f64],
    y: &mut [f64],
    seen: &mut [u8],
    id: &mut [u32],
    parent: &mut [u32],
    num: &mut [u32],
    energy: &mut [u64],
    ids: &mut [u32],
    coords: &mut [f64],
    near: &mut [u32],
    owners: &mut [u32],
    starts: &mut [u32; 32],
    lens: &mut [u32; 32],
    carried: &mut usize,
) -> u32
    ensures { let o = given_options min_zoom max_zoom min_points radius extent node_size cartesian min_x min_y max_x max_y
        offset_given offset scale_given scale longitude_strips_only in
        let l = lent_all_mut x y seen id parent num energy ids coords near in
        laid (replied result carried.new starts.new lens.new) l.exit owners.new
        ≡ laid_of (loaded_with o xs.now ys.now energies.now l.entry owners.old) starts.old lens.old }
{
    let o = options(
        min_zoom,
        max_zoom,
        min_points,
        radius,
        extent,
        node_size,
        cartesian,
        min_x,
        min_y,
        max_x,
        max_y,
        offset_given,
        offset,
        scale_given,
        scale,
        longitude_strips_only,
    );
    let points = Points { xs, ys, energies };
    let mut t = TablesMut {
        x,
        y,
        seen,
        id,
        parent,
        num,
        energy,
        ids,
        coords,
        near,
    };
    let reply = owners::load(o, &points, &mut t, owners);
    tell_load(reply, starts, lens, carried)
}

// The places of the table of the zoom used in the box from (west, least_y) to (east, greatest_y), in the coordinates of the options.
// y grows downwards on a mercator map, so that least_y is the northern edge of a longitude build; on a Cartesian plan it is the
// least y as given. Written are the first entries of out, carried is how many. Refused in this order: 11 by the state, 9 a number
// that is not finite or, with longitudes, a y not from 0 to 1, 11 in the walk (out has the places before it that fit), 10 out is too
// short (carried: how many there are; out has those that fit). 9 and the first 11 write nothing.
#[unsafe(no_mangle)]
pub extern "C" fn supercluster_box(
    min_zoom: u8,
    max_zoom: u8,
    min_points: u8,
    radius: f64,
    extent: f64,
    node_size: usize,
    cartesian: bool,
    min_x: f64,
    min_y: f64,
    max_x: f64,
    max_y: f64,
    offset_given: bool,
    offset: f64,
    scale_given: bool,
    scale: f64,
    longitude_strips_only: bool,
    count: u32,
    starts: &[u32; 32],
    lens: &[u32; 32],
    ids: &[u32],
    coords: &[f64],
    zoom: u8,
    west: f64,
    least_y: f64,
    east: f64,
    greatest_y: f64,
    out: &mut [u32],
    carried: &mut usize,
) -> u32
    ensures { let o = given_options min_zoom max_zoom min_points radius extent node_size cartesian min_x min_y max_x max_y
        offset_given offset scale_given scale longitude_strips_only in
        let s = state_of o count starts.now lens.now in
        told_c result carried.new out.new ≡ told_of (box_asked s ids.now coords.now zoom west least_y east greatest_y) out.old }
{
    let o = options(
        min_zoom,
        max_zoom,
        min_points,
        radius,
        extent,
        node_size,
        cartesian,
        min_x,
        min_y,
        max_x,
        max_y,
        offset_given,
        offset,
        scale_given,
        scale,
        longitude_strips_only,
    );
    let s = state(o, count, starts, lens);
    let index = Index { ids, coords };
    let r = ask_box::list_box(s, &index, zoom, west, least_y, east, greatest_y, out);
    tell(r, carried)
}

// The same within so many tests, the allowance, which the two halves of a box that crosses the date line share. Beside what was
// found, tested is how many slots were tested, and stopped whether a test was left. Written and refused as for supercluster_box, but
// 10 and 11 in the walk look only at the tests made. 0 and 10 leave tested and stopped as they come out; the other refusals 0 and
// false.
#[unsafe(no_mangle)]
pub extern "C" fn supercluster_box_effort(
    min_zoom: u8,
    max_zoom: u8,
    min_points: u8,
    radius: f64,
    extent: f64,
    node_size: usize,
    cartesian: bool,
    min_x: f64,
    min_y: f64,
    max_x: f64,
    max_y: f64,
    offset_given: bool,
    offset: f64,
    scale_given: bool,
    scale: f64,
    longitude_strips_only: bool,
    count: u32,
    starts: &[u32; 32],
    lens: &[u32; 32],
    ids: &[u32],
    coords: &[f64],
    zoom: u8,
    west: f64,
    least_y: f64,
    east: f64,
    greatest_y: f64,
    allowance: usize,
    out: &mut [u32],
    tested: &mut usize,
    stopped: &mut bool,
    carried: &mut usize,
) -> u32
    ensures { let o = given_options min_zoom max_zoom min_points radius extent node_size cartesian min_x min_y max_x max_y
        offset_given offset scale_given scale longitude_strips_only in
        let s = state_of o count starts.now lens.now in
        effort_told result carried.new tested.new stopped.new out.new
        ≡ effort_told_of (effort_asked s ids.now coords.now zoom west least_y east greatest_y) allowance out.old }
{
    let o = options(
        min_zoom,
        max_zoom,
        min_points,
        radius,
        extent,
        node_size,
        cartesian,
        min_x,
        min_y,
        max_x,
        max_y,
        offset_given,
        offset,
        scale_given,
        scale,
        longitude_strips_only,
    );
    let s = state(o, count, starts, lens);
    let index = Index { ids, coords };
    let r = ask_effort::effort_box(
        s, &index, zoom, west, least_y, east, greatest_y, allowance, out,
    );
    tell_effort(r, carried, tested, stopped)
}

// The places of the table of the zoom used with (x - ring_x)^2 + (y - ring_y)^2 <= ring_radius^2; all are in the tables' own numbers
// from 0 to 1, nothing is converted. Written, carried and refused as for supercluster_box; 9 is a number that is not finite, or a
// radius below 0.
#[unsafe(no_mangle)]
pub extern "C" fn supercluster_ring(
    min_zoom: u8,
    max_zoom: u8,
    min_points: u8,
    radius: f64,
    extent: f64,
    node_size: usize,
    cartesian: bool,
    min_x: f64,
    min_y: f64,
    max_x: f64,
    max_y: f64,
    offset_given: bool,
    offset: f64,
    scale_given: bool,
    scale: f64,
    longitude_strips_only: bool,
    count: u32,
    starts: &[u32; 32],
    lens: &[u32; 32],
    ids: &[u32],
    coords: &[f64],
    zoom: u8,
    ring_x: f64,
    ring_y: f64,
    ring_radius: f64,
    out: &mut [u32],
    carried: &mut usize,
) -> u32
    ensures { let o = given_options min_zoom max_zoom min_points radius extent node_size cartesian min_x min_y max_x max_y
        offset_given offset scale_given scale longitude_strips_only in
        let s = state_of o count starts.now lens.now in
        told_c result carried.new out.new ≡ told_of (ring_asked s ids.now coords.now zoom ring_x ring_y ring_radius) out.old }
{
    let o = options(
        min_zoom,
        max_zoom,
        min_points,
        radius,
        extent,
        node_size,
        cartesian,
        min_x,
        min_y,
        max_x,
        max_y,
        offset_given,
        offset,
        scale_given,
        scale,
        longitude_strips_only,
    );
    let s = state(o, count, starts, lens);
    let index = Index { ids, coords };
    let r = ask_box::list_ring(s, &index, zoom, ring_x, ring_y, ring_radius, out);
    tell(r, carried)
}

// The places of the children of the cluster cid, in the table of zoom (cid - N) mod 32. Written are the first entries of out,
// carried is how many. Refused in this order: 11 by the state, 6 cid is below N, 5 its table is below min_zoom or above max_zoom +
// 1, 6 its table is that of min_zoom or its origin past the table, 11 in the walk (out has those before it that fit), 6 no children,
// 10 out is too short (carried: how many there are; out has those that fit). 5, 6 and the first 11 write nothing.
#[unsafe(no_mangle)]
pub extern "C" fn supercluster_children(
    min_zoom: u8,
    max_zoom: u8,
    min_points: u8,
    radius: f64,
    extent: f64,
    node_size: usize,
    cartesian: bool,
    min_x: f64,
    min_y: f64,
    max_x: f64,
    max_y: f64,
    offset_given: bool,
    offset: f64,
    scale_given: bool,
    scale: f64,
    longitude_strips_only: bool,
    count: u32,
    starts: &[u32; 32],
    lens: &[u32; 32],
    x: &[f64],
    y: &[f64],
    seen: &[u8],
    id: &[u32],
    parent: &[u32],
    num: &[u32],
    energy: &[u64],
    ids: &[u32],
    coords: &[f64],
    cid: u32,
    out: &mut [u32],
    carried: &mut usize,
) -> u32
    ensures { let o = given_options min_zoom max_zoom min_points radius extent node_size cartesian min_x min_y max_x max_y
        offset_given offset scale_given scale longitude_strips_only in
        let s = state_of o count starts.now lens.now in
        let c = lent_columns x y seen id parent num energy ids coords in
        told_c result carried.new out.new ≡ told_of (children_of s c cid) out.old }
{
    let o = options(
        min_zoom,
        max_zoom,
        min_points,
        radius,
        extent,
        node_size,
        cartesian,
        min_x,
        min_y,
        max_x,
        max_y,
        offset_given,
        offset,
        scale_given,
        scale,
        longitude_strips_only,
    );
    let s = state(o, count, starts, lens);
    let t = Tables {
        x,
        y,
        seen,
        id,
        parent,
        num,
        energy,
        ids,
        coords,
    };
    tell(ask_cluster::children(s, &t, cid, out), carried)
}

// The ids of the lamps of the cluster cid: at most limit of them, after the first skip. Limit 0 lists none; the cluster's num as
// limit and skip 0 lists all. Written, carried and refused as for supercluster_children.
#[unsafe(no_mangle)]
pub extern "C" fn supercluster_leaves(
    min_zoom: u8,
    max_zoom: u8,
    min_points: u8,
    radius: f64,
    extent: f64,
    node_size: usize,
    cartesian: bool,
    min_x: f64,
    min_y: f64,
    max_x: f64,
    max_y: f64,
    offset_given: bool,
    offset: f64,
    scale_given: bool,
    scale: f64,
    longitude_strips_only: bool,
    count: u32,
    starts: &[u32; 32],
    lens: &[u32; 32],
    x: &[f64],
    y: &[f64],
    seen: &[u8],
    id: &[u32],
    parent: &[u32],
    num: &[u32],
    energy: &[u64],
    ids: &[u32],
    coords: &[f64],
    cid: u32,
    limit: u32,
    skip: u32,
    out: &mut [u32],
    carried: &mut usize,
) -> u32
    ensures { let o = given_options min_zoom max_zoom min_points radius extent node_size cartesian min_x min_y max_x max_y
        offset_given offset scale_given scale longitude_strips_only in
        let s = state_of o count starts.now lens.now in
        let c = lent_columns x y seen id parent num energy ids coords in
        told_c result carried.new out.new ≡ told_of (leaves_of s c cid limit skip) out.old }
{
    let o = options(
        min_zoom,
        max_zoom,
        min_points,
        radius,
        extent,
        node_size,
        cartesian,
        min_x,
        min_y,
        max_x,
        max_y,
        offset_given,
        offset,
        scale_given,
        scale,
        longitude_strips_only,
    );
    let s = state(o, count, starts, lens);
    let t = Tables {
        x,
        y,
        seen,
        id,
        parent,
        num,
        energy,
        ids,
        coords,
    };
    tell(ask_cluster::leaves(s, &t, cid, limit, skip, out), carried)
}

// The zoom at which the cluster cid falls apart, as what is carried. Refused as supercluster_children, but 10 does not occur.
#[unsafe(no_mangle)]
pub extern "C" fn supercluster_expansion_zoom(
    min_zoom: u8,
    max_zoom: u8,
    min_points: u8,
    radius: f64,
    extent: f64,
    node_size: usize,
    cartesian: bool,
    min_x: f64,
    min_y: f64,
    max_x: f64,
    max_y: f64,
    offset_given: bool,
    offset: f64,
    scale_given: bool,
    scale: f64,
    longitude_strips_only: bool,
    count: u32,
    starts: &[u32; 32],
    lens: &[u32; 32],
    x: &[f64],
    y: &[f64],
    seen: &[u8],
    id: &[u32],
    parent: &[u32],
    num: &[u32],
    energy: &[u64],
    ids: &[u32],
    coords: &[f64],
    cid: u32,
    carried: &mut usize,
) -> u32
    ensures { let o = given_options min_zoom max_zoom min_points radius extent node_size cartesian min_x min_y max_x max_y
        offset_given offset scale_given scale longitude_strips_only in
        let s = state_of o count starts.now lens.now in
        let c = lent_columns x y seen id parent num energy ids coords in
        said result carried.new ≡ number_said (zoom_of s c cid) }
{
    let o = options(
        min_zoom,
        max_zoom,
        min_points,
        radius,
        extent,
        node_size,
        cartesian,
        min_x,
        min_y,
        max_x,
        max_y,
        offset_given,
        offset,
        scale_given,
        scale,
        longitude_strips_only,
    );
    let s = state(o, count, starts, lens);
    let t = Tables {
        x,
        y,
        seen,
        id,
        parent,
        num,
        energy,
        ids,
        coords,
    };
    let r = ask_cluster::expansion_zoom(s, &t, cid);
    tell(r.map(|z| z as usize), carried)
}

// The entries that the tile (z, tile_x, tile_y) lists: their places in the table of the zoom used, and where they stand in the tile,
// px to the right and py downwards, in units of which a side of the tile has extent. Written are the first entries of places, px and
// py, carried is how many. Refused in this order: 11 by the state, 7 no such tile, 11 in the walk (the columns have those before it
// that fit), 8 no entries, 10 the shortest of the three is too short (carried: how many there are; they have those that fit). 7, 8
// and the first 11 write nothing.
#[unsafe(no_mangle)]
pub extern "C" fn supercluster_tile(
    min_zoom: u8,
    max_zoom: u8,
    min_points: u8,
    radius: f64,
    extent: f64,
    node_size: usize,
    cartesian: bool,
    min_x: f64,
    min_y: f64,
    max_x: f64,
    max_y: f64,
    offset_given: bool,
    offset: f64,
    scale_given: bool,
    scale: f64,
    longitude_strips_only: bool,
    count: u32,
    starts: &[u32; 32],
    lens: &[u32; 32],
    x: &[f64],
    y: &[f64],
    seen: &[u8],
    id: &[u32],
    parent: &[u32],
    num: &[u32],
    energy: &[u64],
    ids: &[u32],
    coords: &[f64],
    z: u8,
    tile_x: u32,
    tile_y: u32,
    places: &mut [u32],
    px: &mut [i64],
    py: &mut [i64],
    carried: &mut usize,
) -> u32
    ensures { let o = given_options min_zoom max_zoom min_points radius extent node_size cartesian min_x min_y max_x max_y
        offset_given offset scale_given scale longitude_strips_only in
        let s = state_of o count starts.now lens.now in
        let c = lent_columns x y seen id parent num energy ids coords in
        tile_told result carried.new places.new px.new py.new
        ≡ tile_of (tiled s c z tile_x tile_y places.old px.old py.old) }
{
    let o = options(
        min_zoom,
        max_zoom,
        min_points,
        radius,
        extent,
        node_size,
        cartesian,
        min_x,
        min_y,
        max_x,
        max_y,
        offset_given,
        offset,
        scale_given,
        scale,
        longitude_strips_only,
    );
    let t = Tables {
        x,
        y,
        seen,
        id,
        parent,
        num,
        energy,
        ids,
        coords,
    };
    let s = StateParts {
        options: o,
        count,
        starts,
        lens,
    };
    let r = ask_tile::tile_lent(&s, &t, z, tile_x, tile_y, places, px, py);
    tell(r, carried)
}

// The nums of the entries that the tile (z, tile_x, tile_y) lists and whose centre it holds, added up, each entry once, as what is
// carried; 0 where it lists none. Refused in this order: 11 by the state, 7 no such tile, 11 in the walk.
#[unsafe(no_mangle)]
pub extern "C" fn supercluster_tally(
    min_zoom: u8,
    max_zoom: u8,
    min_points: u8,
    radius: f64,
    extent: f64,
    node_size: usize,
    cartesian: bool,
    min_x: f64,
    min_y: f64,
    max_x: f64,
    max_y: f64,
    offset_given: bool,
    offset: f64,
    scale_given: bool,
    scale: f64,
    longitude_strips_only: bool,
    count: u32,
    starts: &[u32; 32],
    lens: &[u32; 32],
    x: &[f64],
    y: &[f64],
    seen: &[u8],
    id: &[u32],
    parent: &[u32],
    num: &[u32],
    energy: &[u64],
    ids: &[u32],
    coords: &[f64],
    z: u8,
    tile_x: u32,
    tile_y: u32,
    carried: &mut usize,
) -> u32
    ensures { let o = given_options min_zoom max_zoom min_points radius extent node_size cartesian min_x min_y max_x max_y
        offset_given offset scale_given scale longitude_strips_only in
        let s = state_of o count starts.now lens.now in
        let c = lent_columns x y seen id parent num energy ids coords in
        said result carried.new ≡ tally_said (tallied s c z tile_x tile_y) }
{
    let o = options(
        min_zoom,
        max_zoom,
        min_points,
        radius,
        extent,
        node_size,
        cartesian,
        min_x,
        min_y,
        max_x,
        max_y,
        offset_given,
        offset,
        scale_given,
        scale,
        longitude_strips_only,
    );
    let t = Tables {
        x,
        y,
        seen,
        id,
        parent,
        num,
        energy,
        ids,
        coords,
    };
    let s = StateParts {
        options: o,
        count,
        starts,
        lens,
    };
    let r = ask_tile::tally_lent(&s, &t, z, tile_x, tile_y);
    tell_sum(r, carried)
}

// The entry that owns a lamp in the table of the zoom used: its place in that table goes into place, 0 where it is refused. owners is
// the column that a build leaves beside its tables: N places for each table, the finest first. Refused in this order: 11 by the
// state, or owners has fewer than (max_zoom - min_zoom + 2) * N entries, 16 lamp is not below N, 11 the table has no such place.
#[unsafe(no_mangle)]
pub extern "C" fn supercluster_owner(
    min_zoom: u8,
    max_zoom: u8,
    min_points: u8,
    radius: f64,
    extent: f64,
    node_size: usize,
    cartesian: bool,
    min_x: f64,
    min_y: f64,
    max_x: f64,
    max_y: f64,
    offset_given: bool,
    offset: f64,
    scale_given: bool,
    scale: f64,
    longitude_strips_only: bool,
    count: u32,
    starts: &[u32; 32],
    lens: &[u32; 32],
    owners: &[u32],
    lamp: u32,
    zoom: u8,
    place: &mut usize,
) -> u32
    ensures { let o = given_options min_zoom max_zoom min_points radius extent node_size cartesian min_x min_y max_x max_y
        offset_given offset scale_given scale longitude_strips_only in
        let s = state_of o count starts.now lens.now in
        said result place.new ≡ number_said (owner_asked s owners.now lamp zoom) }
{
    let o = options(
        min_zoom,
        max_zoom,
        min_points,
        radius,
        extent,
        node_size,
        cartesian,
        min_x,
        min_y,
        max_x,
        max_y,
        offset_given,
        offset,
        scale_given,
        scale,
        longitude_strips_only,
    );
    let s = state(o, count, starts, lens);
    tell(ask_owner::owner(s, owners, lamp, zoom), place)
}

// Replaces the figure of one lamp, in watt-hours, without a new build. energy and owners are the columns that a build leaves. Written
// are the lamp's own energy in the finest table and, in each other table, the energy of the entry that owns the lamp; all else stays,
// so that the columns are as a build with the new figure leaves them. Refused in this order, and then nothing is written: 11 by the
// state, or owners has fewer than (max_zoom - min_zoom + 2) * N entries, 16 lamp is not below N, 15 figure is above 2^40, 11 an
// owner's place is past its table, in the finest table any but the lamp itself, or its energy is below the lamp's figure so far or
// would pass 64 bits.
#[unsafe(no_mangle)]
pub extern "C" fn supercluster_post(
    min_zoom: u8,
    max_zoom: u8,
    min_points: u8,
    radius: f64,
    extent: f64,
    node_size: usize,
    cartesian: bool,
    min_x: f64,
    min_y: f64,
    max_x: f64,
    max_y: f64,
    offset_given: bool,
    offset: f64,
    scale_given: bool,
    scale: f64,
    longitude_strips_only: bool,
    count: u32,
    starts: &[u32; 32],
    lens: &[u32; 32],
    energy: &mut [u64],
    owners: &[u32],
    lamp: u32,
    figure: u64,
) -> u32
    ensures { let o = given_options min_zoom max_zoom min_points radius extent node_size cartesian min_x min_y max_x max_y
        offset_given offset scale_given scale longitude_strips_only in
        let s = state_of o count starts.now lens.now in
        post_told result energy.new ≡ post_told_of (posted s energy.old owners.now lamp figure) }
{
    let o = options(
        min_zoom,
        max_zoom,
        min_points,
        radius,
        extent,
        node_size,
        cartesian,
        min_x,
        min_y,
        max_x,
        max_y,
        offset_given,
        offset,
        scale_given,
        scale,
        longitude_strips_only,
    );
    let s = state(o, count, starts, lens);
    number(posting::post(s, energy, owners, lamp, figure))
}

// The entry at a place of the table of a zoom.
fn look_up(s: &State, t: &Tables<'_>, zoom: usize, place: usize) -> Result<Entry, Refusal>
    ensures { result ≡ entry_asked s.now (tables_held t.now) zoom place }
{
    if !s.is_sound(build_room::room(t)) {
        return Err(Refusal::Spoiled);
    }
    let o = s.options;
    if zoom < o.min_zoom as usize {
        return Err(Refusal::NoTree);
    }
    if o.max_zoom as usize + 1 < zoom {
        return Err(Refusal::NoTree);
    }
    let len = build_tables::len_of(*s, zoom);
    if len <= place {
        return Err(Refusal::NoCluster);
    }
    let start = build_tables::start_of(*s, zoom);
    let table = build_tables::table_in(t, start, len);
    Ok(table.entries.at(place))
}

// Writes an entry behind seven pointers.
fn hand(
    e: Entry,
    entry_x: &mut f64,
    entry_y: &mut f64,
    entry_seen: &mut u8,
    entry_id: &mut u32,
    entry_parent: &mut u32,
    entry_num: &mut u32,
    entry_energy: &mut u64,
)
    ensures { let l = lent_entry entry_x entry_y entry_seen entry_id entry_parent entry_num entry_energy in
        l.exit ≡ e }
{
    *entry_x = e.x;
    *entry_y = e.y;
    *entry_seen = e.seen;
    *entry_id = e.id;
    *entry_parent = e.parent;
    *entry_num = e.num;
    *entry_energy = e.energy;
}

// The entry at a place of the table of a zoom, as a box or a tile lists it: its x and y in the tables' numbers from 0 to 1
// (supercluster_denormalize gives them back), the last zoom that marked it (255: none), its id, the id of the cluster that took it
// in (4,294,967,295: none), how many lamps it has, and their watt-hours. Refused in this order, and then nothing is written: 11 by
// the state, 5 zoom is below min_zoom or above max_zoom + 1, 6 the table has no such place.
#[unsafe(no_mangle)]
pub extern "C" fn supercluster_entry(
    min_zoom: u8,
    max_zoom: u8,
    min_points: u8,
    radius: f64,
    extent: f64,
    node_size: usize,
    cartesian: bool,
    min_x: f64,
    min_y: f64,
    max_x: f64,
    max_y: f64,
    offset_given: bool,
    offset: f64,
    scale_given: bool,
    scale: f64,
    longitude_strips_only: bool,
    count: u32,
    starts: &[u32; 32],
    lens: &[u32; 32],
    x: &[f64],
    y: &[f64],
    seen: &[u8],
    id: &[u32],
    parent: &[u32],
    num: &[u32],
    energy: &[u64],
    ids: &[u32],
    coords: &[f64],
    zoom: u8,
    place: u32,
    entry_x: &mut f64,
    entry_y: &mut f64,
    entry_seen: &mut u8,
    entry_id: &mut u32,
    entry_parent: &mut u32,
    entry_num: &mut u32,
    entry_energy: &mut u64,
) -> u32
    ensures { let o = given_options min_zoom max_zoom min_points radius extent node_size cartesian min_x min_y max_x max_y
        offset_given offset scale_given scale longitude_strips_only in
        let s = state_of o count starts.now lens.now in
        let c = lent_columns x y seen id parent num energy ids coords in
        let l = lent_entry entry_x entry_y entry_seen entry_id entry_parent entry_num entry_energy in
        read_as result l.exit ≡ read_of (entry_asked s c zoom place) l.entry }
{
    let o = options(
        min_zoom,
        max_zoom,
        min_points,
        radius,
        extent,
        node_size,
        cartesian,
        min_x,
        min_y,
        max_x,
        max_y,
        offset_given,
        offset,
        scale_given,
        scale,
        longitude_strips_only,
    );
    let s = state(o, count, starts, lens);
    let t = Tables {
        x,
        y,
        seen,
        id,
        parent,
        num,
        energy,
        ids,
        coords,
    };
    match look_up(&s, &t, zoom as usize, place as usize) {
        Err(refusal) => refusal.number(),
        Ok(entry) => {
            hand(
                entry,
                entry_x,
                entry_y,
                entry_seen,
                entry_id,
                entry_parent,
                entry_num,
                entry_energy,
            );
            0
        }
    }
}
