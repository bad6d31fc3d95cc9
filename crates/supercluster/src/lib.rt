// The public build, `load` of the Rust: the finest table of the converted points, then each zoom from max_zoom down to min_zoom, every
// table with its index. Nothing is asked of the caller: what SCOPE does not take is refused with its number, and then no column is written.
#![tactic(auto)]

ghost use Rattle.std.specs.Prelude.{◌≡◌, map, ◌+◌, ◌*◌, ◌≤◌, leb, length, replicate};
ghost use Rattle.kdsort.specs.Lent.{index_held_mut, SameIndex};
ghost use Rattle.kdbush.specs.Reply.{first_outside};
ghost use Rattle.build_tables.specs.Rows.{rows};
ghost use Rattle.build_tables.specs.laws.Rows.{Even};
ghost use Rattle.build_tables.specs.Lent.{held_mut, SameColumns, SameTables};
ghost use Rattle.build_tables.specs.Options.{options_ok};
ghost use Rattle.build_all_zooms.specs.Zooms.{laid_over};
ghost use Rattle.supercluster.specs.Build.{converted_all, finest, written, built_state, tables_of, need, first_over, triple_ok};
ghost use Rattle.supercluster.specs.Build.{ordered, outcome, loaded};
ghost use Rattle.supercluster.specs.Lent.{columns_held, given_all_mut, lent_all_mut};
ghost use Rattle.supercluster.specs.laws.Ready.{Accepted, Made};
ghost use Rattle.supercluster.specs.laws.Load.{Holds};

use build_tables::{EntriesMut, Entry, Options, State, TablesMut};
use kdsort::IndexMut;
use range::{CoordinateSystem, Point};
use refusals::Refusal;

// What a build is of: the coordinates and the energies of its points. Each is of any length: a build of others than as many is refused.
#[derive(Clone, Copy)]
pub struct Points<'a> {
    pub xs: &'a [f64],
    pub ys: &'a [f64],
    pub energies: &'a [u64],
}

// The largest energy of a point, in watt-hours: 2^40.
pub const MOST_ENERGY: u64 = 1099511627776;

// The finest table: the converted points in order.
fn fill(c: CoordinateSystem, points: &Points<'_>, t: &mut EntriesMut<'_>)
    requires { let r = held_mut t.old in
        let p = points.now in
        let n = length p.xs.now in
        Even r × (length p.ys.now ≡ n) × (n ≤ length r.x) × (n ≤ 1048576) × (length p.energies.now ≡ n) }
    ensures rows { let p = points.now in
        rows (held_mut t.new) ≡ laid_over (finest (converted_all c p.xs.now p.ys.now) p.energies.now 0) (rows (held_mut t.old)) }
    ensures lent { SameColumns t.old t.new }
{
    for place in 0..points.xs.len() {
        let p = c.convert(Point {
            x: points.xs[place],
            y: points.ys[place],
        });
        let e = Entry {
            x: p.x,
            y: p.y,
            seen: build_tables::NEVER,
            id: place as u32,
            parent: build_tables::UNSET,
            num: 1,
            energy: points.energies[place],
        };
        t.put(place, e);
    }
}

// Zeros. What is zero already is not written, so that memory that was lent and never written to is not taken up.
fn clear(near: &mut [u32])
    ensures { near.new ≡ replicate (length near.old) 0 }
{
    for word in near.iter_mut() {
        if *word != 0 {
            *word = 0;
        }
    }
}

// The build, in columns that just hold it.
fn build_in(
    o: Options,
    points: &Points<'_>,
    t: &mut EntriesMut<'_>,
    index: &mut IndexMut<'_>,
    near: &mut [u32],
) -> State
    requires { let p = points.now in
        let n = length p.xs.now in
        let c = held_mut t.old in
        let i = index_held_mut index.old in
        Even c × Accepted o p.xs.now p.ys.now p.energies.now × (length c.x ≡ need o n) × (length i.ids ≡ need o n)
        × (length i.co ≡ need o n * 2) × (length near.old ≡ n + n) }
    ensures made { let p = points.now in
        let i = index_held_mut index.old in
        let j = index_held_mut index.new in
        Made o p.xs.now p.ys.now p.energies.now result (rows (held_mut t.old)) (rows (held_mut t.new)) i.ids j.ids i.co j.co near.new }
    ensures lent { SameColumns t.old t.new }
    ensures index { SameIndex index.old index.new }
{
    let n = points.xs.len();
    fill(o.coordinate_system, points, t);
    let e = t.lent();
    build_all_zooms::index_part(e.x, e.y, index, o.node_size, 0, n);
    let count = n as u32;
    // Before the first zoom there is the finest table alone.
    let mut s = build_tables::new_state(o, count);
    build_tables::with_table(&mut s, o.max_zoom as usize + 1, 0, count);
    build_all_zooms::run_zooms(t, index, near, &mut s, count);
    clear(near);
    s
}

// The same, of columns lent one by one: what is left behind a part is known only where its columns are whole parameters.
fn build_columns(
    o: Options,
    points: &Points<'_>,
    x: &mut [f64],
    y: &mut [f64],
    seen: &mut [u8],
    id: &mut [u32],
    parent: &mut [u32],
    num: &mut [u32],
    energy: &mut [u64],
    ids: &mut [u32],
    coords: &mut [f64],
    near: &mut [u32],
) -> State
    requires { let p = points.now in
        let n = length p.xs.now in
        let l = given_all_mut x y seen id parent num energy ids coords near in
        Even l.table × Accepted o p.xs.now p.ys.now p.energies.now × (length l.table.x ≡ need o n) × (length l.ids ≡ need o n)
        × (length l.coords ≡ need o n * 2) × (length l.near ≡ n + n) }
    ensures { let p = points.now in
        let l = lent_all_mut x y seen id parent num energy ids coords near in
        Made o p.xs.now p.ys.now p.energies.now result (rows l.entry.table) (rows l.exit.table) l.entry.ids l.exit.ids
        l.entry.coords l.exit.coords l.exit.near }
{
    let mut t = EntriesMut {
        x,
        y,
        seen,
        id,
        parent,
        num,
        energy,
    };
    let mut index = IndexMut { ids, coords };
    build_in(o, points, &mut t, &mut index, near)
}

// The build, in the fronts of the columns.
// The columns are lent one by one: of a struct behind `&mut` no parts of several fields can be lent at once.
fn build_fronts(
    o: Options,
    points: &Points<'_>,
    x: &mut [f64],
    y: &mut [f64],
    seen: &mut [u8],
    id: &mut [u32],
    parent: &mut [u32],
    num: &mut [u32],
    energy: &mut [u64],
    ids: &mut [u32],
    coords: &mut [f64],
    near: &mut [u32],
) -> State
    requires { let p = points.now in
        let l = given_all_mut x y seen id parent num energy ids coords near in
        Accepted o p.xs.now p.ys.now p.energies.now × Holds (need o (length p.xs.now)) l }
    ensures { let p = points.now in
        let l = lent_all_mut x y seen id parent num energy ids coords near in
        let n = length p.xs.now in
        let ts = tables_of o p.xs.now p.ys.now p.energies.now in
        (result ≡ built_state o n ts) × (l.exit ≡ written o.node_size n ts l.entry) }
{
    let n = points.xs.len();
    let m = build_tables::table_count(o) * n;
    build_columns(
        o,
        points,
        &mut x[..m],
        &mut y[..m],
        &mut seen[..m],
        &mut id[..m],
        &mut parent[..m],
        &mut num[..m],
        &mut energy[..m],
        &mut ids[..m],
        &mut coords[..m * 2],
        &mut near[..n + n],
    )
}

// The first point that is outside [0,1], or no number, once it is converted.
fn first_outside(c: CoordinateSystem, points: &Points<'_>) -> Option<usize>
    requires { length points.now.ys.now ≡ length points.now.xs.now }
    ensures { let ps = converted_all c points.now.xs.now points.now.ys.now in
        result ≡ first_outside (map (λ p. p.x) ps) (map (λ p. p.y) ps) 0 }
{
    for i in 0..points.xs.len() {
        let p = c.convert(Point {
            x: points.xs[i],
            y: points.ys[i],
        });
        if !floats::in_unit(p.x) {
            return Some(i);
        }
        if !floats::in_unit(p.y) {
            return Some(i);
        }
    }
    None
}

// The first energy that is too large: above 2^40.
fn first_over(energies: &[u64]) -> Option<usize>
    ensures { result ≡ first_over energies.now 0 }
{
    for (i, &energy) in energies.iter().enumerate() {
        if MOST_ENERGY < energy {
            return Some(i);
        }
    }
    None
}

// The refusal of a build, if there is one, for columns with room for so many entries: 1, 2, 3, 15 and 4, in this order. Two of them carry
// the first such point.
fn check(o: Options, points: &Points<'_>, room: usize) -> Result<(), Refusal>
    ensures { let p = points.now in
        let px = p.xs.now in
        let py = p.ys.now in
        let ws = p.energies.now in
        let ps = converted_all o.coordinate_system px py in
        result ≡ ordered (options_ok o) (triple_ok px py ws) (first_outside (map (λ p. p.x) ps) (map (λ p. p.y) ps) 0)
        (first_over ws 0) (leb (need o (length px)) room) }
{
    if !o.is_in_bounds() {
        return Err(Refusal::Options);
    }
    let n = points.xs.len();
    if n < 1 {
        return Err(Refusal::Count);
    }
    if kdslots::MOST_POINTS < n {
        return Err(Refusal::Count);
    }
    if points.ys.len() != n {
        return Err(Refusal::Count);
    }
    if points.energies.len() != n {
        return Err(Refusal::Count);
    }
    if let Some(i) = first_outside(o.coordinate_system, points) {
        return Err(Refusal::Point(i));
    }
    if let Some(i) = first_over(points.energies) {
        return Err(Refusal::Energy(i));
    }
    if room < build_tables::table_count(o) * n {
        return Err(Refusal::Tables);
    }
    Ok(())
}

// Builds the tables of the points and their indexes in the lent columns, or refuses.
pub fn load(o: Options, points: &Points<'_>, t: &mut TablesMut<'_>) -> Result<State, Refusal>
    ensures value { let p = points.now in
        outcome result (columns_held t.new) ≡ loaded o p.xs.now p.ys.now p.energies.now (columns_held t.old) }
    ensures lent { SameTables t.old t.new }
{
    check(o, points, build_room::room_for_build(t))?;
    let state = build_fronts(
        o, points, t.x, t.y, t.seen, t.id, t.parent, t.num, t.energy, t.ids, t.coords, t.near,
    );
    // Field by field: handed on whole, it was copied by `memcpy`, as `build_tables::with_table` says. A field that is an array goes by a
    // variable, as the prover asks.
    let starts = state.starts;
    let lens = state.lens;
    Ok(State {
        options: state.options,
        count: state.count,
        starts,
        lens,
    })
}
