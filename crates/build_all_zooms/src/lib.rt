// The zooms of a build, one after the other: each marks its table, makes the next one right after it, and has that indexed.
// Below the public surface: what is asked of the caller `supercluster::load` has shown.
#![tactic(auto)]

ghost use Rattle.std.specs.Prelude.{◌≡◌, suc, ◌+◌, ◌-◌, ◌*◌, ◌^◌, ◌<◌, ◌≤◌, length, set, take};
ghost use Rattle.kdsort.specs.Lent.{lent_index_mut, index_held, index_held_mut, SameIndex};
ghost use Rattle.kdslots.specs.laws.All.{All};
ghost use Rattle.kdbush.specs.laws.Promise.{Promised};
ghost use Rattle.build_tables.specs.Rows.{rows};
ghost use Rattle.build_tables.specs.laws.Rows.{Even};
ghost use Rattle.build_tables.specs.Lent.{given_mut, lent_cols_mut, held_mut, SameColumns};
ghost use Rattle.build_tables.specs.Columns.{part};
ghost use Rattle.build_one_zoom.specs.Zoom.{num_of, energy_of, cluster};
ghost use Rattle.build_one_zoom.specs.Scanned.{Scanned, unseen_of};
ghost use Rattle.build_one_zoom.specs.Around.{around};
ghost use Rattle.build_one_zoom.specs.Near.{near_of};
ghost use Rattle.build_one_zoom.specs.laws.Near.{Placed, Radius};
ghost use Rattle.build_one_zoom.specs.laws.Notes.{OwnNote, Slotted};
ghost use Rattle.build_one_zoom.specs.laws.Searchable.{Zoomable};
ghost use Rattle.kdbush.specs.Reply.{index_of};
ghost use Rattle.build_all_zooms.specs.Zooms.{zoom_plan, zooms_of};
ghost use Rattle.kdbush.specs.laws.Indexed.{Inside, Indexable};
ghost use Rattle.build_all_zooms.specs.laws.Parts.{put_at};
ghost use Rattle.build_all_zooms.specs.laws.Step.{Stepped};
ghost use Rattle.build_all_zooms.specs.laws.Running.{Running, Advanced};
ghost use Rattle.build_all_zooms.specs.laws.Progress.{Finished};

use build_one_zoom::Zoom;
use build_tables::{EntriesMut, Options, State};
use kdsort::{Index, IndexMut};

// The zoom of the table at the front of the columns: the next table is made right after it. How many entries that has.
// The columns are lent one by one: of a struct behind `&mut` no parts of several fields can be lent at once.
fn zoom_front(
    x: &mut [f64],
    y: &mut [f64],
    seen: &mut [u8],
    id: &mut [u32],
    parent: &mut [u32],
    num: &mut [u32],
    energy: &mut [u64],
    zoom: &Zoom<'_>,
    near: &mut [u32],
) -> usize
    requires { let c = given_mut x y seen id parent num energy in
        let z = zoom.now in
        Even c × Zoomable z (take z.len (rows c)) near.old × (z.len + z.len ≤ length c.x) }
    ensures { let c = lent_cols_mut x y seen id parent num energy in
        let z = zoom.now in
        let t = rows c.entry in
        Scanned z.len 0 (cluster z.count z.least z.z (around z) (take z.len t)) t (rows c.exit) result }
{
    let mut t = EntriesMut {
        x,
        y,
        seen,
        id,
        parent,
        num,
        energy,
    };
    build_one_zoom::cluster(&mut t, zoom, near)
}

// The zoom of the table at `start`, in the columns from there on.
fn zoom_parts(
    x: &mut [f64],
    y: &mut [f64],
    seen: &mut [u8],
    id: &mut [u32],
    parent: &mut [u32],
    num: &mut [u32],
    energy: &mut [u64],
    zoom: &Zoom<'_>,
    near: &mut [u32],
    start: usize,
) -> usize
    requires { let c = given_mut x y seen id parent num energy in
        let z = zoom.now in
        Even c × Zoomable z (part start z.len (rows c)) near.old × (start + z.len + z.len ≤ length c.x) }
    ensures { let c = lent_cols_mut x y seen id parent num energy in
        let z = zoom.now in
        let t = part start z.len (rows c.entry) in
        Stepped start z.len (cluster z.count z.least z.z (around z) t) (rows c.entry) (rows c.exit) result }
{
    zoom_front(
        &mut x[start..],
        &mut y[start..],
        &mut seen[start..],
        &mut id[start..],
        &mut parent[start..],
        &mut num[start..],
        &mut energy[start..],
        zoom,
        near,
    )
}

// Zoom z of the table at `start`, of `len` entries, by its own index. How many entries the next table has.
fn zoom_step(
    t: &mut EntriesMut<'_>,
    index: Index<'_>,
    near: &mut [u32],
    o: Options,
    radius: f64,
    start: usize,
    len: usize,
    z: u8,
    n: u32,
) -> usize
    requires { let c = held_mut t.old in
        let t = part start len (rows c) in
        let i = index_held index in
        let around = near_of o.node_size len i.ids i.co radius in
        Even c × Promised o.node_size len i.ids i.co × Radius radius × All Placed t
        × (n + len ≤ length near.old) × (start + len + len ≤ length c.x)
        × (unseen_of num_of z t < 2 ^ 32) × (len ≤ n) × (n ≤ 1048576) × (z ≤ 30)
        × Slotted len i.ids i.co t × OwnNote len around i.ids i.co × (unseen_of energy_of z t < 2 ^ 64) }
    ensures rows { let r = rows (held_mut t.old) in
        let i = index_held index.entry in
        let around = near_of o.node_size len i.ids i.co radius in
        Stepped start len (cluster n o.min_points z around (part start len r)) r (rows (held_mut t.new)) result }
    ensures lent { SameColumns t.old t.new }
{
    let least = o.min_points as u32;
    let zoom = Zoom {
        z,
        radius,
        len,
        node_size: o.node_size,
        index,
        count: n,
        least,
    };
    zoom_parts(
        t.x, t.y, t.seen, t.id, t.parent, t.num, t.energy, &zoom, near, start,
    )
}

// Indexes the points (xs[i], ys[i]) in columns that just hold the index.
// The two columns are lent one by one: their parts cannot be lent at once out of the struct.
fn index_columns(xs: &[f64], ys: &[f64], ids: &mut [u32], coords: &mut [f64], size: usize)
    requires points { Indexable size xs.now ys.now }
    requires room { let n = length xs.now in (length ids.old ≡ n) × (length coords.old ≡ 2 * n) }
    ensures { let i = lent_index_mut ids coords in i.exit ≡ index_of size xs.now ys.now }
{
    let mut index = IndexMut { ids, coords };
    // Such points in such columns are not refused.
    let _ = kdbush::build(size, xs, ys, &mut index);
}

// Indexes the table at `start`, of `len` entries, in its own part of the index's columns.
// These are lent one by one, as in `zoom_front`.
fn index_parts(
    xs: &[f64],
    ys: &[f64],
    ids: &mut [u32],
    coords: &mut [f64],
    size: usize,
    start: usize,
    len: usize,
)
    requires le_len { (1 ≤ len) × (len ≤ 1048576) × (start ≤ 67108864) × (1 ≤ size) × (size ≤ 65535) }
    requires fact { let n = length xs.now in
        (length ys.now ≡ n) × (start + len ≤ n) × (start + len ≤ length ids.old) × ((start + len) * 2 ≤ length coords.old) }
    requires inside { Inside (part start len xs.now) (part start len ys.now) }
    ensures { let made = index_of size (part start len xs.now) (part start len ys.now) in
        let i = lent_index_mut ids coords in
        (i.exit.ids ≡ put_at start len made.ids i.entry.ids)
        × (i.exit.co ≡ put_at (start * 2) (len * 2) made.co i.entry.co) }
{
    let end = start + len;
    let c0 = start * 2;
    let c1 = end * 2;
    index_columns(
        &xs[start..end],
        &ys[start..end],
        &mut ids[start..end],
        &mut coords[c0..c1],
        size,
    );
}

// The same, of the index's columns as a struct.
pub fn index_part(
    xs: &[f64],
    ys: &[f64],
    index: &mut IndexMut<'_>,
    size: usize,
    start: usize,
    len: usize,
)
    requires le_len { (1 ≤ len) × (len ≤ 1048576) × (start ≤ 67108864) × (1 ≤ size) × (size ≤ 65535) }
    requires fact { let n = length xs.now in
        let i = index_held_mut index.old in
        (length ys.now ≡ n) × (start + len ≤ n) × (start + len ≤ length i.ids) × ((start + len) * 2 ≤ length i.co) }
    requires inside { Inside (part start len xs.now) (part start len ys.now) }
    ensures put { let made = index_of size (part start len xs.now) (part start len ys.now) in
        let i = index_held_mut index.old in
        let j = index_held_mut index.new in
        (j.ids ≡ put_at start len made.ids i.ids) × (j.co ≡ put_at (start * 2) (len * 2) made.co i.co) }
    ensures lent { SameIndex index.old index.new }
{
    index_parts(xs, ys, index.ids, index.coords, size, start, len);
}

// The part of the index that is the table's at `start`, of `len` entries, to be read.
fn own_index<'a>(index: &'a IndexMut<'_>, start: usize, len: usize) -> Index<'a>
    requires { (start + len ≤ length index.now.ids.now) × ((start + len) * 2 ≤ length index.now.coords.now) × (start ≤ 67108864) }
    ensures ids { result.ids.now ≡ part start len index.now.ids.now }
    ensures coords { result.coords.now ≡ part (start * 2) (len * 2) index.now.coords.now }
{
    let end = start + len;
    let c0 = start * 2;
    let c1 = end * 2;
    Index {
        ids: &index.ids[start..end],
        coords: &index.coords[c0..c1],
    }
}

// One zoom: the table at `start` is marked, the next one is made after it, and indexed. How many entries it has.
fn one_zoom(
    t: &mut EntriesMut<'_>,
    index: &mut IndexMut<'_>,
    near: &mut [u32],
    o: Options,
    start: usize,
    len: usize,
    z: u8,
    n: u32,
) -> usize
    requires { let c = held_mut t.old in
        let i = index_held_mut index.old in
        Even c × (n + n ≤ length near.old) × (o.min_zoom ≤ z)
        × Running (zoom_plan o n) (length c.x) (suc (z - o.min_zoom)) start len (rows c) i.ids i.co }
    ensures rows { let i = index_held_mut index.old in
        let j = index_held_mut index.new in
        Advanced (zoom_plan o n) z start len result (rows (held_mut t.old)) (rows (held_mut t.new)) i.ids j.ids i.co j.co }
    ensures lent { SameColumns t.old t.new }
    ensures index { SameIndex index.old index.new }
{
    let radius = build_tables::radius_at(o.radius, o.extent, z);
    let own = own_index(index, start, len);
    let d = zoom_step(t, own, near, o, radius, start, len, z, n);
    let made = t.lent();
    index_part(made.x, made.y, index, o.node_size, start + len, d);
    d
}

// The zooms from that below the table at 0, of n entries, down to min_zoom.
pub fn run_zooms(
    t: &mut EntriesMut<'_>,
    index: &mut IndexMut<'_>,
    near: &mut [u32],
    s: &mut State,
    n: u32,
)
    requires { let c = held_mut t.old in
        let i = index_held_mut index.old in
        let b = s.old in
        Even c × (n + n ≤ length near.old) × (b.options.min_zoom ≤ b.options.max_zoom + 1)
        × Running (zoom_plan b.options n) (length c.x) (zooms_of b.options) 0 n (rows c) i.ids i.co
        × (set b.starts (b.options.max_zoom + 1) 0 ≡ b.starts) × (set b.lens (b.options.max_zoom + 1) n ≡ b.lens) }
    ensures rows { let r = rows (held_mut t.old) in
        let i = index_held_mut index.old in
        let j = index_held_mut index.new in
        let o = s.old.options in
        Finished (zoom_plan o n) (zooms_of o) s.old s.new (part 0 n r) r (rows (held_mut t.new))
        i.ids j.ids i.co j.co }
    ensures lent { SameColumns t.old t.new }
    ensures index { SameIndex index.old index.new }
{
    let o = s.options;
    let mut start: usize = 0;
    let mut len = n as usize;
    for z in (o.min_zoom..o.max_zoom + 1).rev() {
        let d = one_zoom(t, index, near, o, start, len, z, n);
        start = start + len;
        len = d;
        build_tables::with_table(s, z as usize, start as u32, len as u32);
    }
}
