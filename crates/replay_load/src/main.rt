// Replays test vectors on the crate `supercluster`, and says whether its builds are those that the vectors expect. A vector is a line of
// standard input: words of 16 lowercase hexadecimal digits, a space after each, and a line end after the last. min_zoom max_zoom
// min_points radius extent node_size cartesian min_x min_y max_x max_y offset_given offset scale_given scale longitude_strips_only, as
// `replay_options` reads these, n, n times `x y`, n energies, m, m times `x y seen id parent num energy slot_id slot_x slot_y`, `start
// len` for each zoom from min_zoom to max_zoom + 1. The n points are built in columns that are filled with old contents. Expected are the
// m entries of all tables, the slots of their indexes at the same positions, zeros in the first 2n of `near`, the old contents past all of
// these, and in the state the options, n, and zeros as start and length of the other zooms. n goes to 64, and the tables to 1152 entries in
// all; a case beyond is not of the form, nor is one with a max_zoom that is past 30 or below min_zoom. Proved: nothing here reads or writes
// outside its columns, the verdict of a case is the equation `loads_to` of specs/, and the score is right. Assumed: what standard input
// gives is not modelled, so that the loops that read are only proved to be safe.
#![tactic(auto)]

ghost use Rattle.std.specs.Prelude.{◌≡◌, ◌*◌, ◌≤◌, length};
ghost use Rattle.build_tables.specs.laws.Rows.{Even};
ghost use Rattle.build_tables.specs.Lent.{held_mut, SameColumns};
ghost use Rattle.supercluster.specs.Lent.{columns_held};
ghost use Rattle.replay_load.specs.Same.{same_setting, same_range, same_system, same_options, same_state, state_is};
ghost use Rattle.replay_load.specs.Same.{loads_to, zeros_in, wanted};

use build_tables::{EntriesMut, Entry, Options, State, Tables, TablesMut};
use range::{CoordinateSystem, DataRange};
use refusals::Refusal;
use replay_vectors::{Function, Malformed, Verdict};
use supercluster::Points;

// What is built: the points, by these options.
#[derive(Clone, Copy)]
struct Task<'a> {
    options: Options,
    points: Points<'a>,
}

// What is expected of it: where the table of each zoom starts and how long it is, and what stands in every column.
#[derive(Clone, Copy)]
struct Wanted<'a> {
    starts: &'a [u32],
    lens: &'a [u32],
    tables: Tables<'a>,
    near: &'a [u32],
}

// What the columns hold before they are written: nothing that a build writes there.
const OLD: u32 = 0xa5a5_a5a5;

const OLD_BYTE: u8 = 0xa5;

const OLD_LONG: u64 = 0xa5a5_a5a5_a5a5_a5a5;

// Reads an entry.
fn read_entry() -> Result<Entry, Malformed> {
    Ok(Entry {
        x: replay_vectors::next(false)?,
        y: replay_vectors::next(false)?,
        seen: replay_vectors::next(false)?,
        id: replay_vectors::next(false)?,
        parent: replay_vectors::next(false)?,
        num: replay_vectors::next(false)?,
        energy: replay_vectors::next(false)?,
    })
}

// Reads the m entries that the tables are expected to have, and the slots of their indexes.
fn read_entries(
    m: usize,
    t: &mut EntriesMut<'_>,
    ids: &mut [u32],
    coords: &mut [f64],
) -> Result<(), Malformed>
    requires { let c = held_mut t.old in
        Even c × (m ≤ length c.x) × (m ≤ length ids.old) × (2 * m ≤ length coords.old) }
    ensures lent { SameColumns t.old t.new }
{
    for i in 0..m {
        t.put(i, read_entry()?);
        let slot = replay_vectors::next_slot()?;
        ids[i] = slot.id;
        coords[2 * i] = slot.x;
        coords[2 * i + 1] = slot.y;
    }
    Ok(())
}

// Reads where the table of each zoom from min_zoom to max_zoom + 1 starts, and how long it is; the last length ends its line.
fn read_tables(
    min_zoom: usize,
    max_zoom: usize,
    starts: &mut [u32; 32],
    lens: &mut [u32; 32],
) -> Result<(), Malformed>
    requires { max_zoom ≤ 30 }
{
    let end = max_zoom + 1;
    for z in min_zoom..=end {
        starts[z] = replay_vectors::next(false)?;
        lens[z] = replay_vectors::next(z == end)?;
    }
    Ok(())
}

// Zeros in the first n.
fn clear(n: usize, near: &mut [u32])
    requires { n ≤ length near.old }
    ensures { near.new ≡ zeros_in n near.old }
{
    near[..n].fill(0);
}

// Whether both are derived, or both given as the same number.
fn same_setting(a: Option<f64>, b: Option<f64>) -> bool
    ensures { result ≡ same_setting a b }
{
    match (a, b) {
        (Some(v), Some(w)) => replay_vectors::agree(v, w),
        (None, None) => true,
        _ => false,
    }
}

// Whether two ranges are the same.
#[tactic(auto, unfolding(crate::specs::Same::same_range))]
fn same_range(a: DataRange, b: DataRange) -> bool
    ensures { result ≡ same_range a b }
{
    replay_vectors::agree(a.min_x, b.min_x)
        && replay_vectors::agree(a.min_y, b.min_y)
        && replay_vectors::agree(a.max_x, b.max_x)
        && replay_vectors::agree(a.max_y, b.max_y)
        && same_setting(a.offset, b.offset)
        && same_setting(a.scale, b.scale)
}

// Whether both are longitude, or both Cartesian with the same range.
fn same_system(a: CoordinateSystem, b: CoordinateSystem) -> bool
    ensures { result ≡ same_system a b }
{
    match (a, b) {
        (CoordinateSystem::LatLng, CoordinateSystem::LatLng) => true,
        (CoordinateSystem::Cartesian { range }, CoordinateSystem::Cartesian { range: other }) => {
            same_range(range, other)
        }
        _ => false,
    }
}

// Whether two options are the same.
#[tactic(auto, unfolding(crate::specs::Same::same_options))]
fn same_options(a: Options, b: Options) -> bool
    ensures { result ≡ same_options a b }
{
    (a.min_zoom == b.min_zoom)
        && (a.max_zoom == b.max_zoom)
        && (a.min_points == b.min_points)
        && (a.node_size == b.node_size)
        && (a.longitude_strips_only == b.longitude_strips_only)
        && replay_vectors::agree(a.radius, b.radius)
        && replay_vectors::agree(a.extent, b.extent)
        && same_system(a.coordinate_system, b.coordinate_system)
}

// Whether the tables of a state start where they are expected to, and are as long, and it has the number of points and the options as
// given. Each comparison is made, by `&`, so that the proof has them in a row.
fn same_state(o: Options, n: usize, starts: &[u32], lens: &[u32], s: State) -> bool
    ensures { result ≡ same_state o n starts.now lens.now s }
{
    let State {
        options,
        count,
        starts: made,
        lens: long,
    } = s;
    (starts == &made[..]) & (lens == &long[..]) & (n == count as usize) & same_options(o, options)
}

// Whether a build is not refused, and its state is as expected.
fn is_built(
    o: Options,
    n: usize,
    starts: &[u32],
    lens: &[u32],
    reply: Result<State, Refusal>,
) -> bool
    ensures { result ≡ state_is o n starts.now lens.now reply }
{
    match reply {
        Ok(s) => same_state(o, n, starts, lens, s),
        Err(_) => false,
    }
}

// Builds the tables of points in lent columns, and says whether that is not refused, and its state and its columns are
// those expected, to their ends. Each comparison is made, by `&`, as in `same_state`.
fn loads(task: &Task<'_>, want: &Wanted<'_>, t: &mut TablesMut<'_>) -> bool
    ensures { let k = task.now in
        let p = k.points in
        let w = want.now in
        result ≡ loads_to k.options p.xs.now p.ys.now p.energies.now w.starts.now w.lens.now (wanted w) (columns_held t.old) }
{
    let o = task.options;
    let reply = supercluster::load(o, &task.points, t);
    let w = &want.tables;
    is_built(o, task.points.xs.len(), want.starts, want.lens, reply)
        & replay_vectors::same_floats(w.x, t.x)
        & replay_vectors::same_floats(w.y, t.y)
        & (w.seen == &*t.seen)
        & (w.id == &*t.id)
        & (w.parent == &*t.parent)
        & (w.num == &*t.num)
        & (w.energy == &*t.energy)
        & (w.ids == &*t.ids)
        & replay_vectors::same_floats(w.coords, t.coords)
        & (want.near == &*t.near)
}

// Builds the tables of points in columns of old contents, and says whether that comes out as expected.
fn replay_load(task: &Task<'_>, want: &Wanted<'_>) -> Verdict {
    let mut x = [-1.5; 1152];
    let mut y = [-1.5; 1152];
    let mut seen = [OLD_BYTE; 1152];
    let mut id = [OLD; 1152];
    let mut parent = [OLD; 1152];
    let mut num = [OLD; 1152];
    let mut energy = [OLD_LONG; 1152];
    let mut ids = [OLD; 1152];
    let mut coords = [-1.5; 2304];
    let mut near = [OLD; 1152];
    let mut t = TablesMut {
        x: &mut x,
        y: &mut y,
        seen: &mut seen,
        id: &mut id,
        parent: &mut parent,
        num: &mut num,
        energy: &mut energy,
        ids: &mut ids,
        coords: &mut coords,
        near: &mut near,
    };
    replay_vectors::judged(loads(task, want, &mut t), Function::Load)
}

// Reads where the tables that are expected start and how long they are, and builds the points.
fn replay_state(
    task: &Task<'_>,
    min_zoom: usize,
    max_zoom: usize,
    tables: &Tables<'_>,
) -> Result<Verdict, Malformed>
    requires { (max_zoom ≤ 30) × (length task.now.points.xs.now ≤ 64) }
{
    let mut near = [OLD; 1152];
    let mut starts = [0u32; 32];
    let mut lens = [0u32; 32];
    read_tables(min_zoom, max_zoom, &mut starts, &mut lens)?;
    clear(2 * task.points.xs.len(), &mut near);
    let want = Wanted {
        starts: &starts,
        lens: &lens,
        tables: *tables,
        near: &near,
    };
    Ok(replay_load(task, &want))
}

// Reads what is expected of a build of points, and builds them.
fn replay_tables(task: &Task<'_>, min_zoom: usize, max_zoom: usize) -> Result<Verdict, Malformed>
    requires { (max_zoom ≤ 30) × (length task.now.points.xs.now ≤ 64) }
{
    let m = replay_vectors::next_count(1152, false)?;
    let mut x = [-1.5; 1152];
    let mut y = [-1.5; 1152];
    let mut seen = [OLD_BYTE; 1152];
    let mut id = [OLD; 1152];
    let mut parent = [OLD; 1152];
    let mut num = [OLD; 1152];
    let mut energy = [OLD_LONG; 1152];
    let mut ids = [OLD; 1152];
    let mut coords = [-1.5; 2304];
    let mut entries = EntriesMut {
        x: &mut x,
        y: &mut y,
        seen: &mut seen,
        id: &mut id,
        parent: &mut parent,
        num: &mut num,
        energy: &mut energy,
    };
    read_entries(m, &mut entries, &mut ids, &mut coords)?;
    let tables = Tables {
        x: &x,
        y: &y,
        seen: &seen,
        id: &id,
        parent: &parent,
        num: &num,
        energy: &energy,
        ids: &ids,
        coords: &coords,
    };
    replay_state(task, min_zoom, max_zoom, &tables)
}

// Reads the options, past the two zooms, and the points of a case, and replays it.
fn replay_points(min_zoom: usize, max_zoom: usize) -> Result<Verdict, Malformed>
    requires { (min_zoom ≤ max_zoom) × (max_zoom ≤ 30) }
{
    let options = replay_options::read_options(min_zoom as u8, max_zoom as u8)?;
    let n = replay_vectors::next_count(64, false)?;
    if 1152 < (max_zoom - min_zoom + 2) * n {
        return Err(Malformed);
    }
    let mut xs = [0.0; 64];
    let mut ys = [0.0; 64];
    let mut energies = [0u64; 64];
    replay_vectors::read_points(&mut xs[..n], &mut ys[..n])?;
    replay_vectors::read_values(false, &mut energies[..n])?;
    let points = Points {
        xs: &xs[..n],
        ys: &ys[..n],
        energies: &energies[..n],
    };
    let task = Task { options, points };
    replay_tables(&task, min_zoom, max_zoom)
}

// Replays the case that begins with this word.
fn replay_case(bits: u64) -> Result<Verdict, Malformed> {
    let min_zoom = replay_vectors::count_of(bits, 30)?;
    let max_zoom = replay_vectors::next_count(30, false)?;
    if max_zoom < min_zoom {
        return Err(Malformed);
    }
    replay_points(min_zoom, max_zoom)
}

// Replays standard input, and writes how that ended.
fn main() {
    replay_vectors::say_ending(replay_vectors::replay_words(replay_case));
}
