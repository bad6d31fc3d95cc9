// One zoom, `cluster` of the Rust: the entries of a table in order, each passed by, or made a cluster with its unseen neighbours, or
// copied with them. The table stands in the first `len` rows of the lent columns, and the next one, `done` entries so far, right after
// it. An entry is read as one record.
#![tactic(auto)]

ghost use Rattle.std.specs.Prelude.{◌≡◌, ◌+◌, ◌^◌, ◌<◌, ◌≤◌, length, take};
ghost use Rattle.kdslots.specs.laws.All.{All, AllBelow};
ghost use Rattle.build_tables.specs.Entries.{entry};
ghost use Rattle.build_tables.specs.Rows.{rows};
ghost use Rattle.build_tables.specs.laws.Rows.{Even};
ghost use Rattle.build_tables.specs.Lent.{held, held_mut, SameColumns};
ghost use Rattle.build_one_zoom.specs.Zoom.{energy_of, adds, more, more_of, absorb_one, absorb, absorbed};
ghost use Rattle.build_one_zoom.specs.Zoom.{copy_one, copy_all, made_at, left_at, enough, visit, scan_one, cluster};
ghost use Rattle.build_one_zoom.specs.Scanned.{Scanned, scan_of, unseen_count, unseen_num, unseen_of};
ghost use Rattle.build_one_zoom.specs.Around.{around};
ghost use Rattle.build_one_zoom.specs.laws.Near.{Placed};
ghost use Rattle.build_one_zoom.specs.laws.Notes.{Noted, Same};
ghost use Rattle.build_one_zoom.specs.laws.Searchable.{Searchable, Zoomable};

mod zoom;

use build_tables::{Entries, EntriesMut, Entry};
pub use zoom::Zoom;

// The running sums of a cluster: coordinates times nums, and energies.
#[derive(Clone, Copy)]
struct Sums {
    x: f64,
    y: f64,
    energy: u64,
}

// The neighbour k: unseen, it is marked, gets the parent p, and adds its products and its energy.
fn absorb_one(t: &mut EntriesMut<'_>, k: usize, z: u8, p: u32, sums: Sums) -> Sums
    requires { let c = held_mut t.old in
        Even c × (k < length c.x) × (sums.energy + adds energy_of z (entry (rows c) k) < 2 ^ 64) }
    ensures rows { absorbed (rows (held_mut t.new)) result.x result.y result.energy
        ≡ absorb_one z p (absorbed (rows (held_mut t.old)) sums.x sums.y sums.energy) k }
    ensures lent { SameColumns t.old t.new }
{
    let e = t.at(k);
    if e.seen <= z {
        return sums;
    }
    t.seen[k] = z;
    t.parent[k] = p;
    let w = e.num as f64;
    Sums {
        x: sums.x + e.x * w,
        y: sums.y + e.y * w,
        energy: sums.energy + e.energy,
    }
}

// The neighbours, in answer order.
fn absorb_near(t: &mut EntriesMut<'_>, near: &[u32], z: u8, p: u32, sums: Sums) -> Sums
    requires { let c = held_mut t.old in
        let ns = near.now in
        Even c × AllBelow (length c.x) ns × (sums.energy + more_of energy_of z (rows c) ns < 2 ^ 64) }
    ensures rows { absorbed (rows (held_mut t.new)) result.x result.y result.energy
        ≡ absorb z p (absorbed (rows (held_mut t.old)) sums.x sums.y sums.energy) near.now }
    ensures lent { SameColumns t.old t.new }
{
    let mut s = sums;
    for &k in near {
        s = absorb_one(t, k as usize, z, p, s);
    }
    s
}

// The neighbour k: unseen, it is marked, and then copied as the next table's next entry.
fn copy_one(t: &mut EntriesMut<'_>, zoom: &Zoom<'_>, done: usize, k: usize) -> usize
    requires { let c = held_mut t.old in
        let len = zoom.now.len in
        Even c × (k < len) × (len + done + unseen_count zoom.now.z (take len (rows c)) ≤ length c.x) }
    ensures rows { let r = rows (held_mut t.old) in
        let len = zoom.now.len in
        Scanned len done (copy_one zoom.now.z (scan_of len done r) k) r (rows (held_mut t.new)) result }
    ensures lent { SameColumns t.old t.new }
{
    let e = t.at(k);
    if e.seen <= zoom.z {
        return done;
    }
    t.seen[k] = zoom.z;
    let mut m = e;
    m.seen = zoom.z;
    t.put(zoom.len + done, m);
    done + 1
}

// The neighbours, in answer order.
fn copy_near(t: &mut EntriesMut<'_>, zoom: &Zoom<'_>, near: &[u32], done: usize) -> usize
    requires { let c = held_mut t.old in
        let len = zoom.now.len in
        Even c × AllBelow len near.now × (len + done + unseen_count zoom.now.z (take len (rows c)) ≤ length c.x) }
    ensures rows { let r = rows (held_mut t.old) in
        let len = zoom.now.len in
        Scanned len done (copy_all zoom.now.z (scan_of len done r) near.now) r (rows (held_mut t.new)) result }
    ensures lent { SameColumns t.old t.new }
{
    let mut d = done;
    for &k in near {
        d = copy_one(t, zoom, d, k as usize);
    }
    d
}

// The entry's own num and that of each unseen neighbour.
fn total_near(t: &Entries<'_>, near: &[u32], z: u8, own: u32) -> u32
    requires { let c = held t.now in
        let ns = near.now in
        AllBelow (length c.x) ns × (own + more z (rows c) ns < 2 ^ 32) }
    ensures { result ≡ own + more z (rows (held t.now)) near.now }
{
    let mut total = own;
    for &k in near {
        let e = t.at(k as usize);
        if z < e.seen {
            total += e.num;
        }
    }
    total
}

// The entry i is made a cluster of `total` lamps with its unseen neighbours.
fn make_one(
    t: &mut EntriesMut<'_>,
    zoom: &Zoom<'_>,
    near: &[u32],
    done: usize,
    i: usize,
    total: u32,
)
    requires { let c = held_mut t.old in
        let len = zoom.now.len in
        let ns = near.now in
        Even c × AllBelow len ns × (i < len) × (len + done < length c.x)
        × ((entry (rows c) i).energy + more_of energy_of zoom.now.z (rows c) ns < 2 ^ 64) }
    ensures rows { let r = rows (held_mut t.old) in
        let len = zoom.now.len in
        Scanned len done (made_at zoom.now.count zoom.now.z i total near.now (scan_of len done r)) r (rows (held_mut t.new)) (done + 1) }
    ensures lent { SameColumns t.old t.new }
{
    let cluster = build_tables::cluster_id(i, zoom.z, zoom.count);
    let o = t.at(i);
    let own = o.num as f64;
    let from = Sums {
        x: o.x * own,
        y: o.y * own,
        energy: o.energy,
    };
    let s = absorb_near(t, near, zoom.z, cluster, from);
    t.parent[i] = cluster;
    let lamps = total as f64;
    let e = Entry {
        x: s.x / lamps,
        y: s.y / lamps,
        seen: build_tables::NEVER,
        id: cluster,
        parent: build_tables::UNSET,
        num: total,
        energy: s.energy,
    };
    t.put(zoom.len + done, e);
}

// The entry i is copied, and then its unseen neighbours.
fn leave_one(t: &mut EntriesMut<'_>, zoom: &Zoom<'_>, near: &[u32], done: usize, i: usize) -> usize
    requires { let c = held_mut t.old in
        let len = zoom.now.len in
        Even c × AllBelow len near.now × (i < len)
        × (len + done + 1 + unseen_count zoom.now.z (take len (rows c)) ≤ length c.x) }
    ensures rows { let r = rows (held_mut t.old) in
        let len = zoom.now.len in
        Scanned len done (left_at zoom.now.z i near.now (scan_of len done r)) r (rows (held_mut t.new)) result }
    ensures lent { SameColumns t.old t.new }
{
    let e = t.at(i);
    t.put(zoom.len + done, e);
    copy_near(t, zoom, near, done + 1)
}

// Whether the total exceeds the entry's own num and is at least min_points.
fn is_enough(own: u32, total: u32, least: u32) -> bool
    ensures { result ≡ enough own total least }
{
    own < total && least <= total
}

// The entry i, which is marked.
fn visit_one(t: &mut EntriesMut<'_>, zoom: &Zoom<'_>, near: &[u32], done: usize, i: usize) -> usize
    requires { let c = held_mut t.old in
        let len = zoom.now.len in
        let z = zoom.now.z in
        let ns = near.now in
        Even c × AllBelow len ns × (i < len) × (len + done + 1 + unseen_count z (take len (rows c)) ≤ length c.x)
        × ((entry (rows c) i).num + more z (rows c) ns < 2 ^ 32)
        × ((entry (rows c) i).energy + more_of energy_of z (rows c) ns < 2 ^ 64) }
    ensures rows { let r = rows (held_mut t.old) in
        let len = zoom.now.len in
        Scanned len done (visit zoom.now.count zoom.now.least zoom.now.z near.now i (scan_of len done r)) r
        (rows (held_mut t.new)) result }
    ensures lent { SameColumns t.old t.new }
{
    let e = t.at(i);
    let total = total_near(&t.lent(), near, zoom.z, e.num);
    if is_enough(e.num, total, zoom.least) {
        make_one(t, zoom, near, done, i, total);
        return done + 1;
    }
    leave_one(t, zoom, near, done, i)
}

// The entry i: passed by, or marked and visited.
fn scan_one(
    t: &mut EntriesMut<'_>,
    zoom: &Zoom<'_>,
    near: &mut [u32],
    done: usize,
    i: usize,
) -> usize
    requires { let c = held_mut t.old in
        let len = zoom.now.len in
        let z = zoom.now.z in
        let r = take len (rows c) in
        let n = zoom.now.count in
        Even c × Searchable zoom.now × (n + len ≤ length near.old) × (i < len) × All Placed r × Noted n len (around zoom.now) near.old r
        × (len + done + unseen_count z r ≤ length c.x) × (unseen_num z r < 2 ^ 32) × (unseen_of energy_of z r < 2 ^ 64) }
    ensures same { Same zoom.now.len near.old near.new }
    ensures rows { let r = rows (held_mut t.old) in
        let len = zoom.now.len in
        Scanned len done (scan_one zoom.now.count zoom.now.least zoom.now.z (around zoom.now) (scan_of len done r) i) r
        (rows (held_mut t.new)) result }
    ensures lent { SameColumns t.old t.new }
{
    let e = t.at(i);
    if e.seen <= zoom.z {
        return done;
    }
    t.seen[i] = zoom.z;
    let note = near[zoom.count as usize + i];
    let found = zoom.neighbours(near, i, note, e.x, e.y);
    visit_one(t, zoom, &near[..found], done, i)
}

// The zoom of its table: how many entries the next table has.
pub fn cluster(t: &mut EntriesMut<'_>, zoom: &Zoom<'_>, near: &mut [u32]) -> usize
    requires { let c = held_mut t.old in
        let len = zoom.now.len in
        Even c × Zoomable zoom.now (take len (rows c)) near.old × (len + len ≤ length c.x) }
    ensures rows { let r = rows (held_mut t.old) in
        let len = zoom.now.len in
        Scanned len 0 (cluster zoom.now.count zoom.now.least zoom.now.z (around zoom.now) (take len r)) r (rows (held_mut t.new)) result }
    ensures lent { SameColumns t.old t.new }
{
    zoom.note_all(near);
    let mut done = 0;
    for i in 0..zoom.len {
        done = scan_one(t, zoom, near, done, i);
    }
    done
}
