// The index: a static KD-tree over points, in two lent columns. It is built, and searched by a box (`range`) or a circle (`within`).
// The names are the Rust's kdbush.rs. Nothing is asked of the caller: what SCOPE does not take is refused with its number.
#![tactic(auto)]

ghost use Rattle.std.specs.Prelude.{◌≡◌, [], ◌∷◌, ◌+◌, ◌-◌, ◌*◌, ◌^◌, ◌≤◌, ◌<◌, length};
ghost use Rattle.kdsort.specs.Lent.{index_held_mut, SameIndex};
ghost use Rattle.kdsort.specs.Shape.{shape};
ghost use Rattle.kdslots.specs.Covers.{Covers};
ghost use Rattle.kdslots.specs.Slots.{over, when, scanned, slots};
ghost use Rattle.kdbush.specs.laws.Run.{ran, run};
ghost use Rattle.kdbush.specs.Run.{places};
ghost use Rattle.kdbush.specs.Reply.{first_outside, index_checked, built, index_ok, listed, listed_column, searched, column_after};

use kdslots::{Interval, Query, Search};
pub use kdsort::{Index, IndexMut};
use refusals::Refusal;

// Answers the slot i, if it passes: its place goes to position at, if the column reaches so far. Answers how many are found, unless the
// slot names a place past the table.
fn put(s: &Search<'_>, ids: &[u32], i: usize, at: usize, out: &mut [u32]) -> Option<usize>
    requires { (2 * i + 1 < length s.now.coords.now) × (i < length ids.now) × (at + 1 < 2 ^ 64) }
    ensures { let o = over s.now.query s.now.coords.now in
        ran result out.new ≡ run s.now.n at (places ids.now (when (o.test i) (i ∷ []))) out.old }
{
    if !kdslots::tests(s, i) {
        return Some(at);
    }
    let p = ids[i];
    if s.n <= p as usize {
        return None;
    }
    if at < out.len() {
        out[at] = p;
    }
    Some(at + 1)
}

// Answers the slots of an interval one by one.
fn scan(s: &Search<'_>, ids: &[u32], v: Interval, at: usize, out: &mut [u32]) -> Option<usize>
    requires { (2 * v.hi ≤ length s.now.coords.now) × (v.hi ≤ length ids.now) × (at + (v.hi - v.lo) < 2 ^ 64) }
    ensures { let o = over s.now.query s.now.coords.now in
        ran result out.new ≡ run s.now.n at (places ids.now (scanned o v.lo (v.hi - v.lo))) out.old }
{
    // A copy, which no store in the column can change: so its numbers are read once, and not at each slot.
    let own = *s;
    let mut k = at;
    for i in v.lo..v.hi {
        k = put(&own, ids, i, k, out)?;
    }
    Some(k)
}

// Answers the slots of an interval: at most `most` of them one by one; of more the median first, where it passes, next the right part and
// last the left one.
fn part(s: &Search<'_>, ids: &[u32], v: Interval, at: usize, out: &mut [u32]) -> Option<usize>
    requires { Covers s.now v × (v.hi ≤ length ids.now) × (at + (v.hi - v.lo) < 2 ^ 64) }
    ensures { let o = over s.now.query s.now.coords.now in
        ran result out.new ≡ run s.now.n at (places ids.now (slots o v.axis (shape (s.now.node_size + 1) v.lo v.hi))) out.old }
{
    if v.len() <= kdslots::most(s) {
        return scan(s, ids, v, at, out);
    }
    let m = v.median();
    let mut k = put(s, ids, m, at, out)?;
    if kdslots::goes_right(s, v.axis, m) {
        k = part(s, ids, v.right(), k, out)?;
    }
    if kdslots::goes_left(s, v.axis, m) {
        return part(s, ids, v.left(), k, out);
    }
    Some(k)
}

// The first point that is outside [0,1] or no number.
fn first_outside(xs: &[f64], ys: &[f64]) -> Option<usize>
    requires { length ys.now ≡ length xs.now }
    ensures { result ≡ first_outside xs.now ys.now 0 }
{
    xs.iter()
        .zip(ys)
        .position(|(x, y)| !(floats::in_unit(*x) && floats::in_unit(*y)))
}

// Builds the index of the points (xs[i], ys[i]) in the first slots of the lent columns; what lies past them keeps its contents. A refusal
// writes nothing.
pub fn build(
    node_size: usize,
    xs: &[f64],
    ys: &[f64],
    index: &mut IndexMut<'_>,
) -> Result<(), Refusal>
    ensures result_value { result ≡ index_checked node_size xs.now ys.now (index_held_mut index.old) }
    ensures index_value { index_held_mut index.new ≡ built node_size xs.now ys.now (index_held_mut index.old) }
    ensures lent { SameIndex index.old index.new }
{
    let n = xs.len();
    if !kdslots::node_size_ok(node_size) {
        return Err(Refusal::Options);
    }
    if !kdslots::count_ok(n) || ys.len() != n {
        return Err(Refusal::Count);
    }
    if let Some(i) = first_outside(xs, ys) {
        return Err(Refusal::Point(i));
    }
    if index.ids.len() < n || index.coords.len() < 2 * n {
        return Err(Refusal::Tables);
    }
    kdsort::build_index(node_size, xs, ys, index);
    Ok(())
}

// Whether the lent columns hold an index that may be searched.
fn is_index(s: &Search<'_>, ids: &[u32]) -> bool
    ensures { result ≡ index_ok s.now.node_size s.now.n ids.now s.now.coords.now }
{
    s.is_sound() && s.n <= ids.len()
}

// Writes the places that a query answers over any lent index of n slots: first items, then old contents. No number of the query is
// refused, so it never gives 9. Not part of the public surface, but for `ask_box`: a box that is given in finite numbers may be normalised
// to infinite ones, and is searched all the same.
pub fn search(s: &Search<'_>, ids: &[u32], out: &mut [u32]) -> Result<usize, Refusal>
    ensures value { let a = s.now in result ≡ listed a.query a.node_size a.n ids.now a.coords.now (length out.old) }
    ensures out_value { let a = s.now in out.new ≡ listed_column a.query a.node_size a.n ids.now a.coords.now out.old }
{
    if !is_index(s, ids) {
        return Err(Refusal::Spoiled);
    }
    let k = part(s, ids, kdslots::narrow(s, kdslots::most(s)), 0, out).ok_or(Refusal::Spoiled)?;
    if out.len() < k {
        return Err(Refusal::NoRoom(k));
    }
    Ok(k)
}

// The same, by numbers that are looked at.
fn search_finite(
    query: Query,
    node_size: usize,
    n: usize,
    index: &Index<'_>,
    out: &mut [u32],
) -> Result<usize, Refusal>
    ensures value { result ≡ searched query node_size n index.now.ids.now index.now.coords.now (length out.old) }
    ensures out_value { out.new ≡ column_after query node_size n index.now.ids.now index.now.coords.now out.old }
{
    let s = Search {
        query,
        node_size,
        n,
        coords: index.coords,
    };
    if is_index(&s, index.ids) && !query.is_ok() {
        return Err(Refusal::Box);
    }
    search(&s, index.ids, out)
}

// The places of the entries in a box.
pub fn range(
    node_size: usize,
    n: usize,
    index: &Index<'_>,
    min_x: f64,
    min_y: f64,
    max_x: f64,
    max_y: f64,
    out: &mut [u32],
) -> Result<usize, Refusal>
    ensures value { let q = Query.Range min_x min_y max_x max_y in
        result ≡ searched q node_size n index.now.ids.now index.now.coords.now (length out.old) }
    ensures out_value { let q = Query.Range min_x min_y max_x max_y in
        out.new ≡ column_after q node_size n index.now.ids.now index.now.coords.now out.old }
{
    let query = Query::Range {
        min_x,
        min_y,
        max_x,
        max_y,
    };
    search_finite(query, node_size, n, index, out)
}

// The places of the entries around (qx, qy).
pub fn within(
    node_size: usize,
    n: usize,
    index: &Index<'_>,
    qx: f64,
    qy: f64,
    radius: f64,
    out: &mut [u32],
) -> Result<usize, Refusal>
    ensures value { let q = Query.Within qx qy radius in
        result ≡ searched q node_size n index.now.ids.now index.now.coords.now (length out.old) }
    ensures out_value { let q = Query.Within qx qy radius in
        out.new ≡ column_after q node_size n index.now.ids.now index.now.coords.now out.old }
{
    let query = Query::Within { qx, qy, radius };
    search_finite(query, node_size, n, index, out)
}
