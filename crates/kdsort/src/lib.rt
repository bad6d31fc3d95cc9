// The index's build, kdbush.rs without the window block of `select`: the exchange of two slots, the partition, the selection and the sort.
// A partition makes most of its exchanges in batches, which the Rust does not: they are the same exchanges, in the same order.
// Slot p has the id ids[p] and the coordinates coords[2 * p] and coords[2 * p + 1]. The axis is 0 for x and 1 for y: a number, since it is
// added to such a place.
#![tactic(auto)]

ghost use Rattle.std.specs.Prelude.{◌≡◌, ◌+◌, ◌-◌, ◌*◌, ◌≤◌, ◌<◌, length};
ghost use Rattle.kdsort.specs.Cols.{index_cols, swap_item};
ghost use Rattle.kdsort.specs.Lent.{index_held_mut, SameIndex};
ghost use Rattle.kdsort.specs.Shape.{shape};
ghost use Rattle.kdsort.specs.Select.{cut, parted, selected};
ghost use Rattle.kdsort.specs.Sort.{sorted, indexed};
ghost use Rattle.kdsort.specs.Room.{Here, Room};
ghost use Rattle.kdsort.specs.laws.Batches.{batch_entry, Ups, Downs, Slots, exchanged, Nearer};

mod interval;

pub use interval::Interval;

// The two columns of an index, lent to be read.
#[derive(Clone, Copy)]
pub struct Index<'a> {
    pub ids: &'a [u32],
    pub coords: &'a [f64],
}

// The same, lent to be written.
#[derive(Drop)]
pub struct IndexMut<'a> {
    pub ids: &'a mut [u32],
    pub coords: &'a mut [f64],
}

// Exchanges the slots i and j. (The two columns apart: behind one reference they would be looked up anew at each store, which is slower.)
fn swap_item(ids: &mut [u32], coords: &mut [f64], i: usize, j: usize)
    requires { (i < length ids.old) × (j < length ids.old) × (2 * i + 1 < length coords.old) × (2 * j + 1 < length coords.old) }
    ensures { index_cols ids.new coords.new ≡ swap_item (index_cols ids.old coords.old) i j }
{
    ids.swap(i, j);
    coords.swap(2 * i, 2 * j);
    coords.swap(2 * i + 1, 2 * j + 1);
}

// Where the two scans of a pass go on.
#[derive(Clone, Copy)]
struct Ends {
    up: usize,
    down: usize,
}

// Writes down where a scan up from `from` stops, stop after stop within `len` slots, and at last the slot that comes after these; answers
// the number of stops. There is no branch on a coordinate, so that none is guessed wrong. (A list of a fixed length: there is no heap.)
fn stops_up(
    coords: &[f64],
    found: &mut [usize],
    from: usize,
    len: usize,
    axis: usize,
    t: f64,
) -> usize
    requires { (2 * (from + len) ≤ length coords.now) × (len < length found.old) × (axis < 2) }
    ensures { Ups axis t coords.now from (from + len) (batch_entry found.new) result }
{
    let mut n = 0;
    found[0] = from;
    for k in 0..len {
        let p = from + k;
        n += !(coords[2 * p + axis] < t) as usize;
        found[n] = p + 1;
    }
    n
}

// The same for a scan down. (Apart: one function for both would ask for the direction at every slot, three times.)
fn stops_down(
    coords: &[f64],
    found: &mut [usize],
    from: usize,
    len: usize,
    axis: usize,
    t: f64,
) -> usize
    requires { (2 * from + 1 < length coords.now) × (len ≤ from) × (len < length found.old) × (axis < 2) }
    ensures { Downs axis t coords.now from (from - len) (batch_entry found.new) result }
{
    let mut n = 0;
    found[0] = from;
    for k in 0..len {
        let p = from - k;
        n += !(coords[2 * p + axis] > t) as usize;
        found[n] = p - 1;
    }
    n
}

// Exchanges the slots of two lists, the first with the first, the second with the second, and so on.
fn exchange(ids: &mut [u32], coords: &mut [f64], ups: &[usize], downs: &[usize], count: usize)
    requires { let u = ups.now in
        let d = downs.now in
        (count ≤ length u) × (count ≤ length d) × Slots (batch_entry u) (batch_entry d) count (length ids.old) (length coords.old) }
    ensures { let s = index_cols ids.old coords.old in
        index_cols ids.new coords.new ≡ exchanged s (batch_entry ups.now) (batch_entry downs.now) count }
{
    for k in 0..count {
        swap_item(ids, coords, ups[k], downs[k]);
    }
}

// Makes the exchanges of the next passes in one batch, where i and j are far apart: the stops among some slots from i up, and among as many
// from j down, are written down first and then exchanged in pairs. Answers where the scans go on.
fn batch(index: &mut IndexMut<'_>, i: usize, j: usize, axis: usize, t: f64) -> Ends
    requires { (i ≤ j + 1) × (j < length index.old.ids.now) × (2 * j + 1 < length index.old.coords.now) × (axis < 2) }
    ensures slots { Nearer axis t (index_held_mut index.old) (index_held_mut index.new) i j result.up result.down }
    ensures lent { SameIndex index.old index.new }
{
    if j < i + 32 {
        return Ends { up: i, down: j };
    }
    let len = ((j - i) / 2).min(64);
    let mut ups = [0usize; 65];
    let mut downs = [0usize; 65];
    let coords = &mut *index.coords;
    let m = stops_up(coords, &mut ups, i, len, axis, t);
    let n = stops_down(coords, &mut downs, j, len, axis, t);
    let count = m.min(n);
    exchange(index.ids, index.coords, &ups, &downs, count);
    Ends {
        up: ups[count],
        down: downs[count],
    }
}

// Cuts the slots from left to right in two at the coordinate t that slot k has, and answers the slot between the two sides.
// Left, right and the axis are three numbers and no Interval, here and in select: both ends are inside, as in the Rust,
// and select moves them.
fn partition(index: &mut IndexMut<'_>, k: usize, left: usize, right: usize, axis: usize) -> usize
    requires { Here k left right axis (length index.old.ids.now) (length index.old.coords.now) }
    ensures slots { cut (index_held_mut index.new) result ≡ parted axis k (index_held_mut index.old) left right }
    ensures between { (left ≤ result) × (result ≤ right) }
    ensures lent { SameIndex index.old index.new }
{
    let t = index.coords[2 * k + axis];
    swap_item(index.ids, index.coords, left, k);
    if index.coords[2 * right + axis] > t {
        swap_item(index.ids, index.coords, left, right);
    }
    let mut i = left;
    let mut j = right;
    'passes: while i < j {
        swap_item(index.ids, index.coords, i, j);
        let e = batch(index, i + 1, j - 1, axis, t);
        i = e.up;
        j = e.down;
        let coords = &mut *index.coords;
        'up: while coords[2 * i + axis] < t {
            i += 1;
        }
        'down: while coords[2 * j + axis] > t {
            j -= 1;
        }
    }
    if index.coords[2 * left + axis] == t {
        swap_item(index.ids, index.coords, left, j);
        return j;
    }
    swap_item(index.ids, index.coords, j + 1, right);
    j + 1
}

// Brings to slot k the coordinate that belongs there among the slots from left to right: what stands left of k is not above it, what
// stands right not below.
fn select(index: &mut IndexMut<'_>, k: usize, first: usize, last: usize, axis: usize)
    requires room { Room (index_held_mut index.old) first last axis }
    requires first_le_k { (first ≤ k) × (k ≤ last) × (1 ≤ k) }
    ensures slots { index_held_mut index.new ≡ selected axis k (index_held_mut index.old) first last }
    ensures lent { SameIndex index.old index.new }
{
    let mut left = first;
    let mut right = last;
    while left < right {
        let j = partition(index, k, left, right, axis);
        if j <= k {
            left = j + 1;
        }
        if k <= j {
            right = j - 1;
        }
    }
}

// Sorts the slots of an interval into the order of the tree: one of more than `most` slots is split at its middle, and each side on the
// other axis.
fn sort(index: &mut IndexMut<'_>, most: usize, v: Interval)
    requires { (v.hi ≤ length index.old.ids.now) × (2 * v.hi ≤ length index.old.coords.now) × (2 ≤ most) }
    ensures slots { index_held_mut index.new ≡ sorted v.axis v.lo v.hi (shape most v.lo v.hi) (index_held_mut index.old) }
    ensures lent { SameIndex index.old index.new }
{
    if v.len() <= most {
        return;
    }
    select(index, v.median(), v.lo, v.hi - 1, v.axis);
    sort(index, most, v.left());
    sort(index, most, v.right());
}

// Builds the index of the points (xs[i], ys[i]) in the first slots of the lent columns.
pub fn build_index(node_size: usize, xs: &[f64], ys: &[f64], index: &mut IndexMut<'_>)
    requires points { let n = length xs.now in (1 ≤ n) × (n ≤ 1048576) × (length ys.now ≡ n) }
    requires room { let n = length xs.now in
        (n ≤ length index.old.ids.now) × (2 * n ≤ length index.old.coords.now) × (1 ≤ node_size) × (node_size ≤ 65535) }
    ensures built { index_held_mut index.new ≡ indexed node_size xs.now ys.now (index_held_mut index.old) }
    ensures lent { SameIndex index.old index.new }
{
    let n = xs.len();
    for i in 0..n {
        index.ids[i] = i as u32;
        index.coords[2 * i] = xs[i];
        index.coords[2 * i + 1] = ys[i];
    }
    let all = Interval {
        lo: 0,
        hi: n,
        axis: 0,
    };
    sort(index, node_size + 1, all);
}
