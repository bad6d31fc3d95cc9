// What is asked of an index, and what is tested at a slot of it: the tests of a search, the interval that a search begins with, and SCOPE's
// bounds of an index and of a query. Below `kdbush` and `kdwalk`, which search by them: a function may ask something of its caller.
#![tactic(auto)]

ghost use Rattle.std.specs.Prelude.{◌≡◌, ◌+◌, ◌*◌, ◌≤◌, ◌<◌, length};
ghost use Rattle.kdsort.specs.Shape.{shape};
ghost use Rattle.kdslots.specs.Query.{passes_q, on_axis, too_far, query_ok};
ghost use Rattle.kdslots.specs.Slots.{over, slots};
ghost use Rattle.kdslots.specs.Bounds.{node_size_ok, count_ok, coords_ok};

pub use kdsort::Interval;

// The most points that an index may have.
pub const MOST_POINTS: usize = 1048576;

// The largest node size.
pub const MOST_NODE_SIZE: usize = 65535;

// Whether an index may have this node size.
pub fn node_size_ok(node_size: usize) -> bool
    ensures { result ≡ node_size_ok node_size }
{
    (1..=MOST_NODE_SIZE).contains(&node_size)
}

// Whether an index may have this many points.
pub fn count_ok(n: usize) -> bool
    ensures { result ≡ count_ok n }
{
    (1..=MOST_POINTS).contains(&n)
}

// What is asked of an index: the entries of a box, or those around a place.
#[derive(Clone, Copy)]
pub enum Query {
    Range {
        min_x: f64,
        min_y: f64,
        max_x: f64,
        max_y: f64,
    },
    Within {
        qx: f64,
        qy: f64,
        radius: f64,
    },
}

// Of two coordinates the one on the axis.
fn on_axis(axis: usize, x: f64, y: f64) -> f64
    ensures { result ≡ on_axis axis x y }
{
    if axis == 0 { x } else { y }
}

// Whether the coordinate v alone lies further than the radius from p.
fn too_far(v: f64, p: f64, radius: f64) -> bool
    ensures { result ≡ too_far v p radius }
{
    let d = v - p;
    radius * radius < d * d
}

impl Query {
    // Whether it is one that SCOPE takes.
    pub fn is_ok(self) -> bool
        ensures { result ≡ query_ok self }
    {
        match self {
            Query::Range {
                min_x,
                min_y,
                max_x,
                max_y,
            } => floats::both_finite(min_x, min_y) && floats::both_finite(max_x, max_y),
            Query::Within { qx, qy, radius } => {
                floats::both_finite(qx, qy) && floats::is_finite(radius) && 0.0 <= radius
            }
        }
    }

    // Whether the point is answered.
    fn passes(self, x: f64, y: f64) -> bool
        ensures { result ≡ passes_q self x y }
    {
        match self {
            Query::Range {
                min_x,
                min_y,
                max_x,
                max_y,
            } => (x >= min_x) & (y >= min_y) & (x <= max_x) & (y <= max_y),
            Query::Within { qx, qy, radius } => {
                let dx = x - qx;
                let dy = y - qy;
                dx * dx + dy * dy <= radius * radius
            }
        }
    }
}

// A search of the first n slots of an index, by its node size. Slot p has the coordinates coords[2 * p] and coords[2 * p + 1].
#[derive(Clone, Copy)]
pub struct Search<'a> {
    pub query: Query,
    pub node_size: usize,
    pub n: usize,
    pub coords: &'a [f64],
}

impl Search<'_> {
    // Whether the coordinates of the index may be searched.
    pub fn is_sound(&self) -> bool
        ensures { let s = self.now in result ≡ coords_ok s.node_size s.n (length s.coords.now) }
    {
        node_size_ok(self.node_size) && count_ok(self.n) && 2 * self.n <= self.coords.len()
    }
}

// The most slots that are not split.
pub fn most(s: &Search<'_>) -> usize
    requires { s.now.node_size ≤ 65535 }
    ensures { result ≡ s.now.node_size + 1 }
{
    s.node_size + 1
}

// Whether the slot i is answered.
pub fn tests(s: &Search<'_>, i: usize) -> bool
    requires { 2 * i + 1 < length s.now.coords.now }
    ensures { result ≡ (over s.now.query s.now.coords.now).test i }
{
    s.query.passes(s.coords[2 * i], s.coords[2 * i + 1])
}

// Whether the part left of the median m is searched.
pub fn goes_left(s: &Search<'_>, axis: usize, m: usize) -> bool
    requires { (2 * m + 1 < length s.now.coords.now) × (axis < 2) }
    ensures { result ≡ (over s.now.query s.now.coords.now).left axis m }
{
    let v = s.coords[2 * m + axis];
    match s.query {
        Query::Range { min_x, min_y, .. } => on_axis(axis, min_x, min_y) <= v,
        Query::Within { qx, qy, radius } => {
            let p = on_axis(axis, qx, qy);
            !((v < p) & too_far(v, p, radius))
        }
    }
}

// Whether the part right of it is searched. (Apart from the left: which comparison is made decides what a NaN does.)
pub fn goes_right(s: &Search<'_>, axis: usize, m: usize) -> bool
    requires { (2 * m + 1 < length s.now.coords.now) × (axis < 2) }
    ensures { result ≡ (over s.now.query s.now.coords.now).right axis m }
{
    let v = s.coords[2 * m + axis];
    match s.query {
        Query::Range { max_x, max_y, .. } => on_axis(axis, max_x, max_y) >= v,
        Query::Within { qx, qy, radius } => {
            let p = on_axis(axis, qx, qy);
            !((p < v) & too_far(v, p, radius))
        }
    }
}

// An interval that has all that is answered: while it has more than `most` slots and only one side of its median is searched, the
// rest is left out. No median is answered there.
pub fn narrow(s: &Search<'_>, most: usize) -> Interval
    requires { 2 * s.now.n ≤ length s.now.coords.now }
    ensures hi_value { let o = over s.now.query s.now.coords.now in
        slots o result.axis (shape most result.lo result.hi) ≡ slots o 0 (shape most 0 s.now.n) }
    ensures hi_le_n { result.hi ≤ s.now.n }
{
    let mut v = Interval {
        lo: 0,
        hi: s.n,
        axis: 0,
    };
    while most < v.len() {
        let m = v.median();
        if goes_right(s, v.axis, m) {
            if goes_left(s, v.axis, m) {
                return v;
            }
            v = v.right();
        } else {
            if !goes_left(s, v.axis, m) {
                return v;
            }
            v = v.left();
        }
    }
    v
}
