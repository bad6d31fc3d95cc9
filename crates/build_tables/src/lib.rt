// What a build is given and what it leaves: the options, the state, an entry of a table, the ids of clusters and the radius of a zoom.
// The tables stand in seven lent columns; an entry is read and written as one record of these seven.
#![tactic(auto)]

ghost use Rattle.std.specs.Prelude.{◌≡◌, ◌&&◌, ◌+◌, ◌<◌, ◌≤◌, eqb};
ghost use Rattle.build_tables.specs.Given.{setting_of, system_of};
ghost use Rattle.build_tables.specs.Options.{options_ok, zooms_ok, radius_ok, extent_ok, table_count, raised, zoom_used};
ghost use Rattle.build_tables.specs.State.{new_state, with_table, start_of, len_of};
ghost use Rattle.build_tables.specs.Sound.{is_table, packed, state_ok};
ghost use Rattle.build_tables.specs.Ids.{cluster_id, origin_of, table_of};
ghost use Rattle.build_tables.specs.Radius.{radius_at};

mod columns;
mod parts;

pub use columns::{Entries, EntriesMut, Table, Tables, TablesMut};
pub use parts::{entries_in, table_in};
use range::{CoordinateSystem, DataRange};

// What a build goes by.
#[derive(Clone, Copy)]
pub struct Options {
    pub min_zoom: u8,
    pub max_zoom: u8,
    pub min_points: u8,
    pub radius: f64,
    pub extent: f64,
    pub node_size: usize,
    pub coordinate_system: CoordinateSystem,
    // Whether a tile's strips run for longitude only: a Cartesian plan has no far side.
    pub longitude_strips_only: bool,
}

// A build, as a value: its options, its number of points, and where the table of each zoom starts and how long it is.
#[derive(Clone, Copy)]
pub struct State {
    pub options: Options,
    pub count: u32,
    pub starts: [u32; 32],
    pub lens: [u32; 32],
}

// What `seen` is before any zoom has seen an entry: it stands for the Rust's infinity.
pub const NEVER: u8 = 255;

// The most points of a build, as a state counts them.
pub const MOST_COUNT: u32 = kdslots::MOST_POINTS as u32;

// A state has its tables by zoom, 0 to 31; ids go up by as many from one origin to the next.
pub const ZOOMS: u32 = 32;

// What `parent` is where no cluster has absorbed an entry: it stands for the Rust's -1.
pub const UNSET: u32 = 4294967295;

// An entry of a table.
#[derive(Clone, Copy)]
pub struct Entry {
    pub x: f64,
    pub y: f64,
    pub seen: u8,
    pub id: u32,
    pub parent: u32,
    pub num: u32,
    pub energy: u64,
}

// An offset or a scale: this number, where one is given.
pub fn setting(given: bool, v: f64) -> Option<f64>
    ensures { result ≡ setting_of given v }
{
    if given { Some(v) } else { None }
}

// A coordinate system: Cartesian with this range, or longitude; then the range is not looked at.
pub fn system(cartesian: bool, range: DataRange) -> CoordinateSystem
    ensures { result ≡ system_of cartesian range }
{
    if cartesian {
        CoordinateSystem::Cartesian { range }
    } else {
        CoordinateSystem::LatLng
    }
}

impl Options {
    // Whether each option is within SCOPE's bounds.
    #[tactic(auto, unfolding(crate::specs::Options::options_ok))]
    pub fn is_in_bounds(self) -> bool
        ensures { result ≡ options_ok self }
    {
        self.zooms_ok()
            && self.radius_ok()
            && self.extent_ok()
            && kdslots::node_size_ok(self.node_size)
            && self.coordinate_system.is_in_bounds()
    }

    fn zooms_ok(self) -> bool
        ensures { result ≡ zooms_ok self }
    {
        self.min_zoom <= self.max_zoom && self.max_zoom <= 30
    }

    fn radius_ok(self) -> bool
        ensures { result ≡ radius_ok self }
    {
        0.0 <= self.radius && self.radius <= 65536.0
    }

    fn extent_ok(self) -> bool
        ensures { result ≡ extent_ok self }
    {
        1.0 <= self.extent && self.extent <= 65536.0
    }

    // The zoom whose table a question at this zoom goes to.
    pub fn zoom_used(self, zoom: u8) -> u8
        ensures { result ≡ zoom_used self zoom }
    {
        let z = self.raise(zoom);
        if z <= self.max_zoom {
            z
        } else {
            self.max_zoom + 1
        }
    }

    // The zoom raised to min_zoom.
    fn raise(self, zoom: u8) -> u8
        ensures { result ≡ raised self zoom }
    {
        if zoom < self.min_zoom {
            self.min_zoom
        } else {
            zoom
        }
    }
}

// Whether a table of len entries that starts at `start` starts at `at` and has 1 to n entries.
fn is_table(start: u32, len: u32, n: u32, at: usize) -> bool
    ensures { result ≡ is_table start len n at }
{
    start as usize == at && 1 <= len && len <= n
}

// How many tables a build has.
pub fn table_count(o: Options) -> usize
    requires { o.min_zoom ≤ o.max_zoom }
    ensures { result ≡ table_count o }
{
    (o.max_zoom - o.min_zoom) as usize + 2
}

impl State {
    // Whether the finest table has N entries, and the tables are packed from 0 on, the largest zoom first, within columns of cap entries.
    fn is_filled(&self, cap: usize) -> bool
        requires { let o = self.now.options in (o.min_zoom ≤ o.max_zoom) × (o.max_zoom ≤ 30) × (self.now.count ≤ 1048576) }
        ensures { let o = self.now.options in
            result ≡ (eqb (len_of self.now (o.max_zoom + 1)) self.now.count && packed self.now cap (table_count o) 0) }
    {
        let o = self.options;
        if self.lens[o.max_zoom as usize + 1] != self.count {
            return false;
        }
        let low = o.min_zoom as usize;
        let mut at = 0;
        for left in (0..table_count(o)).rev() {
            let len = self.lens[low + left];
            if !is_table(self.starts[low + left], len, self.count, at) {
                return false;
            }
            at += len as usize;
        }
        at <= cap
    }

    #[tactic(auto, unfolding(crate::specs::Sound::state_ok))]
    // Whether a question may go by this state over columns of cap entries: refusal 11 is for any other.
    pub fn is_sound(&self, cap: usize) -> bool
        ensures { result ≡ state_ok self.now cap }
    {
        if !self.options.is_in_bounds() {
            return false;
        }
        kdslots::count_ok(self.count as usize) && self.is_filled(cap)
    }
}

// Where the table of a zoom starts, and how many entries it has. The array alone is copied, not the state.
pub fn start_of(s: State, zoom: usize) -> usize
    requires { zoom < 32 }
    ensures { result ≡ start_of s zoom }
{
    let starts = s.starts;
    starts[zoom] as usize
}

pub fn len_of(s: State, zoom: usize) -> usize
    requires { zoom < 32 }
    ensures { result ≡ len_of s zoom }
{
    let lens = s.lens;
    lens[zoom] as usize
}

// A build of no tables yet.
pub fn new_state(options: Options, count: u32) -> State
    ensures { result ≡ new_state options count }
{
    State {
        options,
        count,
        starts: [0u32; 32],
        lens: [0u32; 32],
    }
}

// Adds the table of one more zoom. The state is written where its caller has it: handed over and back, it had an archive for C call
// `memcpy`, which it has no other need of.
pub fn with_table(s: &mut State, zoom: usize, start: u32, len: u32)
    requires { zoom < 32 }
    ensures { s.new ≡ with_table s.old zoom start len }
{
    s.starts[zoom] = start;
    s.lens[zoom] = len;
}

// The id of the cluster made at the place `origin` of the table zoom + 1, in a build of n points.
pub fn cluster_id(origin: usize, zoom: u8, n: u32) -> u32
    requires { (origin < 1048576) × (zoom ≤ 30) × (n ≤ 1048576) }
    ensures { result ≡ cluster_id n zoom origin }
{
    origin as u32 * ZOOMS + (zoom as u32 + 1) + n
}

// The place of the entry that a cluster was made at.
pub fn origin_of(id: u32, n: u32) -> usize
    requires { n ≤ id }
    ensures { result ≡ origin_of n id }
{
    ((id - n) / ZOOMS) as usize
}

// The table of the entry that a cluster was made at.
pub fn table_of(id: u32, n: u32) -> usize
    requires { n ≤ id }
    ensures { result ≡ table_of n id }
{
    ((id - n) % ZOOMS) as usize
}

// The radius of a zoom, in the tables' units: radius / (extent * 2^zoom).
pub fn radius_at(radius: f64, extent: f64, zoom: u8) -> f64
    requires { zoom < 32 }
    ensures { result ≡ radius_at radius extent zoom }
{
    radius / (extent * floats::power(zoom as u32))
}
