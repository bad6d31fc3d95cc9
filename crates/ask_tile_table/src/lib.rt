// What a tile lists of one table, and its tally. The table and its index stand alone in the lent columns.
#![tactic(auto)]

ghost use Rattle.std.specs.Prelude.{◌≡◌, false, cond, ◌&&◌, [], ◌∷◌, ◌+◌, ◌*◌, ◌/◌, ◌^◌, ◌<◌, ◌≤◌, T, ltb, length, set};
ghost use Rattle.std.specs.Float.Ieee.{le, neg};
ghost use Rattle.floats.specs.Numbers.{one, pow31};
ghost use Rattle.floats.specs.laws.Unit.{In01};
ghost use Rattle.kdslots.specs.laws.All.{AllBelow};
ghost use Rattle.kdwalk.specs.laws.Cursor.{head_of};
ghost use Rattle.kdpages.specs.Pages.{tail_of};
ghost use Rattle.build_tables.specs.Rows.{rows};
ghost use Rattle.build_tables.specs.Lent.{held};
ghost use Rattle.ask_tile_table.specs.Tally.{tally_value};
ghost use Rattle.ask_tile_table.specs.Tile.{is_tile, wraps, margin, side, strip, here, has_strip, strip_at, rounded, item_of};
ghost use Rattle.ask_tile_table.specs.laws.Framed.{Framed, FramedIf};
ghost use Rattle.ask_tile_table.specs.laws.Runs.{left_runs, run_tile};
ghost use Rattle.ask_tile_table.specs.laws.Turns.{named_at};
ghost use Rattle.ask_tile_table.specs.laws.Marks.{marked_places};
ghost use Rattle.ask_tile_table.specs.laws.Floor.{ends};
ghost use Rattle.ask_tile_table.specs.laws.Home.{edges_of, weight_by};
ghost use Rattle.ask_tile_table.specs.laws.Counting.{held_marks, mark_of, marks_for, doubt, added};
ghost use Rattle.ask_tile_table.specs.laws.Counting.{marking_place, counted, Within, is_unsure, settled};
ghost use Rattle.ask_tile_table.specs.laws.Told.{Blank};
ghost use Rattle.ask_tile_table.specs.laws.Asked.{table_of, walked_of, asked_visits, slots_ahead, places_ahead, Searches};
ghost use Rattle.ask_tile_table.specs.laws.Added.{counted_by, asked_tally};

mod asked;

pub use asked::AskedTile;
use build_tables::{Entries, Entry, Table};
use kdpages::Pages;
use kdslots::{Query, Search};
use range::CoordinateSystem;
use refusals::Refusal;

// One search of a tile: what it asks of the index, and what stands for the tile's x and y in the items that it finds. Its frame is no
// ghost field: the definitions have a search for any numbers.
#[derive(Clone, Copy)]
pub struct TileSearch {
    pub query: Query,
    pub node_size: usize,
    pub extent: f64,
    pub z2: f64,
    pub x: f64,
    pub y: f64,
}

// An end of a row of tiles, where the tile there has a strip.
#[derive(Clone, Copy)]
pub enum RowEnd {
    East,
    West,
}

// An entry that is listed: its place in the table, and its place in the tile.
#[derive(Clone, Copy)]
pub struct Item {
    pub place: u32,
    pub x: i64,
    pub y: i64,
}

// The edges of a tile, between which it holds an entry's centre: the first of a pair is in, the second is not.
#[derive(Clone, Copy)]
pub struct Home {
    pub west: f64,
    pub east: f64,
    pub least_y: f64,
    pub greatest_y: f64,
}

// A tally on its way: how many are listed, and their sum.
#[derive(Clone, Copy, PartialEq, Eq, Debug)]
pub struct Running {
    pub count: usize,
    pub sum: u64,
}

// What cuts a tally short: an entry that cannot be listed, or marks that cannot tell what was counted before; and the tally so far.
#[derive(Clone, Copy, PartialEq, Eq, Debug)]
pub enum Cut {
    Unlisted(Running),
    Unsure(Running),
}

// What the answer of a tally carries: the sum, 0 where it is refused.
pub fn tally_value(answer: Result<u64, Refusal>) -> u64
    ensures { result ≡ tally_value answer }
{
    match answer {
        Ok(sum) => sum,
        Err(_) => 0,
    }
}

// 2^z.
fn across(z: u32) -> u64
    requires { z < 32 }
    ensures { result ≡ 2 ^ z }
{
    1u64 << z
}

// Whether there is a tile (z, x, y).
pub fn is_tile(z: u32, x: u32, y: u32) -> bool
    ensures { result ≡ is_tile z x y }
{
    z <= 31 && (x as u64) < across(z) && (y as u64) < across(z)
}

// The entry at the place p of the table, if it can be listed.
fn entry_named(t: &Entries<'_>, p: u32) -> Option<Entry>
    ensures { result ≡ named_at (rows (held t.now)) p }
{
    let k = p as usize;
    if t.len() <= k {
        return None;
    }
    let e = t.at(k);
    if floats::in_unit(e.x) && floats::in_unit(e.y) {
        return Some(e);
    }
    None
}

// The next place that a search names, as it is read a page at a time.
fn next_place(s: &Search<'_>, ids: &[u32], page: &mut [usize], pages: &mut Pages) -> Option<u32>
    requires ahead { AllBelow s.now.n (slots_ahead s.now page.old pages.old) }
    requires named { s.now.n ≤ length ids.now }
    ensures value { result ≡ head_of (places_ahead s.now ids.now page.old pages.old) }
    ensures left { places_ahead s.now ids.now page.new pages.new ≡ tail_of (places_ahead s.now ids.now page.old pages.old) }
    ensures below { AllBelow s.now.n (slots_ahead s.now page.new pages.new) }
{
    let c = pages.next_slot(s, page)?;
    Some(ids[c])
}

impl TileSearch {
    // What it asks of the index of a table.
    fn over<'a>(&self, t: &Table<'a>) -> Search<'a>
        ensures { Searches result self.now (length t.now.entries.x.now) t.now.index.coords.now }
    {
        Search {
            query: self.query,
            node_size: self.node_size,
            n: t.entries.len(),
            coords: t.index.coords,
        }
    }

    // Where the coordinate c lies in the tile, by what stands for the tile's own.
    fn round_in(&self, c: f64, v: f64) -> i64
        requires framed { Framed self.now }
        requires in01 { In01 c }
        requires v_in { T (le (neg one) v) × T (le v pow31) }
        ensures { result ≡ rounded self.now c v }
    {
        floats::round_away(self.extent * (c * self.z2 - v))
    }

    // The item of the entry e at the place p.
    fn item_of(&self, p: u32, e: Entry) -> Item
        requires framed { Framed self.now }
        requires in01 { In01 e.x × In01 e.y }
        ensures { result ≡ item_of self.now p e }
    {
        Item {
            place: p,
            x: self.round_in(e.x, self.x),
            y: self.round_in(e.y, self.y),
        }
    }
}

// Stores the item i as the k-th in the three columns, as far as they reach.
// The columns are the three of the C names, and no struct of their own: it would be lent whole, and they are lent as far as the shortest.
fn put_item(i: Item, k: usize, out: &mut [u32], px: &mut [i64], py: &mut [i64])
    ensures { (out.new ≡ set out.old k i.place) × (px.new ≡ set px.old k i.x) × (py.new ≡ set py.old k i.y) }
{
    ask_base::put_at(out, k, i.place);
    ask_base::put_at(px, k, i.x);
    ask_base::put_at(py, k, i.y);
}

impl AskedTile<'_> {
    // The width of the margin that a tile's searches reach past it.
    fn margin(&self) -> f64
        ensures { result ≡ margin self.now.options }
    {
        self.options.radius / self.options.extent
    }

    // A search of the row, from a to b on x, where v stands for the tile's x. z2 is 2^z, which the caller has read from the table already.
    fn strip_of(&self, z2: f64, a: f64, b: f64, v: f64) -> TileSearch
        requires { z2 ≡ side self.now.z }
        ensures { let t = self.now in result ≡ strip t.options t.z t.y a b v }
    {
        let p = self.margin();
        let fy = self.y as f64;
        TileSearch {
            query: Query::Range {
                min_x: a,
                min_y: (fy - p) / z2,
                max_x: b,
                max_y: (fy + 1.0 + p) / z2,
            },
            node_size: self.options.node_size,
            extent: self.options.extent,
            z2,
            x: v,
            y: fy,
        }
    }

    // The tile's own range.
    fn own_range(&self) -> TileSearch
        ensures { let t = self.now in result ≡ here t.options t.z t.x t.y }
    {
        let p = self.margin();
        let z2 = floats::power(self.z);
        let fx = self.x as f64;
        self.strip_of(z2, (fx - p) / z2, (fx + 1.0 + p) / z2, fx)
    }

    // Whether tiles have strips: they run for longitude, and on a plan too unless the options say otherwise.
    #[tactic(auto, unfolding(crate::specs::Tile::wraps))]
    fn runs_strips(&self) -> bool
        ensures { result ≡ wraps self.now.options }
    {
        if !self.options.longitude_strips_only {
            return true;
        }
        match self.options.coordinate_system {
            CoordinateSystem::LatLng => true,
            CoordinateSystem::Cartesian { .. } => false,
        }
    }

    // Whether the tile has the strip at an end: it is the first of its row at the east, and the last at the west.
    fn has_strip(&self, end: RowEnd) -> bool
        ensures { let t = self.now in result ≡ has_strip end t.options t.z t.x }
    {
        self.runs_strips()
            && match end {
                RowEnd::East => self.x == 0,
                RowEnd::West => self.x as u64 + 1 == across(self.z),
            }
    }

    // The strip at an end of the row, if the tile has it.
    fn strip(&self, end: RowEnd) -> Option<TileSearch>
        ensures { let t = self.now in result ≡ strip_at end t.options t.z t.x t.y }
    {
        if !self.has_strip(end) {
            return None;
        }
        let z2 = floats::power(self.z);
        let e = self.margin() / z2;
        Some(match end {
            RowEnd::East => self.strip_of(z2, 1.0 - e, 1.0, z2),
            RowEnd::West => self.strip_of(z2, 0.0, e, -1.0),
        })
    }

    // Lists what a search finds, `at` being listed before; nothing where the tile has no such search.
    fn list_by(
        &self,
        search: Option<TileSearch>,
        at: usize,
        out: &mut [u32],
        px: &mut [i64],
        py: &mut [i64],
    ) -> Result<usize, Refusal>
        requires framed { FramedIf search }
        requires room { at + length self.now.table.entries.x.now < 2 ^ 64 }
        ensures { let t = table_of self.now in
            left_runs result out.new px.new py.new ≡ run_tile t at (walked_of self.now search) out.old px.old py.old }
    {
        let Some(g) = search else {
            return Ok(at);
        };
        let t = &self.table;
        let s = g.over(t);
        let mut k = at;
        let mut page = [0usize; 16];
        let mut pages = Pages::begin();
        while let Some(p) = next_place(&s, t.index.ids, &mut page, &mut pages) {
            let Some(e) = entry_named(&t.entries, p) else {
                return Err(Refusal::Spoiled);
            };
            put_item(g.item_of(p, e), k, out, px, py);
            k += 1;
        }
        Ok(k)
    }

    // Lists what the tile finds, by its own range and, at an end of its row, by the strip there.
    pub fn list(&self, out: &mut [u32], px: &mut [i64], py: &mut [i64]) -> Result<usize, Refusal>
        ensures { let t = table_of self.now in
            left_runs result out.new px.new py.new ≡ run_tile t 0 (asked_visits self.now) out.old px.old py.old }
    {
        let a = self.list_by(Some(self.own_range()), 0, out, px, py)?;
        let b = self.list_by(self.strip(RowEnd::East), a, out, px, py)?;
        self.list_by(self.strip(RowEnd::West), b, out, px, py)
    }

    // The edges of the tile.
    fn home(&self) -> Home
        ensures { let t = self.now in result ≡ edges_of t.z t.x t.y }
    {
        let z2 = floats::power(self.z);
        Home {
            west: self.x as f64 / z2,
            east: end_of(self.z, z2, self.x),
            least_y: self.y as f64 / z2,
            greatest_y: end_of(self.z, z2, self.y),
        }
    }

    // Tallies what a search finds, after what was tallied before.
    // The loop is that of `list_by` but for its step. A closure for the step leaves nothing known of the columns that it wrote;
    // a trait with two structs that hold them is no plainer.
    fn tally_by(
        &self,
        search: Option<TileSearch>,
        h: &Home,
        few: bool,
        r: Running,
        marks: &mut [u8],
    ) -> Result<Running, Cut>
        requires reach { marks_for few (length self.now.table.entries.x.now) ≤ 8 * length marks.old }
        requires count_bound { (r.count + length self.now.table.entries.x.now ≤ 4194304) × (r.sum ≤ r.count * 4294967295) }
        ensures held { held_marks result marks.new ≡ counted_by self.now few h.now search r.count r.sum marks.old }
        ensures bound { Within (r.count + length self.now.table.entries.x.now) result }
    {
        let Some(g) = search else {
            return Ok(r);
        };
        let t = &self.table;
        let s = g.over(t);
        let mut a = r;
        let mut page = [0usize; 16];
        let mut pages = Pages::begin();
        while let Some(p) = next_place(&s, t.index.ids, &mut page, &mut pages) {
            a = h.tally_one(&t.entries, p, few, a, marks)?;
        }
        Ok(a)
    }

    // The tally of what the tile finds, by its own range and, at an end of its row, by the strip there, over marks that are lent blank.
    // Where they are few, it may be unsure.
    fn add_with(&self, few: bool, marks: &mut [u8]) -> Result<Running, Cut>
        requires { Blank few (length self.now.table.entries.x.now) marks.old }
        ensures { (few && is_unsure result) ≡ false → settled result ≡ asked_tally self.now }
    {
        let home = self.home();
        let none = Running { count: 0, sum: 0 };
        let a = self.tally_by(Some(self.own_range()), &home, few, none, marks)?;
        let b = self.tally_by(self.strip(RowEnd::East), &home, few, a, marks)?;
        self.tally_by(self.strip(RowEnd::West), &home, few, b, marks)
    }

    // The tally of what the tile finds, with N bytes of marks: a mark for each place of the table.
    fn add_among<const N: usize>(&self) -> Result<Running, Running>
        requires { (N ≤ 131072) × (length self.now.table.entries.x.now ≤ 8 * N) }
        ensures { result ≡ asked_tally self.now }
    {
        let mut marks = [0u8; N];
        settled(self.add_with(false, &mut marks))
    }

    // The tally of what the tile finds, with a mark for each place of the table.
    // A smaller table has fewer marks, so that fewer are cleared.
    fn add_all(&self) -> Result<Running, Running>
        ensures { result ≡ asked_tally self.now }
    {
        if self.table.entries.len() <= 131072 {
            return self.add_among::<16384>();
        }
        self.add_among::<131072>()
    }

    // Whether few marks are not worth a try: the table is large, and has more entries than the zoom has tiles.
    fn is_crowded(&self) -> bool
        ensures { let n = length self.now.table.entries.x.now in
            let s = 2 ^ self.now.z in
            result ≡ (ltb 8192 n && ltb s (n / s)) }
    {
        let n = self.table.entries.len();
        8192 < n && across(self.z) < n as u64 / across(self.z)
    }

    // The tally of what the tile finds; or that of what comes before an entry that cannot be listed.
    // Where it finds few entries of a large table, as most do if the zoom has enough tiles, few marks tell.
    pub fn add_up(&self) -> Result<Running, Running>
        ensures { result ≡ asked_tally self.now }
    {
        if self.is_crowded() {
            return self.add_all();
        }
        let few = 8192 < self.table.entries.len();
        let mut marks = [0u8; 1024];
        match self.add_with(few, &mut marks) {
            Err(Cut::Unsure(_)) => self.add_all(),
            r => settled(r),
        }
    }
}

// A tally that was sure: what cut it short is an entry that cannot be listed.
fn settled(r: Result<Running, Cut>) -> Result<Running, Running>
    ensures { result ≡ settled r }
{
    match r {
        Ok(a) => Ok(a),
        Err(Cut::Unlisted(a)) => Err(a),
        Err(Cut::Unsure(a)) => Err(a),
    }
}

// 2^j.
fn bit(j: usize) -> u8
    requires { j < 8 }
    ensures { result ≡ 2 ^ j }
{
    1u8 << j
}

// Whether the mark q is there.
fn is_marked(marks: &[u8], q: usize) -> bool
    requires { q < 8 * length marks.now }
    ensures { result ≡ marked_places marks.now q }
{
    let b = bit(q % 8);
    marks[q / 8] / b % 2 == 1
}

// Adds num to the sum, if the mark q is not there, and sets it.
fn add_once(marks: &mut [u8], q: usize, num: u32, sum: u64) -> u64
    requires { (q < 8 * length marks.old) × (sum + 4294967295 < 2 ^ 64) }
    ensures { (result ≡ added num q sum marks.old) × (marks.new ≡ marking_place q marks.old) × (result ≤ sum + 4294967295) }
{
    if is_marked(marks, q) {
        return sum;
    }
    marks[q / 8] += bit(q % 8);
    sum + num as u64
}

// Where the tiles from v end: past every coordinate for the last, which holds 1.0 too.
fn end_of(z: u32, z2: f64, v: u32) -> f64
    requires { (z < 32) × (z2 ≡ side z) }
    ensures { result ≡ ends z v }
{
    if v as u64 + 1 == across(z) {
        return 2.0;
    }
    (v as f64 + 1.0) / z2
}

// The mark of the place p: its own, or, where marks are few, that of its remainder.
// `few` stands beside the lent marks, and no struct holds both: three functions pass them on, and it would be no plainer.
fn mark_of(few: bool, p: usize) -> usize
    ensures { result ≡ mark_of few p }
{
    if few { p % 8192 } else { p }
}

// Whether few marks cannot tell if a place was counted before: many are listed, or its mark is there.
fn in_doubt(few: bool, k: usize, there: bool) -> bool
    ensures { result ≡ doubt few k there }
{
    few && (16 <= k || there)
}

impl Home {
    // What an entry counts: its num where its centre lies between the edges, otherwise nothing.
    #[tactic(auto, unfolding(crate::specs::laws::Home::weight_by))]
    fn weigh(&self, e: Entry) -> u32
        ensures { result ≡ weight_by self.now e }
    {
        let across = self.west <= e.x && e.x < self.east;
        let along = self.least_y <= e.y && e.y < self.greatest_y;
        if across && along { e.num } else { 0 }
    }

    // Tallies the entry at the place p, after what was tallied before: it counts where its centre lies between the edges, and once.
    fn tally_one(
        &self,
        t: &Entries<'_>,
        p: u32,
        few: bool,
        r: Running,
        marks: &mut [u8],
    ) -> Result<Running, Cut>
        requires reach { marks_for few (length t.now.x.now) ≤ 8 * length marks.old }
        requires count_bound { (r.count < 4194304) × (r.sum ≤ r.count * 4294967295) }
        ensures held { held_marks result marks.new ≡ counted few (weight_by self.now) (rows (held t.now)) r.count r.sum (p ∷ []) marks.old }
        ensures bound { Within (r.count + 1) result }
    {
        let Some(e) = entry_named(t, p) else {
            return Err(Cut::Unlisted(r));
        };
        let q = mark_of(few, p as usize);
        if in_doubt(few, r.count, is_marked(marks, q)) {
            return Err(Cut::Unsure(r));
        }
        let sum = add_once(marks, q, self.weigh(e), r.sum);
        Ok(Running {
            count: r.count + 1,
            sum,
        })
    }
}
