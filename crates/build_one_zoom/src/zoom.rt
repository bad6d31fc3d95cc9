// A zoom of a table, and its neighbours: those around a place are searched for in the table's index, or are those of a note.
ghost use Rattle.std.specs.Prelude.{◌≡◌, List, ◌++◌, ℕ, ◌+◌, ◌*◌, ◌<◌, ◌≤◌, T, length, get_or};
ghost use Rattle.std.specs.Float.Ieee.Scale.{finite};
ghost use Rattle.kdsort.specs.Cols.{key};
ghost use Rattle.build_one_zoom.specs.laws.Near.{Answered, Radius};
ghost use Rattle.build_one_zoom.specs.laws.Notes.{Tells};

use kdslots::{Query, Search};
use kdsort::Index;

// A zoom of a table of `len` entries: its number z, the radius, the table's index, and of the build how many points it has and how many
// lamps a cluster has at least.
#[derive(Clone, Copy)]
pub struct Zoom<'a> {
    pub z: u8,
    pub radius: f64,
    pub len: usize,
    pub node_size: usize,
    pub index: Index<'a>,
    pub count: u32,
    pub least: u32,
    ghost fine: { Radius radius },
    ghost few: { len ≤ count },
    ghost count_few: { count ≤ 1048576 },
    ghost z_few: { z ≤ 30 },
}

// A note, and how many places are answered. A note is a number and no enum: it is kept in the lent column, and is made in one function
// and read in one.
#[derive(Clone, Copy)]
struct Note {
    note: u32,
    found: usize,
}

// The note of an entry at whose place these two are answered: 2 + 2 * other where it comes first, 3 + 2 * other where the other does.
fn note_of(own: u32, first: u32, second: u32) -> u32
    ensures { (l rest : List ℕ) → length l ≡ 2 → get_or (l ++ rest) 0 0 ≡ first → get_or (l ++ rest) 1 0 ≡ second → Tells own result l }
{
    if first == own {
        if build_tables::MOST_COUNT < second {
            return 0;
        }
        return 2 + 2 * second;
    }
    if second != own {
        return 0;
    }
    if build_tables::MOST_COUNT < first {
        return 0;
    }
    3 + 2 * first
}

// No notes.
fn forget(notes: &mut [u32])
    ensures { (i : ℕ) → i < length notes.old → get_or notes.new i 0 ≡ 0 }
{
    for note in notes.iter_mut() {
        *note = 0;
    }
}

impl Zoom<'_> {
    ghost use Rattle.build_tables.specs.Entries.{Table};
    ghost use Rattle.build_one_zoom.specs.Around.{around};
    ghost use Rattle.build_one_zoom.specs.laws.Notes.{Noted, Slotted, Same};
    ghost use Rattle.build_one_zoom.specs.laws.Searchable.{Searchable};

    // The note of the entry `own`, at whose place (qx, qy) two are answered.
    fn note_two(&self, own: u32, qx: f64, qy: f64) -> u32
        requires searchable { Searchable self.now }
        requires two { length (around self.now qx qy) ≡ 2 }
        ensures { Tells own result (around self.now qx qy) }
    {
        let mut two: [u32; 2] = [0; 2];
        let (size, len, r) = (self.node_size, self.len, self.radius);
        match kdbush::within(size, len, &self.index, qx, qy, r, &mut two) {
            Ok(_) => note_of(own, two[0], two[1]),
            Err(_) => 0,
        }
    }

    // The note of the entry of the slot s, from what is answered at the slot's own coordinates: 1 where that is the entry alone, and 0
    // where it is more than two.
    fn note_at(&self, s: usize) -> Note
        requires searchable { Searchable self.now }
        requires slot { s < self.now.len }
        ensures { let i = self.now.index in
            Tells (get_or i.ids.now s 0) result.note (around self.now (key 0 i.coords.now s) (key 1 i.coords.now s)) }
    {
        let coords = self.index.coords;
        let qx = coords[2 * s];
        let qy = coords[2 * s + 1];
        let radius = self.radius;
        let found = kdcount::count(&Search {
            query: Query::Within { qx, qy, radius },
            node_size: self.node_size,
            n: self.len,
            coords,
        });
        if found == 1 {
            return Note { note: 1, found };
        }
        if found != 2 {
            return Note { note: 0, found };
        }
        let note = self.note_two(self.index.ids[s], qx, qy);
        Note { note, found }
    }

    // Notes of the entries of the table, in the order of its index's slots, where one search finds in the caches what the one before it
    // read. They stand in `near` from `count` on. Where much is answered they end early: what has no note is searched for when it is
    // scanned.
    pub fn note_all(&self, near: &mut [u32])
        requires searchable { Searchable self.now }
        requires room { self.now.count + self.now.len ≤ length near.old }
        ensures { let i = self.now.index in
            (t : Table) → Slotted self.now.len i.ids.now i.coords.now t → Noted self.now.count self.now.len (around self.now) near.new t }
    {
        let notes = self.count as usize;
        forget(&mut near[notes..notes + self.len]);
        let mut left = 4 * self.len;
        for s in 0..self.len {
            let n = self.note_at(s);
            if left < n.found {
                return;
            }
            left = left - n.found;
            near[notes + self.index.ids[s] as usize] = n.note;
        }
    }

    // Lists the places around (qx, qy) at the front of `near`: how many there are.
    fn search_near(&self, near: &mut [u32], qx: f64, qy: f64) -> usize
        requires searchable { Searchable self.now }
        requires room { self.now.len ≤ length near.old }
        requires finite { T (finite qx) × T (finite qy) }
        ensures { Answered (around self.now qx qy) near.new result × Same self.now.len near.old near.new }
    {
        let (size, len, r) = (self.node_size, self.len, self.radius);
        match kdbush::within(size, len, &self.index, qx, qy, r, near) {
            Ok(k) => k,
            Err(_) => 0,
        }
    }

    // Lists the neighbours of the entry i, which is at (qx, qy), at the front of `near`: how many there are. They are those of its note,
    // or are searched for where that says nothing.
    pub fn neighbours(&self, near: &mut [u32], i: usize, note: u32, qx: f64, qy: f64) -> usize
        requires searchable { Searchable self.now }
        requires room { (self.now.len ≤ length near.old) × (i < self.now.len) }
        requires finite { T (finite qx) × T (finite qy) }
        requires tells { Tells i note (around self.now qx qy) }
        ensures { Answered (around self.now qx qy) near.new result × Same self.now.len near.old near.new }
    {
        if note == 0 {
            return self.search_near(near, qx, qy);
        }
        let own = i as u32;
        if note == 1 {
            near[0] = own;
            return 1;
        }
        let other = (note - 2) / 2;
        if note % 2 == 0 {
            near[0] = own;
            near[1] = other;
            return 2;
        }
        near[0] = other;
        near[1] = own;
        2
    }
}
