// The columns as they are lent: those of a table's entries, to be read and to be written, a table with its index, and all tables.
ghost use Rattle.std.specs.Prelude.{◌≡◌, ◌+◌, ◌*◌, ◌-◌, ◌<◌, ◌≤◌, length, set};

use crate::Entry;
use kdsort::Index;

// The seven columns of a table's entries, lent to be read, each as long as the other. An entry is read as one record.
#[derive(Clone, Copy)]
pub struct Entries<'a> {
    pub x: &'a [f64],
    pub y: &'a [f64],
    pub seen: &'a [u8],
    pub id: &'a [u32],
    pub parent: &'a [u32],
    pub num: &'a [u32],
    pub energy: &'a [u64],
    ghost ey: { length y.now ≡ length x.now },
    ghost es: { length seen.now ≡ length x.now },
    ghost ei: { length id.now ≡ length x.now },
    ghost ep: { length parent.now ≡ length x.now },
    ghost en: { length num.now ≡ length x.now },
    ghost ew: { length energy.now ≡ length x.now },
}

// The same seven, lent to be written.
#[derive(Drop)]
pub struct EntriesMut<'a> {
    pub x: &'a mut [f64],
    pub y: &'a mut [f64],
    pub seen: &'a mut [u8],
    pub id: &'a mut [u32],
    pub parent: &'a mut [u32],
    pub num: &'a mut [u32],
    pub energy: &'a mut [u64],
}

// A table with its index, lent to be read: a slot for each entry at least.
#[derive(Clone, Copy)]
pub struct Table<'a> {
    pub entries: Entries<'a>,
    pub index: Index<'a>,
    ghost ids: { length entries.x.now ≤ length index.ids.now },
    ghost coords: { 2 * length entries.x.now ≤ length index.coords.now },
}

// The nine columns of all tables and their indexes, lent to be read, each of any length: what a question is asked of.
#[derive(Clone, Copy)]
pub struct Tables<'a> {
    pub x: &'a [f64],
    pub y: &'a [f64],
    pub seen: &'a [u8],
    pub id: &'a [u32],
    pub parent: &'a [u32],
    pub num: &'a [u32],
    pub energy: &'a [u64],
    pub ids: &'a [u32],
    pub coords: &'a [f64],
}

// The ten columns that a build writes: those of all tables and of their indexes, and the room to work.
// They stand side by side: a struct of structs that is made of slices would lose what is left in them.
#[derive(Drop)]
pub struct TablesMut<'a> {
    pub x: &'a mut [f64],
    pub y: &'a mut [f64],
    pub seen: &'a mut [u8],
    pub id: &'a mut [u32],
    pub parent: &'a mut [u32],
    pub num: &'a mut [u32],
    pub energy: &'a mut [u64],
    pub ids: &'a mut [u32],
    pub coords: &'a mut [f64],
    pub near: &'a mut [u32],
}

impl Entries<'_> {
    ghost use Rattle.build_tables.specs.Entries.{entry};
    ghost use Rattle.build_tables.specs.Rows.{rows, each};
    ghost use Rattle.build_tables.specs.Columns.{part};
    ghost use Rattle.build_tables.specs.Lent.{held};

    // How many entries there are.
    pub fn len(&self) -> usize
        ensures { result ≡ length self.now.x.now }
    {
        self.x.len()
    }

    // The entry at i.
    pub fn at(&self, i: usize) -> Entry
        requires { i < length self.now.x.now }
        ensures { result ≡ entry (rows (held self.now)) i }
    {
        Entry {
            x: self.x[i],
            y: self.y[i],
            seen: self.seen[i],
            id: self.id[i],
            parent: self.parent[i],
            num: self.num[i],
            energy: self.energy[i],
        }
    }

    // The entries from `from` up to `to`.
    pub fn part(&self, from: usize, to: usize) -> Entries<'_>
        requires { (from ≤ to) × (to ≤ length self.now.x.now) }
        ensures { held result ≡ each (λ A q. part from (to - from) q) (held self.now) }
    {
        Entries {
            x: &self.x[from..to],
            y: &self.y[from..to],
            seen: &self.seen[from..to],
            id: &self.id[from..to],
            parent: &self.parent[from..to],
            num: &self.num[from..to],
            energy: &self.energy[from..to],
        }
    }
}

impl EntriesMut<'_> {
    ghost use Rattle.build_tables.specs.Entries.{entry};
    ghost use Rattle.build_tables.specs.Rows.{rows};
    ghost use Rattle.build_tables.specs.Lent.{held, held_mut, SameColumns};
    ghost use Rattle.build_tables.specs.laws.Rows.{Even};

    // The same columns, to be read.
    pub fn lent(&self) -> Entries<'_>
        requires { Even (held_mut self.now) }
        ensures { held result ≡ held_mut self.now }
    {
        Entries {
            x: &*self.x,
            y: &*self.y,
            seen: &*self.seen,
            id: &*self.id,
            parent: &*self.parent,
            num: &*self.num,
            energy: &*self.energy,
        }
    }

    // The entry at i.
    pub fn at(&self, i: usize) -> Entry
        requires { Even (held_mut self.now) × (i < length self.now.x.now) }
        ensures { result ≡ entry (rows (held_mut self.now)) i }
    {
        self.lent().at(i)
    }

    // Writes the entry e at i.
    pub fn put(&mut self, i: usize, e: Entry)
        requires { Even (held_mut self.old) × (i < length self.old.x.now) }
        ensures rows { rows (held_mut self.new) ≡ set (rows (held_mut self.old)) i e }
        ensures lent { SameColumns self.old self.new }
    {
        self.x[i] = e.x;
        self.y[i] = e.y;
        self.seen[i] = e.seen;
        self.id[i] = e.id;
        self.parent[i] = e.parent;
        self.num[i] = e.num;
        self.energy[i] = e.energy;
    }
}

impl TablesMut<'_> {
    ghost use Rattle.build_tables.specs.Lent.{tables_held, tables_held_mut};

    // The columns of the tables and of their indexes, to be read.
    pub fn lent(&self) -> Tables<'_>
        ensures { tables_held result ≡ tables_held_mut self.now }
    {
        Tables {
            x: self.x,
            y: self.y,
            seen: self.seen,
            id: self.id,
            parent: self.parent,
            num: self.num,
            energy: self.energy,
            ids: self.ids,
            coords: self.coords,
        }
    }
}
