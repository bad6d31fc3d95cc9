// Parts of all tables: what a question cuts out of the columns. A part has to lie within them, which its caller shows.
ghost use Rattle.std.specs.Prelude.{◌≡◌, ◌+◌, ◌*◌, ◌-◌, ◌≤◌};
ghost use Rattle.build_tables.specs.Columns.{part};
ghost use Rattle.build_tables.specs.Lent.{held, tables_held};
ghost use Rattle.build_tables.specs.Room.{room_of};
ghost use Rattle.build_tables.specs.Rows.{each};
ghost use Rattle.build_tables.specs.laws.Roomy.{Roomy};

use crate::{Entries, Table, Tables};
use kdsort::Index;

// The table of `len` entries that starts at `start`, with its index.
pub fn table_in<'a>(t: &Tables<'a>, start: usize, len: usize) -> Table<'a>
    requires { start + len ≤ room_of (tables_held t.now) }
    ensures entries { held result.entries ≡ each (λ A q. part start len q) (tables_held t.now).table }
    ensures ids { result.index.ids.now ≡ part start len t.now.ids.now }
    ensures coords { result.index.coords.now ≡ part (2 * start) (2 * len) t.now.coords.now }
{
    let end = start + len;
    let from = 2 * start;
    let to = from + 2 * len;
    Table {
        entries: entries_in(t, start, end),
        index: Index {
            ids: &t.ids[start..end],
            coords: &t.coords[from..to],
        },
    }
}

// The entries from `start` up to `end`: the columns of the index may be of any length.
pub fn entries_in<'a>(t: &Tables<'a>, start: usize, end: usize) -> Entries<'a>
    requires { (start ≤ end) × Roomy end (tables_held t.now).table }
    ensures { held result ≡ each (λ A q. part start (end - start) q) (tables_held t.now).table }
{
    Entries {
        x: &t.x[start..end],
        y: &t.y[start..end],
        seen: &t.seen[start..end],
        id: &t.id[start..end],
        parent: &t.parent[start..end],
        num: &t.num[start..end],
        energy: &t.energy[start..end],
    }
}
