// How many entries lent columns hold: those of a table, of an index, of a build. Every question and the build look at it first.
#![tactic(auto)]

ghost use Rattle.std.specs.Prelude.{◌≡◌, ◌/◌, min, length};
ghost use Rattle.build_tables.specs.Room.{index_room, room_by, room_of};
ghost use Rattle.build_tables.specs.Lent.{tables_held, tables_held_mut};

use build_tables::{Tables, TablesMut};
use kdsort::Index;

// How many entries the columns of the index hold.
pub fn index_room(index: &Index<'_>) -> usize
    ensures { result ≡ index_room index.now.ids.now index.now.coords.now }
{
    index.ids.len().min(index.coords.len() / 2)
}

// How many entries columns of these lengths hold, and an index with room for so many.
pub fn room_by(
    x: usize,
    y: usize,
    seen: usize,
    id: usize,
    parent: usize,
    num: usize,
    energy: usize,
    index: usize,
) -> usize
    ensures { result ≡ room_by x y seen id parent num energy index }
{
    let a = x.min(y);
    let b = seen.min(id);
    let c = parent.min(num);
    let d = energy.min(index);
    a.min(b).min(c.min(d))
}

// How many entries the nine lent columns hold.
pub fn room(t: &Tables<'_>) -> usize
    ensures { result ≡ room_of (tables_held t.now) }
{
    let index = index_room(&Index {
        ids: t.ids,
        coords: t.coords,
    });
    room_by(
        t.x.len(),
        t.y.len(),
        t.seen.len(),
        t.id.len(),
        t.parent.len(),
        t.num.len(),
        t.energy.len(),
        index,
    )
}

// How many entries columns of these lengths hold for a build: those of the tables, those of the index, and the room to work.
pub fn room_all(
    x: usize,
    y: usize,
    seen: usize,
    id: usize,
    parent: usize,
    num: usize,
    energy: usize,
    ids: usize,
    coords: usize,
    near: usize,
) -> usize
    ensures { result ≡ min (room_by x y seen id parent num energy (min ids (coords / 2))) near }
{
    let index = ids.min(coords / 2);
    let held = room_by(x, y, seen, id, parent, num, energy, index);
    held.min(near)
}

// How many entries the ten columns hold for a build.
pub fn room_for_build(tables: &TablesMut<'_>) -> usize
    ensures { result ≡ min (room_of (tables_held_mut tables.now)) (length tables.now.near.now) }
{
    room_all(
        tables.x.len(),
        tables.y.len(),
        tables.seen.len(),
        tables.id.len(),
        tables.parent.len(),
        tables.num.len(),
        tables.energy.len(),
        tables.ids.len(),
        tables.coords.len(),
        tables.near.len(),
    )
}
