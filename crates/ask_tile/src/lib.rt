// The questions 'tile' and 'tile tally' to a build. Nothing is asked of the caller: what SCOPE does not take is refused with its number.
#![tactic(auto)]

ghost use Rattle.std.specs.Prelude.{◌≡◌};
ghost use Rattle.build_tables.specs.Lent.{tables_held};
ghost use Rattle.ask_tile.specs.Asked.{whole_state, some_of, tile_outcome, tiled};
ghost use Rattle.ask_tile.specs.Tallied.{tallied};
ghost use Rattle.ask_tile.specs.laws.Used.{AsksOr};

use ask_base::Answer;
use ask_tile_table::AskedTile;
use build_tables::{Options, State, Tables};
use refusals::Refusal;

// A state by its parts: a caller that holds its arrays elsewhere lends them, so that they are read in place.
#[derive(Clone, Copy)]
pub struct StateParts<'a> {
    pub options: Options,
    pub count: u32,
    pub starts: &'a [u32; 32],
    pub lens: &'a [u32; 32],
}

// The tile (z, x, y), asked of the table of the zoom used; refused where no question may go by the state, or there is no such tile.
fn ask<'a>(
    s: &StateParts<'_>,
    t: &Tables<'a>,
    z: u8,
    x: u32,
    y: u32,
) -> Result<AskedTile<'a>, Refusal>
    ensures { AsksOr (whole_state s.now) (tables_held t.now) z x y result }
{
    let state = State {
        options: s.options,
        count: s.count,
        starts: *s.starts,
        lens: *s.lens,
    };
    if !state.is_sound(build_room::room(t)) {
        return Err(Refusal::Spoiled);
    }
    if !ask_tile_table::is_tile(z as u32, x, y) {
        return Err(Refusal::Tile);
    }
    let u = s.options.zoom_used(z) as usize;
    let table = build_tables::table_in(t, s.starts[u] as usize, s.lens[u] as usize);
    Ok(AskedTile {
        options: s.options,
        z: z as u32,
        x,
        y,
        table,
    })
}

// The answer of k items, for columns of so many.
fn some_of(k: usize, room: usize) -> Answer
    ensures { result ≡ some_of k room }
{
    if k == 0 {
        return Err(Refusal::EmptyTile);
    }
    ask_base::fit(k, room)
}

// The entries that the tile (z, x, y) lists: their places in the table of the zoom used, and their places in the tile; of a state that is
// given by its parts.
pub fn tile_lent(
    s: &StateParts<'_>,
    t: &Tables<'_>,
    z: u8,
    x: u32,
    y: u32,
    places: &mut [u32],
    px: &mut [i64],
    py: &mut [i64],
) -> Answer
    ensures { tile_outcome result places.new px.new py.new
        ≡ tiled (whole_state s.now) (tables_held t.now) z x y places.old px.old py.old }
{
    let a = ask(s, t, z, x, y)?;
    let room = places.len().min(px.len().min(py.len()));
    let listed = a.list(&mut places[..room], &mut px[..room], &mut py[..room]);
    some_of(listed?, room)
}

// The nums of the entries that the tile (z, x, y) lists and whose centre it holds, added up, each entry once; of a state that is given by
// its parts.
pub fn tally_lent(s: &StateParts<'_>, t: &Tables<'_>, z: u8, x: u32, y: u32) -> Result<u64, Refusal>
    ensures { result ≡ tallied (whole_state s.now) (tables_held t.now) z x y }
{
    match ask(s, t, z, x, y)?.add_up() {
        Ok(r) => Ok(r.sum),
        Err(_) => Err(Refusal::Spoiled),
    }
}

// The parts of a state.
fn parts(s: &State) -> StateParts<'_>
    ensures { whole_state result ≡ s.now }
{
    StateParts {
        options: s.options,
        count: s.count,
        starts: &s.starts,
        lens: &s.lens,
    }
}

// The same, of a state as a whole.
pub fn tile(
    s: State,
    t: &Tables<'_>,
    z: u8,
    x: u32,
    y: u32,
    places: &mut [u32],
    px: &mut [i64],
    py: &mut [i64],
) -> Answer
    ensures { tile_outcome result places.new px.new py.new
        ≡ tiled s (tables_held t.now) z x y places.old px.old py.old }
{
    tile_lent(&parts(&s), t, z, x, y, places, px, py)
}

// The same, of a state as a whole.
pub fn tally(s: State, t: &Tables<'_>, z: u8, x: u32, y: u32) -> Result<u64, Refusal>
    ensures { result ≡ tallied s (tables_held t.now) z x y }
{
    tally_lent(&parts(&s), t, z, x, y)
}
