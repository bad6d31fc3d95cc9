// Replays test vectors of the questions to a build, and says whether the answers are those that the vectors expect.
// A vector is a line of standard input: words of 16 lowercase hexadecimal digits, a space after each, and a line end after the last.
//     min_zoom max_zoom, the options as `replay_options` reads them, n, 32 starts, 32 lengths, nine columns, k, k questions
// The columns are x, y, seen, id, parent, num, energy, ids and coords, each with its length before it: 64 at the most, of coords 128.
// They are asked as they stand, so that states that no build made are among them.
// A question is its kind, its numbers, the reply's number, and what the reply carries; k is 64 at the most.
//     0 zoom west least_y east greatest_y | 1 zoom x y radius | 2 id | 3 id limit offset, and then: room number carried m, m places
//     4 id | 6 z x y, and then: number carried
//     5 z x y, and then: room_places room_x room_y number carried m, m places, m times x, m times y
// The output columns are as long as their rooms, 64 at the most, and filled with old contents: expected is that the m items stand at the
// front, and behind them the old contents.
// Proved: nothing here reads or writes outside its columns, the verdict on a question is the equation of specs/ (`lists_to`, `zooms_to`,
// `tiles_to`, `sums_to`): it agrees if and only if what is stored is what the definition says (specs/Decides). The score is right.
// Assumed: what standard input gives is not modelled, so that the functions that read are only proved to be safe.
#![tactic(auto)]

ghost use Rattle.std.specs.Prelude.{◌≡◌, ◌≤◌, length};
ghost use Rattle.ask_base.specs.Asked.{answer_of, column_of};
ghost use Rattle.build_tables.specs.Lent.{tables_held};
ghost use Rattle.ask_cluster.specs.Expansion.{zoom_of};
ghost use Rattle.ask_tile.specs.Asked.{tiled};
ghost use Rattle.ask_tile.specs.Tallied.{tallied};
ghost use Rattle.replay_questions.specs.Same.{asked_of, question_of, same_reply, same_tile, lists_to, zooms_to, tiles_to, sums_to};

use ask_base::Answer;
use build_tables::{Options, State, Tables};
use kdbush::Index;
use refusals::Refusal;
use replay_vectors::{Function, Malformed, Question, Verdict};

// What is asked: a state, and the columns that are given with it.
#[derive(Clone, Copy)]
struct Build<'a> {
    state: State,
    tables: Tables<'a>,
}

// A question that lists places, or lamps.
#[derive(Clone, Copy)]
enum Listing {
    Box {
        zoom: u8,
        west: f64,
        least_y: f64,
        east: f64,
        greatest_y: f64,
    },
    Ring {
        zoom: u8,
        x: f64,
        y: f64,
        radius: f64,
    },
    Children(u32),
    Leaves {
        id: u32,
        limit: u32,
        offset: u32,
    },
}

// A reply as it is stored: its number, 0 where nothing is refused, and what it carries.
#[derive(Clone, Copy, PartialEq, Eq)]
struct Reply {
    number: u32,
    carried: u64,
}

// A tile.
#[derive(Clone, Copy)]
struct Tile {
    z: u8,
    x: u32,
    y: u32,
}

// The three columns that are expected of a tile.
#[derive(Clone, Copy)]
struct Wanted<'a> {
    places: &'a [u32],
    x: &'a [i64],
    y: &'a [i64],
}

// What the output columns hold before they are written: nothing that a question writes there.
const OLD: u32 = 0xa5a5_a5a5;

const OLD_LONG: i64 = 0x5a5a_5a5a_5a5a_5a5a;

// Whether what is stored is SCOPE's number of a reply, and what it carries.
#[tactic(auto, unfolding(crate::specs::Same::same_reply))]
fn same_reply(want: Reply, got: Result<u64, Refusal>) -> bool
    ensures { result ≡ same_reply want got }
{
    match got {
        Ok(carried) => want == Reply { number: 0, carried },
        Err(e) => {
            let carried = e.carried() as u64;
            let number = e.number();
            want == Reply { number, carried }
        }
    }
}

// Asks a question that lists.
fn ask(q: Listing, b: &Build<'_>, out: &mut [u32]) -> Answer
    ensures { let a = asked_of q b.now.state (tables_held b.now.tables) in
        (result ≡ answer_of a (length out.old)) × (out.new ≡ column_of a out.old) }
{
    let s = b.state;
    let t = &b.tables;
    let Tables { ids, coords, .. } = b.tables;
    let index = Index { ids, coords };
    match q {
        Listing::Box {
            zoom,
            west,
            least_y,
            east,
            greatest_y,
        } => ask_box::list_box(s, &index, zoom, west, least_y, east, greatest_y, out),
        Listing::Ring { zoom, x, y, radius } => {
            ask_box::list_ring(s, &index, zoom, x, y, radius, out)
        }
        Listing::Children(id) => ask_cluster::children(s, t, id, out),
        Listing::Leaves { id, limit, offset } => {
            ask_cluster::leaves(s, t, id, limit, offset, out)
        }
    }
}

// Whether a question that lists is answered as expected, and leaves the column expected. Here and for a tile each comparison is made, by
// `&`, so that the proof has them in a row.
fn lists(q: Listing, b: &Build<'_>, reply: Reply, want: &[u32], out: &mut [u32]) -> bool
    ensures { result ≡ lists_to reply want.now (asked_of q b.now.state (tables_held b.now.tables)) out.old }
{
    let a = ask(q, b, out);
    same_reply(reply, a.map(|k| k as u64)) & (want == &*out)
}

// Whether the expansion zoom of a cluster is the one expected.
fn finds_zoom(b: &Build<'_>, id: u32, reply: Reply) -> bool
    ensures { result ≡ zooms_to reply (zoom_of b.now.state (tables_held b.now.tables) id) }
{
    let e = ask_cluster::expansion_zoom(b.state, &b.tables, id);
    same_reply(reply, e.map(|z| z as u64))
}

// Whether the tally of a tile is the one expected.
#[tactic(auto, unfolding(crate::specs::Same::sums_to))]
fn adds_up(b: &Build<'_>, tile: Tile, reply: Reply) -> bool
    ensures { result ≡ sums_to reply (tallied b.now.state (tables_held b.now.tables) tile.z tile.x tile.y) }
{
    let sum = ask_tile::tally(b.state, &b.tables, tile.z, tile.x, tile.y);
    same_reply(reply, sum)
}

// Whether the three columns of a tile are those expected, to their ends.
fn same_tile(want: &Wanted<'_>, places: &[u32], px: &[i64], py: &[i64]) -> bool
    ensures { let w = want.now in
        result ≡ same_tile w.places.now w.x.now w.y.now places.now px.now py.now }
{
    (want.places == places) & (want.x == px) & (want.y == py)
}

// Whether a tile is answered as expected, and leaves the columns expected.
fn lists_tile(
    b: &Build<'_>,
    tile: Tile,
    reply: Reply,
    want: &Wanted<'_>,
    places: &mut [u32],
    px: &mut [i64],
    py: &mut [i64],
) -> bool
    ensures { let w = want.now in
        let a = tiled b.now.state (tables_held b.now.tables) tile.z tile.x tile.y places.old px.old py.old in
        result ≡ tiles_to reply w.places.now w.x.now w.y.now a }
{
    let a = ask_tile::tile(b.state, &b.tables, tile.z, tile.x, tile.y, places, px, py);
    same_reply(reply, a.map(|k| k as u64)) & same_tile(want, places, px, py)
}

// Reads a reply; what it carries ends its line where `last`.
fn read_reply(last: bool) -> Result<Reply, Malformed> {
    Ok(Reply {
        number: replay_vectors::next(false)?,
        carried: replay_vectors::next(last)?,
    })
}

// Reads the numbers of a box.
fn read_box() -> Result<Listing, Malformed> {
    Ok(Listing::Box {
        zoom: replay_vectors::next(false)?,
        west: replay_vectors::next(false)?,
        least_y: replay_vectors::next(false)?,
        east: replay_vectors::next(false)?,
        greatest_y: replay_vectors::next(false)?,
    })
}

// Reads the numbers of a ring.
fn read_ring() -> Result<Listing, Malformed> {
    Ok(Listing::Ring {
        zoom: replay_vectors::next(false)?,
        x: replay_vectors::next(false)?,
        y: replay_vectors::next(false)?,
        radius: replay_vectors::next(false)?,
    })
}

// Reads the numbers of a question for leaves.
fn read_leaves() -> Result<Listing, Malformed> {
    Ok(Listing::Leaves {
        id: replay_vectors::next(false)?,
        limit: replay_vectors::next(false)?,
        offset: replay_vectors::next(false)?,
    })
}

// Reads a tile.
fn read_tile() -> Result<Tile, Malformed> {
    Ok(Tile {
        z: replay_vectors::next(false)?,
        x: replay_vectors::next(false)?,
        y: replay_vectors::next(false)?,
    })
}

// Reads which question is asked.
fn read_question() -> Result<Question, Malformed> {
    Ok(match replay_vectors::next_count(6, false)? {
        0 => Question::Box,
        1 => Question::Ring,
        2 => Question::Children,
        3 => Question::Leaves,
        4 => Question::Expansion,
        5 => Question::Tile,
        _ => Question::Tally,
    })
}

// The name of a question that lists.
fn question_of(q: Listing) -> Question
    ensures { result ≡ question_of q }
{
    match q {
        Listing::Box { .. } => Question::Box,
        Listing::Ring { .. } => Question::Ring,
        Listing::Children(_) => Question::Children,
        Listing::Leaves { .. } => Question::Leaves,
    }
}

// The verdict on a question.
fn judged(agrees: bool, question: Question) -> Verdict {
    replay_vectors::judged(agrees, Function::Asked(question))
}

// Reads what is expected of a question that lists, and asks it.
fn replay_listing(q: Listing, b: &Build<'_>, last: bool) -> Result<Verdict, Malformed> {
    let room = replay_vectors::next_count(64, false)?;
    let reply = read_reply(false)?;
    let m = replay_vectors::next_count(room, last)?;
    let mut want = [OLD; 64];
    replay_vectors::read_values(last, &mut want[..m])?;
    let mut out = [OLD; 64];
    let agrees = lists(q, b, reply, &want[..room], &mut out[..room]);
    Ok(judged(agrees, question_of(q)))
}

// Reads a question for an expansion zoom, and asks it.
fn replay_zoom(b: &Build<'_>, last: bool) -> Result<Verdict, Malformed> {
    let id = replay_vectors::next(false)?;
    let reply = read_reply(last)?;
    Ok(judged(finds_zoom(b, id, reply), Question::Expansion))
}

// Reads a question for a tally, and asks it.
fn replay_tally(b: &Build<'_>, last: bool) -> Result<Verdict, Malformed> {
    let tile = read_tile()?;
    let reply = read_reply(last)?;
    Ok(judged(adds_up(b, tile, reply), Question::Tally))
}

// Asks for a tile in columns as long as those expected, with old contents.
fn ask_tile(b: &Build<'_>, tile: Tile, reply: Reply, want: &Wanted<'_>) -> bool
    requires { let w = want.now in (length w.places.now ≤ 64) × (length w.x.now ≤ 64) × (length w.y.now ≤ 64) }
{
    let mut places = [OLD; 64];
    let mut px = [OLD_LONG; 64];
    let mut py = [OLD_LONG; 64];
    lists_tile(
        b,
        tile,
        reply,
        want,
        &mut places[..want.places.len()],
        &mut px[..want.x.len()],
        &mut py[..want.y.len()],
    )
}

// Reads a question for a tile, and what is expected of it into columns of so many, and asks it.
fn replay_tile(b: &Build<'_>, last: bool) -> Result<Verdict, Malformed> {
    let tile = read_tile()?;
    let room = replay_vectors::next_count(64, false)?;
    let room_x = replay_vectors::next_count(64, false)?;
    let room_y = replay_vectors::next_count(64, false)?;
    let reply = read_reply(false)?;
    let m = replay_vectors::next_count(room.min(room_x).min(room_y), last)?;
    let mut places = [OLD; 64];
    let mut px = [OLD_LONG; 64];
    let mut py = [OLD_LONG; 64];
    replay_vectors::read_values(false, &mut places[..m])?;
    replay_vectors::read_values(false, &mut px[..m])?;
    replay_vectors::read_values(last, &mut py[..m])?;
    let want = Wanted {
        places: &places[..room],
        x: &px[..room_x],
        y: &py[..room_y],
    };
    Ok(judged(ask_tile(b, tile, reply, &want), Question::Tile))
}

// Reads a question, and asks it. The last question ends its line.
fn replay_question(b: &Build<'_>, last: bool) -> Result<Verdict, Malformed> {
    match read_question()? {
        Question::Box => replay_listing(read_box()?, b, last),
        Question::Ring => replay_listing(read_ring()?, b, last),
        Question::Children => {
            replay_listing(Listing::Children(replay_vectors::next(false)?), b, last)
        }
        Question::Leaves => replay_listing(read_leaves()?, b, last),
        Question::Expansion => replay_zoom(b, last),
        Question::Tile => replay_tile(b, last),
        Question::Tally => replay_tally(b, last),
    }
}

// Reads and asks the questions of a case, to the end of its line also where one differs: the first that does stays.
fn replay_questions(b: &Build<'_>) -> Result<Verdict, Malformed> {
    let k = replay_vectors::next_count(64, true)?;
    let mut verdict = Ok(());
    for i in 0..k {
        verdict = verdict.and(replay_question(b, i + 1 == k)?);
    }
    Ok(verdict)
}

// Reads the nine columns, and then the questions.
fn replay_columns(state: State) -> Result<Verdict, Malformed> {
    let mut x = [0.0; 64];
    let mut y = [0.0; 64];
    let mut seen = [0u8; 64];
    let mut id = [0u32; 64];
    let mut parent = [0u32; 64];
    let mut num = [0u32; 64];
    let mut energy = [0u64; 64];
    let mut ids = [0u32; 64];
    let mut coords = [0.0; 128];
    let xs = replay_vectors::next_values(&mut x)?;
    let ys = replay_vectors::next_values(&mut y)?;
    let marks = replay_vectors::next_values(&mut seen)?;
    let names = replay_vectors::next_values(&mut id)?;
    let parents = replay_vectors::next_values(&mut parent)?;
    let nums = replay_vectors::next_values(&mut num)?;
    let energies = replay_vectors::next_values(&mut energy)?;
    let slots = replay_vectors::next_values(&mut ids)?;
    let points = replay_vectors::next_values(&mut coords)?;
    let tables = Tables {
        x: &x[..xs],
        y: &y[..ys],
        seen: &seen[..marks],
        id: &id[..names],
        parent: &parent[..parents],
        num: &num[..nums],
        energy: &energy[..energies],
        ids: &ids[..slots],
        coords: &coords[..points],
    };
    replay_questions(&Build { state, tables })
}

// Reads the state of a build by these options, and then the rest.
fn replay_state(options: Options) -> Result<Verdict, Malformed> {
    let count = replay_vectors::next(false)?;
    let mut starts = [0u32; 32];
    let mut lens = [0u32; 32];
    replay_vectors::read_values(false, &mut starts)?;
    replay_vectors::read_values(false, &mut lens)?;
    replay_columns(State {
        options,
        count,
        starts,
        lens,
    })
}

// Replays the case that begins with this word.
fn replay_case(bits: u64) -> Result<Verdict, Malformed> {
    let min_zoom = replay_vectors::count_of(bits, 255)? as u8;
    let max_zoom = replay_vectors::next(false)?;
    replay_state(replay_options::read_options(min_zoom, max_zoom)?)
}

// Replays standard input, and writes how that ended.
fn main() {
    replay_vectors::say_ending(replay_vectors::replay_words(replay_case));
}
