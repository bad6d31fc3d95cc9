// Replays test vectors on the crates `kdbush` and `kdwalk`, and says whether their answers are those that the vectors expect. A vector is
// a line of standard input: words of 16 lowercase hexadecimal digits, a space after each, and a line end after the last. node_size n, n
// times `x y`, n times `id x y`, k, k times `kind a b c d m` and m places The n points are built; expected is the id and the point of
// each slot. The k queries follow: 0 asks for the box of the least x, the least y, the greatest x and the greatest y, 1 for the circle of
// x, y and radius, and d is not looked at; expected are the places in their order. Each query is asked once as a list and once by the
// cursor. n and m go to 1024, k to 64; a case beyond is not of the form. Proved: nothing here reads or writes outside its columns, each
// comparison is the equation of its definition in specs/, and the score is right. Assumed: what standard input gives is not modelled, so
// that the loops that read are only proved to be safe.
#![tactic(auto)]

ghost use Rattle.std.specs.Prelude.{◌≡◌, ◌*◌, ◌≤◌, length};
ghost use Rattle.kdbush.specs.Reply.{searched, column_after};
ghost use Rattle.replay_index.specs.Read.{query_read};
ghost use Rattle.replay_index.specs.Same.{builds_to, found_is, index_lists_to, slot_of, over_is, walks_to, function_of};

use kdbush::{Index, IndexMut};
use kdslots::{Query, Search};
use refusals::Refusal;
use replay_vectors::{Function, Malformed, Verdict};

// The index of n points, with its node size.
#[derive(Clone, Copy)]
struct Built<'a> {
    node_size: usize,
    n: usize,
    index: Index<'a>,
}

// What a column of places holds before it is written.
const OLD: u32 = 0xffff_ffff;

// Reads the n slots that an index is expected to have.
fn read_slots(n: usize, ids: &mut [u32], coords: &mut [f64]) -> Result<(), Malformed>
    requires { (n ≤ length ids.old) × (2 * n ≤ length coords.old) }
{
    for i in 0..n {
        let slot = replay_vectors::next_slot()?;
        ids[i] = slot.id;
        coords[2 * i] = slot.x;
        coords[2 * i + 1] = slot.y;
    }
    Ok(())
}

// The query of a kind, 0 or 1, and its numbers.
fn query_of(kind: usize, a: u64, b: u64, c: u64, d: u64) -> Query
    ensures { result ≡ query_read kind a b c d }
{
    let x = replay_vectors::float_of(a);
    let y = replay_vectors::float_of(b);
    let u = replay_vectors::float_of(c);
    if kind == 0 {
        Query::Range {
            min_x: x,
            min_y: y,
            max_x: u,
            max_y: replay_vectors::float_of(d),
        }
    } else {
        Query::Within {
            qx: x,
            qy: y,
            radius: u,
        }
    }
}

// Reads a query.
fn read_query() -> Result<Query, Malformed> {
    let kind = replay_vectors::next_count(1, false)?;
    let a = replay_vectors::next_bits(false)?;
    let b = replay_vectors::next_bits(false)?;
    let c = replay_vectors::next_bits(false)?;
    let d = replay_vectors::next_bits(false)?;
    Ok(query_of(kind, a, b, c, d))
}

// Builds an index in lent columns, and says whether it comes out as these columns, what lies past its slots included.
fn builds(
    node_size: usize,
    xs: &[f64],
    ys: &[f64],
    want: &Index<'_>,
    ids: &mut [u32],
    coords: &mut [f64],
) -> bool
    ensures { result ≡ builds_to node_size xs.now ys.now want.now.ids.now want.now.coords.now ids.old coords.old }
{
    let mut index = IndexMut { ids, coords };
    if kdbush::build(node_size, xs, ys, &mut index).is_err() {
        return false;
    }
    want.ids == &*index.ids && replay_vectors::same_floats(want.coords, index.coords)
}

// Reads the points and the slots of a case, and builds the index of its points in the lent columns.
fn replay_build(
    node_size: usize,
    n: usize,
    ids: &mut [u32],
    coords: &mut [f64],
) -> Result<Verdict, Malformed>
    requires { n ≤ 1024 }
{
    let mut xs = [0.0; 1024];
    let mut ys = [0.0; 1024];
    replay_vectors::read_points(&mut xs[..n], &mut ys[..n])?;
    let mut want_ids = [OLD; 1032];
    let mut want_coords = [-1.5; 2064];
    read_slots(n, &mut want_ids, &mut want_coords)?;
    let want = Index {
        ids: &want_ids,
        coords: &want_coords,
    };
    let agrees = builds(node_size, &xs[..n], &ys[..n], &want, ids, coords);
    Ok(replay_vectors::judged(agrees, Function::Build))
}

// Writes the places that a query answers.
fn ask(q: Query, b: &Built<'_>, out: &mut [u32]) -> Result<usize, Refusal>
    ensures value { let b = b.now in result ≡ searched q b.node_size b.n b.index.ids.now b.index.coords.now (length out.old) }
    ensures out_value { let b = b.now in out.new ≡ column_after q b.node_size b.n b.index.ids.now b.index.coords.now out.old }
{
    match q {
        Query::Range {
            min_x,
            min_y,
            max_x,
            max_y,
        } => kdbush::range(b.node_size, b.n, &b.index, min_x, min_y, max_x, max_y, out),
        Query::Within { qx, qy, radius } => {
            kdbush::within(b.node_size, b.n, &b.index, qx, qy, radius, out)
        }
    }
}

// Whether a search found m places.
fn is_found(reply: Result<usize, Refusal>, m: usize) -> bool
    ensures { result ≡ found_is reply m }
{
    reply == Ok(m)
}

// Whether a query answers m places, and writes them as this column has them, what lies past them included.
fn lists(q: Query, b: &Built<'_>, m: usize, want: &[u32], out: &mut [u32]) -> bool
    ensures { let b = b.now in
        result ≡ index_lists_to q b.node_size b.n b.index.ids.now b.index.coords.now m want.now out.old }
{
    is_found(ask(q, b, out), m) && want == &*out
}

// The slot of a step, or this number where it has none.
fn slot_of(step: Result<Option<usize>, Refusal>, none: usize) -> usize
    ensures { result ≡ slot_of step none }
{
    match step {
        Ok(Some(s)) => s,
        _ => none,
    }
}

// Whether a step is the end of its walk.
fn is_over(step: Result<Option<usize>, Refusal>) -> bool
    ensures { result ≡ over_is step }
{
    step == Ok(None)
}

// Whether the cursor walks over m slots that hold these places, and ends then.
fn walks(q: Query, b: &Built<'_>, m: usize, want: &[u32]) -> bool
    requires { m ≤ length want.now }
    ensures { let b = b.now in result ≡ walks_to q b.node_size b.n b.index.ids.now b.index.coords.now m want.now }
{
    let Index { ids, coords } = b.index;
    let search = Search {
        query: q,
        node_size: b.node_size,
        n: b.n,
        coords,
    };
    let mut step = kdwalk::first(&search);
    for i in 0..m {
        let s = slot_of(step, ids.len());
        if ids.len() <= s {
            return false;
        }
        if ids[s] != want[i] {
            return false;
        }
        step = kdwalk::after(&search, s);
    }
    is_over(step)
}

// The function of a query's list.
fn function_of(q: Query) -> Function
    ensures { result ≡ function_of q }
{
    match q {
        Query::Range { .. } => Function::Range,
        Query::Within { .. } => Function::Within,
    }
}

// Reads a query and its places, and asks it over an index. The last query ends its line.
fn replay_query(b: &Built<'_>, last: bool) -> Result<Verdict, Malformed> {
    let q = read_query()?;
    let m = replay_vectors::next_count(1024, last)?;
    let mut want = [OLD; 1032];
    replay_vectors::read_values(last, &mut want[..m])?;
    let mut out = [OLD; 1032];
    if !lists(q, b, m, &want, &mut out) {
        return Ok(Err(function_of(q)));
    }
    Ok(replay_vectors::judged(walks(q, b, m, &want), Function::Cursor))
}

// Reads and asks the k queries of a case, to the end of its line also where one differs: the first that does stays.
fn replay_queries(b: &Built<'_>, k: usize) -> Result<Verdict, Malformed> {
    let mut verdict = Ok(());
    for i in 0..k {
        verdict = verdict.and(replay_query(b, i + 1 == k)?);
    }
    Ok(verdict)
}

// Replays the case that begins with this node size.
fn replay_case(node_size: u64) -> Result<Verdict, Malformed> {
    let node_size = node_size as usize;
    let n = replay_vectors::next_count(1024, false)?;
    let mut ids = [OLD; 1032];
    let mut coords = [-1.5; 2064];
    let built = replay_build(node_size, n, &mut ids, &mut coords)?;
    let k = replay_vectors::next_count(64, true)?;
    let index = Index {
        ids: &ids,
        coords: &coords,
    };
    let asked = replay_queries(
        &Built {
            node_size,
            n,
            index,
        },
        k,
    )?;
    Ok(built.and(asked))
}

// Replays standard input, and writes how that ended.
fn main() {
    replay_vectors::say_ending(replay_vectors::replay_words(replay_case));
}
