// The searches of a box's plan within a stated effort: they make at most as many tests as the caller allows, one after the other in one
// count, and say how many were made and whether one was left. The tests are those of the definition of the search, each slot of an
// interval that is not split and each median of one that is; nothing is narrowed away first, since the definition tests what narrowing
// leaves out.
#![tactic(auto)]

ghost use Rattle.std.specs.Prelude.{◌≡◌, true, [], ◌∷◌, ◌+◌, ◌-◌, ◌*◌, ◌^◌, ◌≤◌, ◌<◌, length, IfOk};
ghost use Rattle.kdsort.specs.Shape.{shape};
ghost use Rattle.kdslots.specs.Covers.{Covers};
ghost use Rattle.kdslots.specs.Slots.{over, scanned, slots};
ghost use Rattle.kdbush.specs.Reply.{index_ok};
ghost use Rattle.ask_box_plan.specs.laws.Queries.{queries_of};
ghost use Rattle.ask_effort_tests.specs.Tested.{testing};
ghost use Rattle.ask_effort_tests.specs.Trials.{marks, trials};
ghost use Rattle.ask_effort_tests.specs.Reply.{no_effort, effort_number_of, effort_carried_of, effort_number, effort_carried, answer, column};
ghost use Rattle.ask_effort_tests.specs.laws.Spend.{fresh, settled_tests, went_tests, spend};

use ask_box_plan::BoxPlan;
use kdslots::{Interval, Search};
use kdsort::Index;

// How many places were found, how many slots were tested, and whether a test was left.
#[derive(Clone, Copy, PartialEq, Eq, Debug)]
pub struct Effort {
    pub items: usize,
    pub tested: usize,
    pub stopped: bool,
}

// Why such a question is refused, in SCOPE's words. `NoRoom` is judged on what was found before the stop, and carries it.
#[derive(Clone, Copy, PartialEq, Eq, Debug)]
pub enum EffortRefusal {
    Box,
    NoRoom(Effort),
    Spoiled,
}

impl EffortRefusal {
    // SCOPE's number of the refusal.
    pub fn number(self) -> u32
        ensures { result ≡ effort_number_of self }
    {
        match self {
            EffortRefusal::Box => 9,
            EffortRefusal::NoRoom(_) => 10,
            EffortRefusal::Spoiled => 11,
        }
    }

    // What the refusal carries: nothing found and nothing tested where it is 9 or 11.
    pub fn carried(self) -> Effort
        ensures { result ≡ effort_carried_of self }
    {
        match self {
            EffortRefusal::NoRoom(e) => e,
            _ => no_effort(),
        }
    }
}

// SCOPE's number of a reply: 0 where nothing is refused.
pub fn effort_number(reply: Result<Effort, EffortRefusal>) -> u32
    ensures { result ≡ effort_number reply }
{
    match reply {
        Ok(_) => 0,
        Err(refusal) => refusal.number(),
    }
}

// What a reply carries: nothing found and nothing tested where it is refused 9 or 11.
pub fn effort_carried(reply: Result<Effort, EffortRefusal>) -> Effort
    ensures { result ≡ effort_carried reply }
{
    match reply {
        Ok(e) => e,
        Err(refusal) => refusal.carried(),
    }
}

// How far a search came: how many places it found, and how many tests it may still make.
#[derive(Clone, Copy)]
struct Spent {
    found: usize,
    left: usize,
}

// How a search ends before its last test: where a test is due and none is allowed, with as many places found; or where a slot that passes
// names a place past the table, which spoils it.
#[derive(Clone, Copy)]
enum End {
    Stopped(usize),
    Spoiled,
}

// Nothing found, nothing tested, not stopped.
fn no_effort() -> Effort
    ensures { result ≡ no_effort }
{
    Effort {
        items: 0,
        tested: 0,
        stopped: false,
    }
}

// The test of the slot i, which is due: it is made if it is allowed, and if it passes, its place goes to the next position, if the column
// reaches so far.
fn put(s: &Search<'_>, ids: &[u32], i: usize, at: Spent, out: &mut [u32]) -> Result<Spent, End>
    requires { (2 * i + 1 < length s.now.coords.now) × (i < length ids.now) × (at.found + at.left < 2 ^ 64) }
    ensures { let t = over s.now.query s.now.coords.now in
        went_tests result out.new ≡ spend s.now.n (marks t ids.now (i ∷ [])) at out.old }
{
    if at.left == 0 {
        return Err(End::Stopped(at.found));
    }
    let left = at.left - 1;
    if !kdslots::tests(s, i) {
        return Ok(Spent {
            found: at.found,
            left,
        });
    }
    let p = ids[i];
    if s.n <= p as usize {
        return Err(End::Spoiled);
    }
    if at.found < out.len() {
        out[at.found] = p;
    }
    Ok(Spent {
        found: at.found + 1,
        left,
    })
}

// The tests of the slots of an interval, one by one.
fn scan(s: &Search<'_>, ids: &[u32], v: Interval, at: Spent, out: &mut [u32]) -> Result<Spent, End>
    requires { (2 * v.hi ≤ length s.now.coords.now) × (v.hi ≤ length ids.now) × (at.found + at.left < 2 ^ 64) }
    ensures { let t = over s.now.query s.now.coords.now in
        went_tests result out.new ≡ spend s.now.n (marks t ids.now (scanned (testing t) v.lo (v.hi - v.lo))) at out.old }
{
    // A copy, which no store in the column can change: so its numbers are read once, and not at each slot.
    let own = *s;
    let mut k = at;
    for i in v.lo..v.hi {
        k = put(&own, ids, i, k, out)?;
    }
    Ok(k)
}

// The tests of an interval: of one that is split the median, then the right part, then the left, where they are gone into.
fn part(s: &Search<'_>, ids: &[u32], v: Interval, at: Spent, out: &mut [u32]) -> Result<Spent, End>
    requires { Covers s.now v × (v.hi ≤ length ids.now) × (at.found + at.left < 2 ^ 64) }
    ensures { let t = over s.now.query s.now.coords.now in
        let most = s.now.node_size + 1 in
        went_tests result out.new ≡ spend s.now.n (marks t ids.now (slots (testing t) v.axis (shape most v.lo v.hi))) at out.old }
{
    if v.len() <= kdslots::most(s) {
        return scan(s, ids, v, at, out);
    }
    let m = v.median();
    let mut k = put(s, ids, m, at, out)?;
    if kdslots::goes_right(s, v.axis, m) {
        k = part(s, ids, v.right(), k, out)?;
    }
    if kdslots::goes_left(s, v.axis, m) {
        return part(s, ids, v.left(), k, out);
    }
    Ok(k)
}

// The tests of a plan: the second search goes on with what the first has left.
fn both(
    p: &BoxPlan,
    node_size: usize,
    n: usize,
    index: &Index<'_>,
    allowance: usize,
    out: &mut [u32],
) -> Result<Spent, End>
    requires { index_ok node_size n index.now.ids.now index.now.coords.now ≡ true }
    ensures { let t = trials (queries_of p.now) node_size n index.now.ids.now index.now.coords.now in
        went_tests result out.new ≡ spend n t (fresh allowance) out.old }
{
    let whole = Interval {
        lo: 0,
        hi: n,
        axis: 0,
    };
    let begun = Spent {
        found: 0,
        left: allowance,
    };
    let first = Search {
        query: p.first,
        node_size,
        n,
        coords: index.coords,
    };
    let k = part(&first, index.ids, whole, begun, out)?;
    if let Some(query) = p.second {
        let second = Search { query, ..first };
        return part(&second, index.ids, whole, k, out);
    }
    Ok(k)
}

// The reply by how far a search came that was allowed so many tests.
fn settle(made: Result<Spent, End>, allowance: usize, room: usize) -> Result<Effort, EffortRefusal>
    requires { IfOk made (λ s. s.left ≤ allowance) }
    ensures { result ≡ settled_tests made allowance room }
{
    let e = match made {
        Ok(s) => Effort {
            items: s.found,
            tested: allowance - s.left,
            stopped: false,
        },
        Err(End::Stopped(found)) => Effort {
            items: found,
            tested: allowance,
            stopped: true,
        },
        Err(End::Spoiled) => return Err(EffortRefusal::Spoiled),
    };
    if room < e.items {
        return Err(EffortRefusal::NoRoom(e));
    }
    Ok(e)
}

// Lists the places that a plan finds within so many tests over an index that may be searched.
pub fn search(
    p: &BoxPlan,
    node_size: usize,
    n: usize,
    index: &Index<'_>,
    allowance: usize,
    out: &mut [u32],
) -> Result<Effort, EffortRefusal>
    requires { index_ok node_size n index.now.ids.now index.now.coords.now ≡ true }
    ensures { let t = trials (queries_of p.now) node_size n index.now.ids.now index.now.coords.now in
        (result ≡ answer n t allowance (length out.old)) × (out.new ≡ column n t allowance out.old) }
{
    let made = both(p, node_size, n, index, allowance, out);
    settle(made, allowance, out.len())
}
