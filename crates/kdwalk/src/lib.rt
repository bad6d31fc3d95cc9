// A walk over the slots that a query answers, one at a time by a cursor: `first` and `after`. No stack, no scratch room.
// Nothing is asked of the caller: what SCOPE does not take is refused with its number.
#![tactic(auto)]

ghost use Rattle.std.specs.Prelude.{◌≡◌, ◌+◌, ◌-◌, ◌*◌, ◌≤◌, ◌<◌, length};
ghost use Rattle.kdsort.specs.Shape.{shape, mid};
ghost use Rattle.kdslots.specs.Covers.{Covers};
ghost use Rattle.kdslots.specs.Slots.{over, when, scanned, slots};
ghost use Rattle.kdslots.specs.laws.Intervals.{below};
ghost use Rattle.kdwalk.specs.laws.Cursor.{head_of, leaf_end};
ghost use Rattle.kdwalk.specs.Cursor.{rest};
ghost use Rattle.kdwalk.specs.Reply.{walk_checked, first_step, after_step, step_carried};

use kdslots::{Interval, Search};
use refusals::Refusal;

// The first slot from `from` up to hi that is answered.
fn first_from(s: &Search<'_>, from: usize, hi: usize) -> Option<usize>
    requires { 2 * hi ≤ length s.now.coords.now }
    ensures { let o = over s.now.query s.now.coords.now in result ≡ head_of (scanned o from (hi - from)) }
{
    for i in from..hi {
        if kdslots::tests(s, i) {
            return Some(i);
        }
    }
    None
}

// The first slot of an interval that is answered.
#[cycle(first_below_first_in_first_left)]
fn first_in(s: &Search<'_>, v: Interval) -> Option<usize>
    requires { Covers s.now v }
    ensures { let o = over s.now.query s.now.coords.now in
        result ≡ head_of (slots o v.axis (shape (s.now.node_size + 1) v.lo v.hi)) }
{
    if v.len() <= kdslots::most(s) {
        return first_from(s, v.lo, v.hi);
    }
    let m = v.median();
    if kdslots::tests(s, m) {
        return Some(m);
    }
    first_below(s, v)
}

// The first slot that is answered in the parts of an interval that is split: the right part, then the left.
#[cycle(first_below_first_in_first_left)]
fn first_below(s: &Search<'_>, v: Interval) -> Option<usize>
    requires { Covers s.now v × (v.lo < v.hi) }
    ensures { let o = over s.now.query s.now.coords.now in result ≡ head_of (below o v.axis (s.now.node_size + 1) v.lo v.hi) }
{
    if kdslots::goes_right(s, v.axis, v.median()) {
        if let Some(i) = first_in(s, v.right()) {
            return Some(i);
        }
    }
    first_left(s, v)
}

// The first slot that is answered in the left part.
#[cycle(first_below_first_in_first_left)]
fn first_left(s: &Search<'_>, v: Interval) -> Option<usize>
    requires { Covers s.now v × (v.lo < v.hi) }
    ensures { let o = over s.now.query s.now.coords.now in
        let m = mid v.lo v.hi in
        result ≡ head_of (when (o.left v.axis m) (slots o (1 - v.axis) (shape (s.now.node_size + 1) v.lo m))) }
{
    if kdslots::goes_left(s, v.axis, v.median()) {
        return first_in(s, v.left());
    }
    None
}

// Up to where the slots after c are answered one by one: the end of the unsplit interval that has it; a median has none after it.
fn leaf_end(s: &Search<'_>, c: usize) -> usize
    requires { (c < s.now.n) × (s.now.node_size ≤ 65535) }
    ensures { result ≡ leaf_end (shape (s.now.node_size + 1) 0 s.now.n) c }
{
    // By its two ends, since an interval was slower here: each step of a walk goes through this loop.
    let most = kdslots::most(s);
    let mut lo = 0;
    let mut hi = s.n;
    while most < hi - lo {
        let m = lo + (hi - lo - 1) / 2;
        if c == m {
            return c + 1;
        }
        if c < m {
            hi = m;
        } else {
            lo = m + 1;
        }
    }
    hi
}

// The slot of an interval that is answered after the slot c.
fn next_in(s: &Search<'_>, v: Interval, c: usize) -> Option<usize>
    requires { Covers s.now v × (v.lo ≤ c) × (c < v.hi) }
    ensures { let o = over s.now.query s.now.coords.now in
        result ≡ head_of (rest o v.axis (shape (s.now.node_size + 1) v.lo v.hi) c) }
{
    if v.len() <= kdslots::most(s) {
        return first_from(s, c + 1, v.hi);
    }
    let m = v.median();
    if c < m {
        return next_in(s, v.left(), c);
    }
    if c == m {
        return first_below(s, v);
    }
    if let Some(i) = next_in(s, v.right(), c) {
        return Some(i);
    }
    first_left(s, v)
}

// Whether the search may be walked: the coordinates hold an index, and the query is one that SCOPE takes.
fn check(s: &Search<'_>) -> Result<(), Refusal>
    ensures { let a = s.now in result ≡ walk_checked a.query a.node_size a.n a.coords.now }
{
    if !s.is_sound() {
        return Err(Refusal::Spoiled);
    }
    if !s.query.is_ok() {
        return Err(Refusal::Box);
    }
    Ok(())
}

// The first slot that a query answers; none where it answers none.
pub fn first(s: &Search<'_>) -> Result<Option<usize>, Refusal>
    ensures { let a = s.now in result ≡ first_step a.query a.node_size a.n a.coords.now }
{
    check(s)?;
    let v = kdslots::narrow(s, kdslots::most(s));
    Ok(first_in(s, v))
}

// The slot that a query answers after the slot c; none where it was the last.
pub fn after(s: &Search<'_>, c: usize) -> Result<Option<usize>, Refusal>
    ensures { let a = s.now in result ≡ after_step a.query a.node_size a.n a.coords.now c }
{
    check(s)?;
    if s.n <= c {
        return Ok(None);
    }
    if let Some(i) = first_from(s, c + 1, leaf_end(s, c)) {
        return Ok(Some(i));
    }
    let whole = Interval {
        lo: 0,
        hi: s.n,
        axis: 0,
    };
    Ok(next_in(s, whole, c))
}

// The slot that a step of a walk carries: the largest usize where it carries none.
pub fn step_carried(step: Result<Option<usize>, Refusal>) -> usize
    ensures { result ≡ step_carried step }
{
    match step {
        Ok(Some(i)) => i,
        Ok(None) => usize::MAX,
        Err(_) => usize::MAX,
    }
}
