// How many slots an index answers a query with, and no list of them: for the notes of a zoom, which go on by that number. Below the
// public surface: a function may ask something of its caller. `kdwalk_count` counts the same by the public cursor.
#![tactic(auto)]

ghost use Rattle.std.specs.Prelude.{◌≡◌, ◌+◌, ◌-◌, ◌*◌, ◌≤◌, length};
ghost use Rattle.kdsort.specs.Shape.{shape};
ghost use Rattle.kdslots.specs.Slots.{over, scanned, slots, answers};

use kdslots::{Interval, Search};

// How many slots of an interval are answered, tested one by one. No test decides where to go on, so that several slots are tested at once.
fn count_slots(s: &Search<'_>, v: Interval) -> usize
    requires { 2 * v.hi ≤ length s.now.coords.now }
    ensures { result ≡ length (scanned (over s.now.query s.now.coords.now) v.lo (v.hi - v.lo)) }
{
    let mut k = 0;
    for i in v.lo..v.hi {
        k += kdslots::tests(s, i) as usize;
    }
    k
}

// How many slots of an interval are answered.
fn count_part(s: &Search<'_>, v: Interval) -> usize
    requires { (2 * v.hi ≤ length s.now.coords.now) × (s.now.node_size ≤ 65535) }
    ensures { result ≡ length (slots (over s.now.query s.now.coords.now) v.axis (shape (s.now.node_size + 1) v.lo v.hi)) }
{
    if v.len() <= kdslots::most(s) {
        return count_slots(s, v);
    }
    let m = v.median();
    let median = kdslots::tests(s, m) as usize;
    let goes_right = kdslots::goes_right(s, v.axis, m);
    let goes_left = kdslots::goes_left(s, v.axis, m);
    let right = if goes_right {
        count_part(s, v.right())
    } else {
        0
    };
    let left = if goes_left {
        count_part(s, v.left())
    } else {
        0
    };
    median + right + left
}

// How many slots a search answers.
pub fn count(s: &Search<'_>) -> usize
    requires { (2 * s.now.n ≤ length s.now.coords.now) × (s.now.node_size ≤ 65535) }
    ensures { result ≡ length (answers s.now.query s.now.coords.now s.now.node_size s.now.n) }
{
    count_part(s, kdslots::narrow(s, kdslots::most(s)))
}
