// The walk of `kdwalk`, read a lent page at a time: `begin` and `next_slot`. Proved is each step, and what is ahead of the reader
// afterwards, for every content of the page; what stands in the page, and how far it was read, is left open. Assumes nothing.
// Below the public surface: a walk that is refused is done, with no number. Its callers have refused 9 and 11 before; a ring around an
// entry at no finite place, which is refused too, has no slots.
#![tactic(auto)]

ghost use Rattle.std.specs.Prelude.{◌≡◌, ◌+◌, ◌-◌, ◌*◌, ◌≤◌, ◌<◌, length};
ghost use Rattle.kdsort.specs.Shape.{shape, mid};
ghost use Rattle.kdslots.specs.Covers.{Covers};
ghost use Rattle.kdslots.specs.Slots.{over, when, scanned, slots};
ghost use Rattle.kdslots.specs.laws.Intervals.{below};
ghost use Rattle.kdwalk.specs.Cursor.{rest};
ghost use Rattle.kdwalk.specs.laws.Cursor.{head_of};
ghost use Rattle.kdpages.specs.Pages.{begun, onward_of, ahead_of, tail_of, stepped_of, stored, store};

use kdslots::{Interval, Search};

// From where a walk goes on: from its start, after a slot, or not at all.
#[derive(Clone, Copy)]
pub enum Onward {
    Start,
    After(usize),
    Nothing,
}

// Stores the slots from `from` up to hi that are answered, from position at on, until the page is full. How many slots the page has then.
fn fill_from(s: &Search<'_>, from: usize, hi: usize, at: usize, page: &mut [usize]) -> usize
    requires { 2 * hi ≤ length s.now.coords.now }
    ensures { let o = over s.now.query s.now.coords.now in
        stored result page.new ≡ store at (scanned o from (hi - from)) page.old }
{
    // A copy, which no store in the page can change: so its numbers are read once, and not at each slot.
    let own = *s;
    let mut k = at;
    for i in from..hi {
        if page.len() <= k {
            return k;
        }
        if kdslots::tests(&own, i) {
            page[k] = i;
            k += 1;
        }
    }
    k
}

// Stores the slots of an interval that are answered, until the page is full.
#[cycle(fill_below_fill_in_fill_left)]
fn fill_in(s: &Search<'_>, v: Interval, at: usize, page: &mut [usize]) -> usize
    requires { Covers s.now v }
    ensures { let o = over s.now.query s.now.coords.now in
        stored result page.new ≡ store at (slots o v.axis (shape (s.now.node_size + 1) v.lo v.hi)) page.old }
{
    if page.len() <= at {
        return at;
    }
    if v.len() <= kdslots::most(s) {
        return fill_from(s, v.lo, v.hi, at, page);
    }
    let m = v.median();
    if kdslots::tests(s, m) {
        page[at] = m;
        return fill_below(s, v, at + 1, page);
    }
    fill_below(s, v, at, page)
}

// Stores the slots that are answered in the parts of an interval that is split, until the page is full: the right part, then the left.
#[cycle(fill_below_fill_in_fill_left)]
fn fill_below(s: &Search<'_>, v: Interval, at: usize, page: &mut [usize]) -> usize
    requires { Covers s.now v × (v.lo < v.hi) }
    ensures { let o = over s.now.query s.now.coords.now in
        stored result page.new ≡ store at (below o v.axis (s.now.node_size + 1) v.lo v.hi) page.old }
{
    if kdslots::goes_right(s, v.axis, v.median()) {
        let k = fill_in(s, v.right(), at, page);
        return fill_left(s, v, k, page);
    }
    fill_left(s, v, at, page)
}

// Stores the slots that are answered in the left part, until the page is full.
#[cycle(fill_below_fill_in_fill_left)]
fn fill_left(s: &Search<'_>, v: Interval, at: usize, page: &mut [usize]) -> usize
    requires { Covers s.now v × (v.lo < v.hi) }
    ensures { let o = over s.now.query s.now.coords.now in
        let m = mid v.lo v.hi in
        stored result page.new
        ≡ store at (when (o.left v.axis m) (slots o (1 - v.axis) (shape (s.now.node_size + 1) v.lo m))) page.old }
{
    if kdslots::goes_left(s, v.axis, v.median()) {
        return fill_in(s, v.left(), at, page);
    }
    at
}

// Stores the slots of an interval that are answered after the slot c, from the page's start on, until it is full.
fn fill_rest(s: &Search<'_>, v: Interval, c: usize, page: &mut [usize]) -> usize
    requires { Covers s.now v × (v.lo ≤ c) × (c < v.hi) }
    ensures { let o = over s.now.query s.now.coords.now in
        stored result page.new ≡ store 0 (rest o v.axis (shape (s.now.node_size + 1) v.lo v.hi) c) page.old }
{
    if v.len() <= kdslots::most(s) {
        return fill_from(s, c + 1, v.hi, 0, page);
    }
    let m = v.median();
    if c < m {
        return fill_rest(s, v.left(), c, page);
    }
    if c == m {
        return fill_below(s, v, 0, page);
    }
    let k = fill_rest(s, v.right(), c, page);
    fill_left(s, v, k, page)
}

// Stores what a walk has from where it goes on, until the page is full. A walk that is refused has nothing.
fn fill_page(s: &Search<'_>, from: Onward, page: &mut [usize]) -> usize
    ensures { let a = s.now in stored result page.new ≡ store 0 (onward_of a.query a.node_size a.n a.coords.now from) page.old }
{
    if !s.is_sound() {
        return 0;
    }
    if !s.query.is_ok() {
        return 0;
    }
    match from {
        Onward::Start => {
            let v = kdslots::narrow(s, kdslots::most(s));
            if v.len() <= kdslots::most(s) {
                return fill_from(s, v.lo, v.hi, 0, page);
            }
            fill_in(s, v, 0, page)
        }
        Onward::After(c) => {
            if s.n <= c {
                return 0;
            }
            let whole = Interval {
                lo: 0,
                hi: s.n,
                axis: 0,
            };
            fill_rest(s, whole, c, page)
        }
        Onward::Nothing => 0,
    }
}

// The next slot by the cursor. A walk that is refused is done.
fn by_cursor(s: &Search<'_>, from: Onward) -> Option<usize>
    ensures { let a = s.now in result ≡ head_of (onward_of a.query a.node_size a.n a.coords.now from) }
{
    match from {
        Onward::Start => kdwalk::first(s).ok().flatten(),
        Onward::After(c) => kdwalk::after(s, c).ok().flatten(),
        Onward::Nothing => None,
    }
}

// Where a walk stands that is read a page at a time: how many slots the page has, how many of them were read, and from where it goes on
// after the page.
#[derive(Clone, Copy)]
pub struct Pages {
    pub len: usize,
    pub at: usize,
    pub onward: Onward,
}

impl Pages {
    // Begins a walk that is read a page at a time. Nothing is looked for yet.
    pub fn begin() -> Pages
        ensures { result ≡ begun }
    {
        Pages {
            len: 0,
            at: 0,
            onward: Onward::Start,
        }
    }

    // Where a walk with an empty page stands after a slot, or at its end.
    fn stepped(found: Option<usize>) -> Pages
        ensures { result ≡ stepped_of found }
    {
        let onward = match found {
            Some(i) => Onward::After(i),
            None => Onward::Nothing,
        };
        Pages {
            len: 0,
            at: 0,
            onward,
        }
    }

    // Turns the page: the next slot of a walk whose page is read. With a page of no slots it goes by the cursor.
    fn turn(&mut self, s: &Search<'_>, page: &mut [usize]) -> Option<usize>
        ensures value { let a = s.now in result ≡ head_of (onward_of a.query a.node_size a.n a.coords.now self.old.onward) }
        ensures ahead { let a = s.now in
            ahead_of a.query a.node_size a.n a.coords.now page.new self.new
            ≡ tail_of (onward_of a.query a.node_size a.n a.coords.now self.old.onward) }
    {
        let from = self.onward;
        if let Onward::Nothing = from {
            *self = Pages::stepped(None);
            return None;
        }
        if page.is_empty() {
            let found = by_cursor(s, from);
            *self = Pages::stepped(found);
            return found;
        }
        let k = fill_page(s, from, page);
        if k == 0 {
            *self = Pages::stepped(None);
            return None;
        }
        let onward = if k < page.len() {
            Onward::Nothing
        } else {
            Onward::After(page[k - 1])
        };
        *self = Pages {
            len: k,
            at: 1,
            onward,
        };
        Some(page[0])
    }

    // The next slot of a walk that is read a page at a time, over any lent page; the page is turned where it is read. The walk is done
    // where it is refused.
    pub fn next_slot(&mut self, s: &Search<'_>, page: &mut [usize]) -> Option<usize>
        ensures value { let a = s.now in result ≡ head_of (ahead_of a.query a.node_size a.n a.coords.now page.old self.old) }
        ensures ahead { let a = s.now in
            ahead_of a.query a.node_size a.n a.coords.now page.new self.new
            ≡ tail_of (ahead_of a.query a.node_size a.n a.coords.now page.old self.old) }
    {
        if self.len <= self.at || page.len() <= self.at {
            return self.turn(s, page);
        }
        let c = page[self.at];
        self.at += 1;
        Some(c)
    }
}
