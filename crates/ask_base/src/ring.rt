// A table and a search in it: what a walk over the slots around a cluster's origin goes by.
ghost use Rattle.std.specs.Prelude.{◌≡◌, length};

use build_tables::Table;
use kdpages::Pages;
use kdslots::Search;

// A table, and a search over all its slots.
#[derive(Clone, Copy)]
pub struct Ring<'a> {
    pub table: Table<'a>,
    pub search: Search<'a>,
    ghost whole: { search.n ≡ length table.entries.x.now },
}

impl Ring<'_> {
    ghost use Rattle.kdwalk.specs.laws.Cursor.{head_of};
    ghost use Rattle.kdpages.specs.Pages.{tail_of};
    ghost use Rattle.ask_base.specs.laws.Around.{ring_held, ahead_in};

    // The next slot of a walk over it that is read a page at a time.
    pub fn next(&self, page: &mut [usize], at: &mut Pages) -> Option<usize>
        ensures value { result ≡ head_of (ahead_in (ring_held self.now) page.old at.old) }
        ensures ahead { let g = ring_held self.now in ahead_in g page.new at.new ≡ tail_of (ahead_in g page.old at.old) }
    {
        at.next_slot(&self.search, page)
    }
}
