// An example of a caller's walk, not part of the public surface: a loop over an index's answers by the cursor, through what kdwalk states
// and nothing else. How many slots a query answers, with no column to write them in. Assumes nothing.
#![tactic(auto)]

ghost use Rattle.std.specs.Prelude.{◌≡◌};
ghost use Rattle.kdwalk_count.specs.Counted.{counted_of};

use kdslots::Search;
use refusals::Refusal;

// How many slots a query answers over any lent coordinates.
pub fn count(s: &Search<'_>) -> Result<usize, Refusal>
    ensures { let a = s.now in result ≡ counted_of a.query a.node_size a.n a.coords.now }
{
    let mut k = 0;
    let mut slot = kdwalk::first(s)?;
    while let Some(c) = slot {
        k += 1;
        slot = kdwalk::after(s, c)?;
    }
    Ok(k)
}
