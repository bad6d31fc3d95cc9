// A box question with a stated effort: it tests at most as many slots as the caller allows, and replies what it found, how many it tested,
// and whether a test was left. Nothing is asked of the caller: what SCOPE does not take is refused with its number, as for a box.
#![tactic(auto)]

ghost use Rattle.std.specs.Prelude.{◌≡◌, true, length};
ghost use Rattle.build_tables.specs.Options.{zoom_used};
ghost use Rattle.build_tables.specs.Sound.{state_ok};
ghost use Rattle.build_tables.specs.Room.{index_room};
ghost use Rattle.ask_box_plan.specs.laws.Queries.{queries_of};
ghost use Rattle.ask_effort.specs.Effort.{effort_reply_of, effort_column_of, sought_at, effort_asked};

use ask_box_plan::BoxPlan;
use ask_effort_tests::{Effort, EffortRefusal};
use build_tables::State;
use kdsort::Index;

// Lists what a plan finds within so many tests in the table of the zoom used.
fn effort_used(
    p: &BoxPlan,
    s: &State,
    index: &Index<'_>,
    zoom: u8,
    allowance: usize,
    out: &mut [u32],
) -> Result<Effort, EffortRefusal>
    requires { state_ok s.now (index_room index.now.ids.now index.now.coords.now) ≡ true }
    ensures { let a = sought_at s.now index.now.ids.now index.now.coords.now (zoom_used s.now.options zoom) (queries_of p.now) in
        (result ≡ effort_reply_of a allowance (length out.old)) × (out.new ≡ effort_column_of a allowance out.old) }
{
    let o = s.options;
    let z = o.zoom_used(zoom) as usize;
    let part = ask_base::index_at(s, index, z);
    ask_effort_tests::search(
        p,
        o.node_size,
        build_tables::len_of(*s, z),
        &part,
        allowance,
        out,
    )
}

// The places of the table of the zoom used in the box from (west, least_y) to (east, greatest_y), within so many tests, which the two
// halves of a box that crosses the date line share. y grows downwards on a mercator map, so that least_y is the northern edge of a
// longitude build; on a Cartesian plan it is the least y as given.
#[tactic(auto, unfolding(crate::specs::Effort::effort_asked))]
pub fn effort_box(
    s: State,
    index: &Index<'_>,
    zoom: u8,
    west: f64,
    least_y: f64,
    east: f64,
    greatest_y: f64,
    allowance: usize,
    out: &mut [u32],
) -> Result<Effort, EffortRefusal>
    ensures { let a = effort_asked s index.now.ids.now index.now.coords.now zoom west least_y east greatest_y in
        (result ≡ effort_reply_of a allowance (length out.old)) × (out.new ≡ effort_column_of a allowance out.old) }
{
    if !s.is_sound(build_room::index_room(index)) {
        return Err(EffortRefusal::Spoiled);
    }
    let c = s.options.coordinate_system;
    if !ask_box_plan::box_ok(c, west, least_y, east, greatest_y) {
        return Err(EffortRefusal::Box);
    }
    let p = ask_box_plan::plan_box(c, west, least_y, east, greatest_y);
    effort_used(&p, &s, index, zoom, allowance, out)
}
