// The public surface, whole: what a caller may name, one line each. What is not here is not promised; the C names are in `exports`.
// No function here asks anything of its caller, and each contract determines the reply and every lent column (docs/PROMISES.md).
#![tactic(auto)]

pub use ask_base::Answer;
pub use ask_box::{list_box, list_ring, zoom_used};
pub use ask_cluster::{children, expansion_zoom, leaves};
pub use ask_effort::effort_box;
pub use ask_effort_tests::{Effort, EffortRefusal, effort_carried, effort_number};
pub use ask_owner::owner;
pub use ask_tile::{StateParts, tally, tally_lent, tile, tile_lent};
pub use ask_tile_table::tally_value;
pub use build_tables::{Entry, Options, State, Tables, TablesMut, new_state};
pub use kdbush::{build, range, within};
pub use kdslots::{Query, Search};
pub use kdsort::{Index, IndexMut};
pub use kdwalk::{after, first, step_carried};
pub use lister_report::{ListerColumns, report};
pub use lister_text::{Head, LampColumns, coordinate, options, parse};
pub use owners::load;
pub use posting::post;
pub use range::{CoordinateSystem, DataRange, Point};
pub use refusals::{Refusal, carried, number, refusal_carried};
pub use supercluster::Points;
