// The question 'owner' to a build: the entry that owns a lamp in the table of a zoom, read from the column that the build leaves. Nothing
// is asked of the caller: what SCOPE does not take is refused with its number.
#![tactic(auto)]

ghost use Rattle.std.specs.Prelude.{◌≡◌, ◌+◌, ◌<◌, ◌≤◌};
ghost use Rattle.ask_owner.specs.Asked.{owners_reach, owner_spot, owner_asked};

use build_tables::State;
use refusals::Refusal;

// Whether the state is sound over columns of so many entries, and an owner column of so many places has N for each of its tables.
pub fn reaches(s: &State, room: usize, owners: usize) -> bool
    ensures { result ≡ owners_reach s.now room owners }
{
    s.is_sound(room) && build_tables::table_count(s.options) * s.count as usize <= owners
}

// Where a lamp's owner in the table of zoom z stands in the column.
pub fn spot(s: &State, lamp: u32, z: usize) -> usize
    requires { (z ≤ s.now.options.max_zoom + 1) × (owner_spot s.now lamp z < 18446744073709551616) }
    ensures { result ≡ owner_spot s.now lamp z }
{
    let o = s.options;
    let top = o.max_zoom as usize + 1;
    (top - z) * s.count as usize + lamp as usize
}

// The owner of a lamp: its place in the table of the zoom used.
pub fn owner(s: State, owners: &[u32], lamp: u32, zoom: u8) -> Result<usize, Refusal>
    ensures { result ≡ owner_asked s owners.now lamp zoom }
{
    if !reaches(&s, owners.len(), owners.len()) {
        return Err(Refusal::Spoiled);
    }
    if s.count <= lamp {
        return Err(Refusal::Lamp);
    }
    let o = s.options;
    let z = o.zoom_used(zoom) as usize;
    let place = owners[spot(&s, lamp, z)] as usize;
    let len = build_tables::len_of(s, z);
    if place < len {
        return Ok(place);
    }
    Err(Refusal::Spoiled)
}
