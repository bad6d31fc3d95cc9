// The C names as a static library: each calls the function of `exports` of its name, and promises what that one promises.
// Assumes nothing.
#![tactic(auto)]

ghost use Rattle.std.specs.Prelude.{◌≡◌, length};
ghost use Rattle.kdbush.specs.Reply.{built, index_checked, searched, column_after};
ghost use Rattle.kdwalk.specs.Reply.{step_carried, first_step, after_step};
ghost use Rattle.refusals.specs.Refusals.{number, carried as carried_by, refusal_carried};
ghost use Rattle.exports.specs.Given.{ranged, given_options};
ghost use Rattle.exports.specs.Told.{said, number_said, tally_said, told_c, told_of, effort_told, effort_told_of, tile_told, tile_of};
ghost use Rattle.exports.specs.Told.{post_told, post_told_of};
ghost use Rattle.exports.specs.Laid.{replied, laid, laid_of};
ghost use Rattle.exports.specs.Read.{entry_asked, lent_entry, read_as, read_of};
ghost use Rattle.owners.specs.LoadedWith.{loaded_with};
ghost use Rattle.supercluster.specs.Lent.{lent_all_mut};
ghost use Rattle.kdsort.specs.Lent.{lent_index_mut};
ghost use Rattle.range.specs.Range.{normalized, denormalized};
ghost use Rattle.build_tables.specs.State.{state_of};
ghost use Rattle.build_tables.specs.Options.{zoom_used};
ghost use Rattle.build_tables.specs.Lent.{lent_columns};
ghost use Rattle.ask_box.specs.Lists.{box_asked, ring_asked};
ghost use Rattle.ask_effort.specs.Effort.{effort_asked};
ghost use Rattle.ask_cluster.specs.Children.{children_of};
ghost use Rattle.ask_cluster.specs.Leaves.{leaves_of};
ghost use Rattle.ask_cluster.specs.Expansion.{zoom_of};
ghost use Rattle.ask_tile.specs.Asked.{tiled};
ghost use Rattle.ask_tile.specs.Tallied.{tallied};
ghost use Rattle.ask_owner.specs.Asked.{owner_asked};
ghost use Rattle.posting.specs.Post.{posted};

use kdslots::Query;

// `exports::kdbush_build`, which says what it answers and leaves.
#[unsafe(no_mangle)]
pub extern "C" fn kdbush_build(
    node_size: usize,
    xs: &[f64],
    ys: &[f64],
    ids: &mut [u32],
    coords: &mut [f64],
    carried: &mut usize,
) -> u32
    ensures result_value { let c = lent_index_mut ids coords in result ≡ number (index_checked node_size xs.now ys.now c.entry) }
    ensures carried_value { let c = lent_index_mut ids coords in carried.new ≡ refusal_carried (index_checked node_size xs.now ys.now c.entry) }
    ensures c_value { let c = lent_index_mut ids coords in c.exit ≡ built node_size xs.now ys.now c.entry }
{
    exports::kdbush_build(node_size, xs, ys, ids, coords, carried)
}

// `exports::kdbush_range`, which says what it answers and leaves.
#[unsafe(no_mangle)]
pub extern "C" fn kdbush_range(
    node_size: usize,
    n: usize,
    ids: &[u32],
    coords: &[f64],
    min_x: f64,
    min_y: f64,
    max_x: f64,
    max_y: f64,
    out: &mut [u32],
    carried: &mut usize,
) -> u32
    ensures result_value { let q = Query.Range min_x min_y max_x max_y in
        result ≡ number (searched q node_size n ids.now coords.now (length out.old)) }
    ensures carried_value { let q = Query.Range min_x min_y max_x max_y in
        carried.new ≡ carried_by (searched q node_size n ids.now coords.now (length out.old)) }
    ensures out_value { let q = Query.Range min_x min_y max_x max_y in
        out.new ≡ column_after q node_size n ids.now coords.now out.old }
{
    exports::kdbush_range(
        node_size, n, ids, coords, min_x, min_y, max_x, max_y, out, carried,
    )
}

// `exports::kdbush_within`, which says what it answers and leaves.
#[unsafe(no_mangle)]
pub extern "C" fn kdbush_within(
    node_size: usize,
    n: usize,
    ids: &[u32],
    coords: &[f64],
    qx: f64,
    qy: f64,
    radius: f64,
    out: &mut [u32],
    carried: &mut usize,
) -> u32
    ensures value { result ≡ number (searched (Query.Within qx qy radius) node_size n ids.now coords.now (length out.old)) }
    ensures carried_value { let q = Query.Within qx qy radius in
        carried.new ≡ carried_by (searched q node_size n ids.now coords.now (length out.old)) }
    ensures out_value { out.new ≡ column_after (Query.Within qx qy radius) node_size n ids.now coords.now out.old }
{
    exports::kdbush_within(node_size, n, ids, coords, qx, qy, radius, out, carried)
}

// `exports::kdbush_range_first`, which says what it answers and leaves.
#[unsafe(no_mangle)]
pub extern "C" fn kdbush_range_first(
    node_size: usize,
    n: usize,
    coords: &[f64],
    min_x: f64,
    min_y: f64,
    max_x: f64,
    max_y: f64,
    slot: &mut usize,
) -> u32
    ensures result_value { let q = Query.Range min_x min_y max_x max_y in
        result ≡ number (first_step q node_size n coords.now) }
    ensures slot_value { let q = Query.Range min_x min_y max_x max_y in
        slot.new ≡ step_carried (first_step q node_size n coords.now) }
{
    exports::kdbush_range_first(node_size, n, coords, min_x, min_y, max_x, max_y, slot)
}

// `exports::kdbush_range_after`, which says what it answers and leaves.
#[unsafe(no_mangle)]
pub extern "C" fn kdbush_range_after(
    node_size: usize,
    n: usize,
    coords: &[f64],
    min_x: f64,
    min_y: f64,
    max_x: f64,
    max_y: f64,
    slot: usize,
    next: &mut usize,
) -> u32
    ensures result_value { let q = Query.Range min_x min_y max_x max_y in
        result ≡ number (after_step q node_size n coords.now slot) }
    ensures next_value { let q = Query.Range min_x min_y max_x max_y in
        next.new ≡ step_carried (after_step q node_size n coords.now slot) }
{
    exports::kdbush_range_after(node_size, n, coords, min_x, min_y, max_x, max_y, slot, next)
}

// `exports::kdbush_within_first`, which says what it answers and leaves.
#[unsafe(no_mangle)]
pub extern "C" fn kdbush_within_first(
    node_size: usize,
    n: usize,
    coords: &[f64],
    qx: f64,
    qy: f64,
    radius: f64,
    slot: &mut usize,
) -> u32
    ensures value { result ≡ number (first_step (Query.Within qx qy radius) node_size n coords.now) }
    ensures slot_value { slot.new ≡ step_carried (first_step (Query.Within qx qy radius) node_size n coords.now) }
{
    exports::kdbush_within_first(node_size, n, coords, qx, qy, radius, slot)
}

// `exports::kdbush_within_after`, which says what it answers and leaves.
#[unsafe(no_mangle)]
pub extern "C" fn kdbush_within_after(
    node_size: usize,
    n: usize,
    coords: &[f64],
    qx: f64,
    qy: f64,
    radius: f64,
    slot: usize,
    next: &mut usize,
) -> u32
    ensures value { result ≡ number (after_step (Query.Within qx qy radius) node_size n coords.now slot) }
    ensures next_value { next.new ≡ step_carried (after_step (Query.Within qx qy radius) node_size n coords.now slot) }
{
    exports::kdbush_within_after(node_size, n, coords, qx, qy, radius, slot, next)
}

// `exports::supercluster_normalize`, which says what it answers and leaves.
#[unsafe(no_mangle)]
pub extern "C" fn supercluster_normalize(
    min_x: f64,
    min_y: f64,
    max_x: f64,
    max_y: f64,
    offset_given: bool,
    offset: f64,
    scale_given: bool,
    scale: f64,
    v: f64,
) -> f64
    ensures { result ≡ normalized (ranged min_x min_y max_x max_y offset_given offset scale_given scale) v }
{
    exports::supercluster_normalize(
        min_x,
        min_y,
        max_x,
        max_y,
        offset_given,
        offset,
        scale_given,
        scale,
        v,
    )
}

// `exports::supercluster_denormalize`, which says what it answers and leaves.
#[unsafe(no_mangle)]
pub extern "C" fn supercluster_denormalize(
    min_x: f64,
    min_y: f64,
    max_x: f64,
    max_y: f64,
    offset_given: bool,
    offset: f64,
    scale_given: bool,
    scale: f64,
    v: f64,
) -> f64
    ensures { result ≡ denormalized (ranged min_x min_y max_x max_y offset_given offset scale_given scale) v }
{
    exports::supercluster_denormalize(
        min_x,
        min_y,
        max_x,
        max_y,
        offset_given,
        offset,
        scale_given,
        scale,
        v,
    )
}

// `exports::supercluster_zoom_used`, which says what it answers and leaves.
#[unsafe(no_mangle)]
pub extern "C" fn supercluster_zoom_used(
    min_zoom: u8,
    max_zoom: u8,
    min_points: u8,
    radius: f64,
    extent: f64,
    node_size: usize,
    cartesian: bool,
    min_x: f64,
    min_y: f64,
    max_x: f64,
    max_y: f64,
    offset_given: bool,
    offset: f64,
    scale_given: bool,
    scale: f64,
    longitude_strips_only: bool,
    zoom: u8,
) -> u8
    ensures { let o = given_options min_zoom max_zoom min_points radius extent node_size cartesian min_x min_y max_x max_y
        offset_given offset scale_given scale longitude_strips_only in
        result ≡ zoom_used o zoom }
{
    exports::supercluster_zoom_used(
        min_zoom,
        max_zoom,
        min_points,
        radius,
        extent,
        node_size,
        cartesian,
        min_x,
        min_y,
        max_x,
        max_y,
        offset_given,
        offset,
        scale_given,
        scale,
        longitude_strips_only,
        zoom,
    )
}

// `exports::supercluster_load`, which says what it answers and leaves.
#[unsafe(no_mangle)]
pub extern "C" fn supercluster_load(
    min_zoom: u8,
    max_zoom: u8,
    min_points: u8,
    radius: f64,
    extent: f64,
    node_size: usize,
    cartesian: bool,
    min_x: f64,
    min_y: f64,
    max_x: f64,
    max_y: f64,
    offset_given: bool,
    offset: f64,
    scale_given: bool,
    scale: f64,
    longitude_strips_only: bool,
    xs: &[f64],
    ys: &[f64],
    energies: &[u64],
    x: &mut [f64],
    y: &mut [f64],
    seen: &mut [u8],
    id: &mut [u32],
    parent: &mut [u32],
    num: &mut [u32],
    energy: &mut [u64],
    ids: &mut [u32],
    coords: &mut [f64],
    near: &mut [u32],
    owners: &mut [u32],
    starts: &mut [u32; 32],
    lens: &mut [u32; 32],
    carried: &mut usize,
) -> u32
    ensures { let o = given_options min_zoom max_zoom min_points radius extent node_size cartesian min_x min_y max_x max_y
        offset_given offset scale_given scale longitude_strips_only in
        let l = lent_all_mut x y seen id parent num energy ids coords near in
        laid (replied result carried.new starts.new lens.new) l.exit owners.new
        ≡ laid_of (loaded_with o xs.now ys.now energies.now l.entry owners.old) starts.old lens.old }
{
    exports::supercluster_load(
        min_zoom,
        max_zoom,
        min_points,
        radius,
        extent,
        node_size,
        cartesian,
        min_x,
        min_y,
        max_x,
        max_y,
        offset_given,
        offset,
        scale_given,
        scale,
        longitude_strips_only,
        xs,
        ys,
        energies,
        x,
        y,
        seen,
        id,
        parent,
        num,
        energy,
        ids,
        coords,
        near,
        owners,
        starts,
        lens,
        carried,
    )
}

// `exports::supercluster_box`, which says what it answers and leaves.
#[unsafe(no_mangle)]
pub extern "C" fn supercluster_box(
    min_zoom: u8,
    max_zoom: u8,
    min_points: u8,
    radius: f64,
    extent: f64,
    node_size: usize,
    cartesian: bool,
    min_x: f64,
    min_y: f64,
    max_x: f64,
    max_y: f64,
    offset_given: bool,
    offset: f64,
    scale_given: bool,
    scale: f64,
    longitude_strips_only: bool,
    count: u32,
    starts: &[u32; 32],
    lens: &[u32; 32],
    ids: &[u32],
    coords: &[f64],
    zoom: u8,
    west: f64,
    least_y: f64,
    east: f64,
    greatest_y: f64,
    out: &mut [u32],
    carried: &mut usize,
) -> u32
    ensures { let o = given_options min_zoom max_zoom min_points radius extent node_size cartesian min_x min_y max_x max_y
        offset_given offset scale_given scale longitude_strips_only in
        let s = state_of o count starts.now lens.now in
        told_c result carried.new out.new ≡ told_of (box_asked s ids.now coords.now zoom west least_y east greatest_y) out.old }
{
    exports::supercluster_box(
        min_zoom,
        max_zoom,
        min_points,
        radius,
        extent,
        node_size,
        cartesian,
        min_x,
        min_y,
        max_x,
        max_y,
        offset_given,
        offset,
        scale_given,
        scale,
        longitude_strips_only,
        count,
        starts,
        lens,
        ids,
        coords,
        zoom,
        west,
        least_y,
        east,
        greatest_y,
        out,
        carried,
    )
}

// `exports::supercluster_box_effort`, which says what it answers and leaves.
#[unsafe(no_mangle)]
pub extern "C" fn supercluster_box_effort(
    min_zoom: u8,
    max_zoom: u8,
    min_points: u8,
    radius: f64,
    extent: f64,
    node_size: usize,
    cartesian: bool,
    min_x: f64,
    min_y: f64,
    max_x: f64,
    max_y: f64,
    offset_given: bool,
    offset: f64,
    scale_given: bool,
    scale: f64,
    longitude_strips_only: bool,
    count: u32,
    starts: &[u32; 32],
    lens: &[u32; 32],
    ids: &[u32],
    coords: &[f64],
    zoom: u8,
    west: f64,
    least_y: f64,
    east: f64,
    greatest_y: f64,
    allowance: usize,
    out: &mut [u32],
    tested: &mut usize,
    stopped: &mut bool,
    carried: &mut usize,
) -> u32
    ensures { let o = given_options min_zoom max_zoom min_points radius extent node_size cartesian min_x min_y max_x max_y
        offset_given offset scale_given scale longitude_strips_only in
        let s = state_of o count starts.now lens.now in
        effort_told result carried.new tested.new stopped.new out.new
        ≡ effort_told_of (effort_asked s ids.now coords.now zoom west least_y east greatest_y) allowance out.old }
{
    exports::supercluster_box_effort(
        min_zoom,
        max_zoom,
        min_points,
        radius,
        extent,
        node_size,
        cartesian,
        min_x,
        min_y,
        max_x,
        max_y,
        offset_given,
        offset,
        scale_given,
        scale,
        longitude_strips_only,
        count,
        starts,
        lens,
        ids,
        coords,
        zoom,
        west,
        least_y,
        east,
        greatest_y,
        allowance,
        out,
        tested,
        stopped,
        carried,
    )
}

// `exports::supercluster_ring`, which says what it answers and leaves.
#[unsafe(no_mangle)]
pub extern "C" fn supercluster_ring(
    min_zoom: u8,
    max_zoom: u8,
    min_points: u8,
    radius: f64,
    extent: f64,
    node_size: usize,
    cartesian: bool,
    min_x: f64,
    min_y: f64,
    max_x: f64,
    max_y: f64,
    offset_given: bool,
    offset: f64,
    scale_given: bool,
    scale: f64,
    longitude_strips_only: bool,
    count: u32,
    starts: &[u32; 32],
    lens: &[u32; 32],
    ids: &[u32],
    coords: &[f64],
    zoom: u8,
    ring_x: f64,
    ring_y: f64,
    ring_radius: f64,
    out: &mut [u32],
    carried: &mut usize,
) -> u32
    ensures { let o = given_options min_zoom max_zoom min_points radius extent node_size cartesian min_x min_y max_x max_y
        offset_given offset scale_given scale longitude_strips_only in
        let s = state_of o count starts.now lens.now in
        told_c result carried.new out.new ≡ told_of (ring_asked s ids.now coords.now zoom ring_x ring_y ring_radius) out.old }
{
    exports::supercluster_ring(
        min_zoom,
        max_zoom,
        min_points,
        radius,
        extent,
        node_size,
        cartesian,
        min_x,
        min_y,
        max_x,
        max_y,
        offset_given,
        offset,
        scale_given,
        scale,
        longitude_strips_only,
        count,
        starts,
        lens,
        ids,
        coords,
        zoom,
        ring_x,
        ring_y,
        ring_radius,
        out,
        carried,
    )
}

// `exports::supercluster_children`, which says what it answers and leaves.
#[unsafe(no_mangle)]
pub extern "C" fn supercluster_children(
    min_zoom: u8,
    max_zoom: u8,
    min_points: u8,
    radius: f64,
    extent: f64,
    node_size: usize,
    cartesian: bool,
    min_x: f64,
    min_y: f64,
    max_x: f64,
    max_y: f64,
    offset_given: bool,
    offset: f64,
    scale_given: bool,
    scale: f64,
    longitude_strips_only: bool,
    count: u32,
    starts: &[u32; 32],
    lens: &[u32; 32],
    x: &[f64],
    y: &[f64],
    seen: &[u8],
    id: &[u32],
    parent: &[u32],
    num: &[u32],
    energy: &[u64],
    ids: &[u32],
    coords: &[f64],
    cid: u32,
    out: &mut [u32],
    carried: &mut usize,
) -> u32
    ensures { let o = given_options min_zoom max_zoom min_points radius extent node_size cartesian min_x min_y max_x max_y
        offset_given offset scale_given scale longitude_strips_only in
        let s = state_of o count starts.now lens.now in
        let c = lent_columns x y seen id parent num energy ids coords in
        told_c result carried.new out.new ≡ told_of (children_of s c cid) out.old }
{
    exports::supercluster_children(
        min_zoom,
        max_zoom,
        min_points,
        radius,
        extent,
        node_size,
        cartesian,
        min_x,
        min_y,
        max_x,
        max_y,
        offset_given,
        offset,
        scale_given,
        scale,
        longitude_strips_only,
        count,
        starts,
        lens,
        x,
        y,
        seen,
        id,
        parent,
        num,
        energy,
        ids,
        coords,
        cid,
        out,
        carried,
    )
}

// `exports::supercluster_leaves`, which says what it answers and leaves.
#[unsafe(no_mangle)]
pub extern "C" fn supercluster_leaves(
    min_zoom: u8,
    max_zoom: u8,
    min_points: u8,
    radius: f64,
    extent: f64,
    node_size: usize,
    cartesian: bool,
    min_x: f64,
    min_y: f64,
    max_x: f64,
    max_y: f64,
    offset_given: bool,
    offset: f64,
    scale_given: bool,
    scale: f64,
    longitude_strips_only: bool,
    count: u32,
    starts: &[u32; 32],
    lens: &[u32; 32],
    x: &[f64],
    y: &[f64],
    seen: &[u8],
    id: &[u32],
    parent: &[u32],
    num: &[u32],
    energy: &[u64],
    ids: &[u32],
    coords: &[f64],
    cid: u32,
    limit: u32,
    skip: u32,
    out: &mut [u32],
    carried: &mut usize,
) -> u32
    ensures { let o = given_options min_zoom max_zoom min_points radius extent node_size cartesian min_x min_y max_x max_y
        offset_given offset scale_given scale longitude_strips_only in
        let s = state_of o count starts.now lens.now in
        let c = lent_columns x y seen id parent num energy ids coords in
        told_c result carried.new out.new ≡ told_of (leaves_of s c cid limit skip) out.old }
{
    exports::supercluster_leaves(
        min_zoom,
        max_zoom,
        min_points,
        radius,
        extent,
        node_size,
        cartesian,
        min_x,
        min_y,
        max_x,
        max_y,
        offset_given,
        offset,
        scale_given,
        scale,
        longitude_strips_only,
        count,
        starts,
        lens,
        x,
        y,
        seen,
        id,
        parent,
        num,
        energy,
        ids,
        coords,
        cid,
        limit,
        skip,
        out,
        carried,
    )
}

// `exports::supercluster_expansion_zoom`, which says what it answers and leaves.
#[unsafe(no_mangle)]
pub extern "C" fn supercluster_expansion_zoom(
    min_zoom: u8,
    max_zoom: u8,
    min_points: u8,
    radius: f64,
    extent: f64,
    node_size: usize,
    cartesian: bool,
    min_x: f64,
    min_y: f64,
    max_x: f64,
    max_y: f64,
    offset_given: bool,
    offset: f64,
    scale_given: bool,
    scale: f64,
    longitude_strips_only: bool,
    count: u32,
    starts: &[u32; 32],
    lens: &[u32; 32],
    x: &[f64],
    y: &[f64],
    seen: &[u8],
    id: &[u32],
    parent: &[u32],
    num: &[u32],
    energy: &[u64],
    ids: &[u32],
    coords: &[f64],
    cid: u32,
    carried: &mut usize,
) -> u32
    ensures { let o = given_options min_zoom max_zoom min_points radius extent node_size cartesian min_x min_y max_x max_y
        offset_given offset scale_given scale longitude_strips_only in
        let s = state_of o count starts.now lens.now in
        let c = lent_columns x y seen id parent num energy ids coords in
        said result carried.new ≡ number_said (zoom_of s c cid) }
{
    exports::supercluster_expansion_zoom(
        min_zoom,
        max_zoom,
        min_points,
        radius,
        extent,
        node_size,
        cartesian,
        min_x,
        min_y,
        max_x,
        max_y,
        offset_given,
        offset,
        scale_given,
        scale,
        longitude_strips_only,
        count,
        starts,
        lens,
        x,
        y,
        seen,
        id,
        parent,
        num,
        energy,
        ids,
        coords,
        cid,
        carried,
    )
}

// `exports::supercluster_tile`, which says what it answers and leaves.
#[unsafe(no_mangle)]
pub extern "C" fn supercluster_tile(
    min_zoom: u8,
    max_zoom: u8,
    min_points: u8,
    radius: f64,
    extent: f64,
    node_size: usize,
    cartesian: bool,
    min_x: f64,
    min_y: f64,
    max_x: f64,
    max_y: f64,
    offset_given: bool,
    offset: f64,
    scale_given: bool,
    scale: f64,
    longitude_strips_only: bool,
    count: u32,
    starts: &[u32; 32],
    lens: &[u32; 32],
    x: &[f64],
    y: &[f64],
    seen: &[u8],
    id: &[u32],
    parent: &[u32],
    num: &[u32],
    energy: &[u64],
    ids: &[u32],
    coords: &[f64],
    z: u8,
    tile_x: u32,
    tile_y: u32,
    places: &mut [u32],
    px: &mut [i64],
    py: &mut [i64],
    carried: &mut usize,
) -> u32
    ensures { let o = given_options min_zoom max_zoom min_points radius extent node_size cartesian min_x min_y max_x max_y
        offset_given offset scale_given scale longitude_strips_only in
        let s = state_of o count starts.now lens.now in
        let c = lent_columns x y seen id parent num energy ids coords in
        tile_told result carried.new places.new px.new py.new
        ≡ tile_of (tiled s c z tile_x tile_y places.old px.old py.old) }
{
    exports::supercluster_tile(
        min_zoom,
        max_zoom,
        min_points,
        radius,
        extent,
        node_size,
        cartesian,
        min_x,
        min_y,
        max_x,
        max_y,
        offset_given,
        offset,
        scale_given,
        scale,
        longitude_strips_only,
        count,
        starts,
        lens,
        x,
        y,
        seen,
        id,
        parent,
        num,
        energy,
        ids,
        coords,
        z,
        tile_x,
        tile_y,
        places,
        px,
        py,
        carried,
    )
}

// `exports::supercluster_tally`, which says what it answers and leaves.
#[unsafe(no_mangle)]
pub extern "C" fn supercluster_tally(
    min_zoom: u8,
    max_zoom: u8,
    min_points: u8,
    radius: f64,
    extent: f64,
    node_size: usize,
    cartesian: bool,
    min_x: f64,
    min_y: f64,
    max_x: f64,
    max_y: f64,
    offset_given: bool,
    offset: f64,
    scale_given: bool,
    scale: f64,
    longitude_strips_only: bool,
    count: u32,
    starts: &[u32; 32],
    lens: &[u32; 32],
    x: &[f64],
    y: &[f64],
    seen: &[u8],
    id: &[u32],
    parent: &[u32],
    num: &[u32],
    energy: &[u64],
    ids: &[u32],
    coords: &[f64],
    z: u8,
    tile_x: u32,
    tile_y: u32,
    carried: &mut usize,
) -> u32
    ensures { let o = given_options min_zoom max_zoom min_points radius extent node_size cartesian min_x min_y max_x max_y
        offset_given offset scale_given scale longitude_strips_only in
        let s = state_of o count starts.now lens.now in
        let c = lent_columns x y seen id parent num energy ids coords in
        said result carried.new ≡ tally_said (tallied s c z tile_x tile_y) }
{
    exports::supercluster_tally(
        min_zoom,
        max_zoom,
        min_points,
        radius,
        extent,
        node_size,
        cartesian,
        min_x,
        min_y,
        max_x,
        max_y,
        offset_given,
        offset,
        scale_given,
        scale,
        longitude_strips_only,
        count,
        starts,
        lens,
        x,
        y,
        seen,
        id,
        parent,
        num,
        energy,
        ids,
        coords,
        z,
        tile_x,
        tile_y,
        carried,
    )
}

// `exports::supercluster_owner`, which says what it answers and leaves.
#[unsafe(no_mangle)]
pub extern "C" fn supercluster_owner(
    min_zoom: u8,
    max_zoom: u8,
    min_points: u8,
    radius: f64,
    extent: f64,
    node_size: usize,
    cartesian: bool,
    min_x: f64,
    min_y: f64,
    max_x: f64,
    max_y: f64,
    offset_given: bool,
    offset: f64,
    scale_given: bool,
    scale: f64,
    longitude_strips_only: bool,
    count: u32,
    starts: &[u32; 32],
    lens: &[u32; 32],
    owners: &[u32],
    lamp: u32,
    zoom: u8,
    place: &mut usize,
) -> u32
    ensures { let o = given_options min_zoom max_zoom min_points radius extent node_size cartesian min_x min_y max_x max_y
        offset_given offset scale_given scale longitude_strips_only in
        let s = state_of o count starts.now lens.now in
        said result place.new ≡ number_said (owner_asked s owners.now lamp zoom) }
{
    exports::supercluster_owner(
        min_zoom,
        max_zoom,
        min_points,
        radius,
        extent,
        node_size,
        cartesian,
        min_x,
        min_y,
        max_x,
        max_y,
        offset_given,
        offset,
        scale_given,
        scale,
        longitude_strips_only,
        count,
        starts,
        lens,
        owners,
        lamp,
        zoom,
        place,
    )
}

// `exports::supercluster_post`, which says what it answers and leaves.
#[unsafe(no_mangle)]
pub extern "C" fn supercluster_post(
    min_zoom: u8,
    max_zoom: u8,
    min_points: u8,
    radius: f64,
    extent: f64,
    node_size: usize,
    cartesian: bool,
    min_x: f64,
    min_y: f64,
    max_x: f64,
    max_y: f64,
    offset_given: bool,
    offset: f64,
    scale_given: bool,
    scale: f64,
    longitude_strips_only: bool,
    count: u32,
    starts: &[u32; 32],
    lens: &[u32; 32],
    energy: &mut [u64],
    owners: &[u32],
    lamp: u32,
    figure: u64,
) -> u32
    ensures { let o = given_options min_zoom max_zoom min_points radius extent node_size cartesian min_x min_y max_x max_y
        offset_given offset scale_given scale longitude_strips_only in
        let s = state_of o count starts.now lens.now in
        post_told result energy.new ≡ post_told_of (posted s energy.old owners.now lamp figure) }
{
    exports::supercluster_post(
        min_zoom,
        max_zoom,
        min_points,
        radius,
        extent,
        node_size,
        cartesian,
        min_x,
        min_y,
        max_x,
        max_y,
        offset_given,
        offset,
        scale_given,
        scale,
        longitude_strips_only,
        count,
        starts,
        lens,
        energy,
        owners,
        lamp,
        figure,
    )
}

// `exports::supercluster_entry`, which says what it answers and leaves.
#[unsafe(no_mangle)]
pub extern "C" fn supercluster_entry(
    min_zoom: u8,
    max_zoom: u8,
    min_points: u8,
    radius: f64,
    extent: f64,
    node_size: usize,
    cartesian: bool,
    min_x: f64,
    min_y: f64,
    max_x: f64,
    max_y: f64,
    offset_given: bool,
    offset: f64,
    scale_given: bool,
    scale: f64,
    longitude_strips_only: bool,
    count: u32,
    starts: &[u32; 32],
    lens: &[u32; 32],
    x: &[f64],
    y: &[f64],
    seen: &[u8],
    id: &[u32],
    parent: &[u32],
    num: &[u32],
    energy: &[u64],
    ids: &[u32],
    coords: &[f64],
    zoom: u8,
    place: u32,
    entry_x: &mut f64,
    entry_y: &mut f64,
    entry_seen: &mut u8,
    entry_id: &mut u32,
    entry_parent: &mut u32,
    entry_num: &mut u32,
    entry_energy: &mut u64,
) -> u32
    ensures { let o = given_options min_zoom max_zoom min_points radius extent node_size cartesian min_x min_y max_x max_y
        offset_given offset scale_given scale longitude_strips_only in
        let s = state_of o count starts.now lens.now in
        let c = lent_columns x y seen id parent num energy ids coords in
        let l = lent_entry entry_x entry_y entry_seen entry_id entry_parent entry_num entry_energy in
        read_as result l.exit ≡ read_of (entry_asked s c zoom place) l.entry }
{
    exports::supercluster_entry(
        min_zoom,
        max_zoom,
        min_points,
        radius,
        extent,
        node_size,
        cartesian,
        min_x,
        min_y,
        max_x,
        max_y,
        offset_given,
        offset,
        scale_given,
        scale,
        longitude_strips_only,
        count,
        starts,
        lens,
        x,
        y,
        seen,
        id,
        parent,
        num,
        energy,
        ids,
        coords,
        zoom,
        place,
        entry_x,
        entry_y,
        entry_seen,
        entry_id,
        entry_parent,
        entry_num,
        entry_energy,
    )
}
