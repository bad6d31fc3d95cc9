// A tile that is asked for of a table, as one value.
ghost use Rattle.std.specs.Prelude.{◌≤◌, length};
ghost use Rattle.build_tables.specs.laws.Bounds.{InBounds};
ghost use Rattle.ask_tile_table.specs.laws.Framed.{IsTile};

use build_tables::{Options, Table};

// The tile (z, x, y) of a build with these options, asked of a table with its index: there is such a tile, and the index may be searched.
#[derive(Clone, Copy)]
pub struct AskedTile<'a> {
    pub options: Options,
    pub z: u32,
    pub x: u32,
    pub y: u32,
    pub table: Table<'a>,
    ghost in_bounds: { InBounds options },
    ghost is_tile: { IsTile z x y },
    ghost some: { 1 ≤ length table.entries.x.now },
    ghost most: { length table.entries.x.now ≤ 1048576 },
}
