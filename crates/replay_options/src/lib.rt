// What the programs share that replay builds and questions: how a case gives the options of a build, in words as `replay_vectors` reads
// them.
//     min_points radius extent node_size cartesian min_x min_y max_x max_y offset_given offset scale_given scale
//     longitude_strips_only
// 0 stands for what is derived, and for longitude, and 1 for what is given, and for Cartesian; the last word is 1 where
// a tile's strips run for longitude only, otherwise 0. Proved: nothing here fails.
// Assumed: what standard input gives is not modelled, so that the functions that read are only proved to be safe.
#![tactic(auto)]

ghost use Rattle.std.specs.Prelude.{◌≡◌, eqb};
ghost use Rattle.build_tables.specs.Given.{setting_of};

use build_tables::Options;
use range::{CoordinateSystem, DataRange};
use replay_vectors::Malformed;

// The offset or the scale of a case, by the word before it: 1 where it is given.
fn setting_of(word: usize, v: f64) -> Option<f64>
    ensures { result ≡ setting_of (eqb word 1) v }
{
    build_tables::setting(word == 1, v)
}

// Reads an offset or a scale.
fn read_setting() -> Result<Option<f64>, Malformed> {
    let word = replay_vectors::next_count(1, false)?;
    Ok(setting_of(word, replay_vectors::next(false)?))
}

// Reads a range.
fn read_range() -> Result<DataRange, Malformed> {
    Ok(DataRange {
        min_x: replay_vectors::next(false)?,
        min_y: replay_vectors::next(false)?,
        max_x: replay_vectors::next(false)?,
        max_y: replay_vectors::next(false)?,
        offset: read_setting()?,
        scale: read_setting()?,
    })
}

// Reads whether the coordinates are Cartesian, and their range.
fn read_system() -> Result<CoordinateSystem, Malformed> {
    let cartesian = replay_vectors::next_count(1, false)?;
    Ok(build_tables::system(cartesian == 1, read_range()?))
}

// Reads the options after the two zooms.
pub fn read_options(min_zoom: u8, max_zoom: u8) -> Result<Options, Malformed> {
    Ok(Options {
        min_zoom,
        max_zoom,
        min_points: replay_vectors::next(false)?,
        radius: replay_vectors::next(false)?,
        extent: replay_vectors::next(false)?,
        node_size: replay_vectors::next_bits(false)? as usize,
        coordinate_system: read_system()?,
        longitude_strips_only: replay_vectors::next_count(1, false)? == 1,
    })
}
