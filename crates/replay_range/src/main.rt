// Replays test vectors on the crate `range`, and says whether its answers are those that the vectors expect.
// A vector is a line of standard input: ten fields with one space between two of them and a line end after the last.
//     min_x min_y max_x max_y offset scale v normalized denormalized longitude
// A field is 16 lowercase hexadecimal digits, the bits of an f64, so that a line has 170 bytes. Any pattern of a NaN stands for NaN.
// An offset or a scale may be 16 dashes, for one that is derived from the range.
// Expected of the range are normalize(v) and denormalize(v), and of longitude/latitude the point (v, v) converted: (longitude, v).
#![tactic(auto)]

ghost use Rattle.std.specs.Prelude.{◌≡◌, ◌+◌, ◌≤◌, ◌<◌};
ghost use Rattle.replay_range.specs.Text.{dashes_is, separator_of, field_is, number_is, ranged_is, parsed_is};
ghost use Rattle.replay_range.specs.Judge.{converts_to, verdict_of};

use range::{CoordinateSystem, DataRange, Point};
use replay_vectors::{Function, Malformed, Verdict};

// Standard input.
const STDIN_FILENO: i32 = 0;

// A vector: what goes in, and what is expected.
#[derive(Clone, Copy)]
struct Case {
    range: DataRange,
    v: f64,
    normalized: f64,
    denormalized: f64,
    longitude: f64,
}

// Whether the 16 bytes from `at` on are dashes.
fn dashes(line: &[u8; 170], at: usize) -> bool
    requires { at + 16 ≤ 170 }
    ensures { dashes_is line.now at result }
{
    line[at..at + 16].iter().all(|byte| *byte == b'-')
}

// The byte after the field k.
fn separator(k: usize) -> u8
    ensures { result ≡ separator_of k }
{
    if k == 9 { b'\n' } else { b' ' }
}

// What the field k of a line holds, with the byte after it: a number, or dashes for one that is derived.
fn read_field(line: &[u8; 170], k: usize) -> Option<Option<f64>>
    requires { k < 10 }
    ensures { field_is line.now k result }
{
    let at = k * 17;
    if line[at + 16] != separator(k) {
        return None;
    }
    if dashes(line, at) {
        return Some(None);
    }
    let bits = replay_vectors::read_pattern(line, at)?;
    Some(Some(replay_vectors::float_of(bits)))
}

// The number that the field k of a line holds.
fn read_number(line: &[u8; 170], k: usize) -> Option<f64>
    requires { k < 10 }
    ensures { number_is line.now k result }
{
    read_field(line, k)?
}

// The range that the fields 0 to 5 of a line hold.
fn read_range(line: &[u8; 170]) -> Option<DataRange>
    ensures { ranged_is line.now result }
{
    Some(DataRange {
        min_x: read_number(line, 0)?,
        min_y: read_number(line, 1)?,
        max_x: read_number(line, 2)?,
        max_y: read_number(line, 3)?,
        offset: read_field(line, 4)?,
        scale: read_field(line, 5)?,
    })
}

// The vector of a line.
fn read_case(line: &[u8; 170]) -> Option<Case>
    ensures { parsed_is line.now result }
{
    Some(Case {
        range: read_range(line)?,
        v: read_number(line, 6)?,
        normalized: read_number(line, 7)?,
        denormalized: read_number(line, 8)?,
        longitude: read_number(line, 9)?,
    })
}

// Whether the point (v, v) under longitude/latitude becomes (longitude, v).
#[tactic(auto, unfolding(crate::specs::Judge::converts_to))]
fn converts(v: f64, longitude: f64) -> bool
    ensures { result ≡ converts_to v longitude }
{
    let p = CoordinateSystem::LatLng.convert(Point { x: v, y: v });
    replay_vectors::agree(p.x, longitude) && replay_vectors::agree(p.y, v)
}

// Replays a vector, and names the first function whose answer is not the expected one.
#[tactic(auto, unfolding(crate::specs::Judge::verdict_of))]
fn replay(c: Case) -> Verdict
    ensures { result ≡ verdict_of c }
{
    let range = c.range;
    if !replay_vectors::agree(range.normalize(c.v), c.normalized) {
        return Err(Function::Normalize);
    }
    if !replay_vectors::agree(range.denormalize(c.v), c.denormalized) {
        return Err(Function::Denormalize);
    }
    if !converts(c.v, c.longitude) {
        return Err(Function::Longitude);
    }
    Ok(())
}

// Reads the next line of standard input and replays its vector. A read that fails counts as the end of the input.
fn next_case() -> Result<Option<Verdict>, Malformed> {
    let mut line = [0u8; 170];
    match io::read_full(STDIN_FILENO, &mut line) {
        0 => Ok(None),
        170 => Ok(Some(replay(read_case(&line).ok_or(Malformed)?))),
        _ => Err(Malformed),
    }
}

// Replays standard input, and writes how that ended.
fn main() {
    replay_vectors::say_ending(replay_vectors::replay_all(next_case));
}
