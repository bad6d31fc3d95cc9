// The range module: what stands between a caller's coordinates and the numbers from 0 to 1 that the tables hold.
// The names are the Rust's range.rs.
#![tactic(auto)]

ghost use Rattle.std.specs.Prelude.{◌≡◌, ◌&&◌};
ghost use Rattle.range.specs.Range.{smaller_of, larger_of, offset_of, scale_of, normalized, denormalized, in_bounds, converted};
ghost use Rattle.range.specs.Range.{system_in_bounds};

// The range of the incoming data of a Cartesian coordinate system. An offset or a scale that is not given is derived from it.
#[derive(Clone, Copy)]
pub struct DataRange {
    pub min_x: f64,
    pub min_y: f64,
    pub max_x: f64,
    pub max_y: f64,
    pub offset: Option<f64>,
    pub scale: Option<f64>,
}

// Longitude in degrees with y from 0 to 1 as the caller converted it; or Cartesian with a range.
#[derive(Clone, Copy)]
pub enum CoordinateSystem {
    LatLng,
    Cartesian { range: DataRange },
}

// A place, in the caller's coordinates or in the tables'.
#[derive(Clone, Copy)]
pub struct Point {
    pub x: f64,
    pub y: f64,
}

// The smaller of two numbers; where one of them is NaN, the other. std's `min` leaves open which of 0 and -0 it gives.
fn smaller(a: f64, b: f64) -> f64
    ensures { result ≡ smaller_of a b }
{
    if floats::is_nan(a) || b < a { b } else { a }
}

// The larger of two numbers; where one of them is NaN, the other.
fn larger(a: f64, b: f64) -> f64
    ensures { result ≡ larger_of a b }
{
    if floats::is_nan(a) || a < b { b } else { a }
}

impl DataRange {
    // (v - offset) / scale.
    pub fn normalize(self, v: f64) -> f64
        ensures { result ≡ normalized self v }
    {
        (v - self.offset()) / self.scale()
    }

    // v * scale + offset.
    pub fn denormalize(self, v: f64) -> f64
        ensures { result ≡ denormalized self v }
    {
        v * self.scale() + self.offset()
    }

    fn offset(self) -> f64
        ensures { result ≡ offset_of self }
    {
        self.offset.unwrap_or(smaller(self.min_x, self.min_y))
    }

    fn scale(self) -> f64
        ensures { result ≡ scale_of self }
    {
        let derived = larger(self.max_x, self.max_y) - self.offset();
        self.scale.unwrap_or(derived)
    }

    // Whether the four numbers, the offset and the scale are finite and the scale is above 0.
    fn is_in_bounds(self) -> bool
        ensures { result ≡ in_bounds self }
    {
        let mins = floats::both_finite(self.min_x, self.min_y);
        let maxs = floats::both_finite(self.max_x, self.max_y);
        let scale = self.scale();
        let settings = floats::both_finite(self.offset(), scale);
        (mins & maxs) & (settings & (0.0 < scale))
    }
}

impl CoordinateSystem {
    // The place in the tables' coordinates: a longitude becomes lng / 360 + 0.5 and y stays as given; Cartesian is normalised.
    pub fn convert(self, p: Point) -> Point
        ensures { result ≡ converted self p }
    {
        match self {
            CoordinateSystem::LatLng => Point {
                x: p.x / 360.0 + 0.5,
                y: p.y,
            },
            CoordinateSystem::Cartesian { range } => Point {
                x: range.normalize(p.x),
                y: range.normalize(p.y),
            },
        }
    }

    // Whether the coordinate system is one that a build takes.
    pub fn is_in_bounds(self) -> bool
        ensures { result ≡ system_in_bounds self }
    {
        match self {
            CoordinateSystem::LatLng => true,
            CoordinateSystem::Cartesian { range } => range.is_in_bounds(),
        }
    }
}
