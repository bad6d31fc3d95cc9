// A box as it is searched: the rule for its longitudes, the one or two searches that it comes to, and whether it is one that SCOPE
// takes. Every question about a box rests on it. Of its four numbers, y grows downwards on a mercator map, so that least_y is the northern
// edge of a longitude build; on a Cartesian plan it is the least y as given. They go one by one, as the C names have them.
#![tactic(auto)]

ghost use Rattle.std.specs.Prelude.{◌≡◌, T};
ghost use Rattle.std.specs.Float.{binary64};
ghost use Rattle.std.specs.Float.Ieee.{le, rem};
ghost use Rattle.std.specs.Float.Ieee.Scale.{finite};
ghost use Rattle.range.specs.Range.{full_circle};
ghost use Rattle.ask_box_plan.specs.Rule.{wrapped, wrapped_east, new_west, new_east, box_of, plan_of, box_ok};
ghost use Rattle.ask_box_plan.specs.laws.Queries.{queries_of};

use kdslots::Query;
use range::{CoordinateSystem, Point};

// The edges of a box of longitudes after the rule.
#[derive(Clone, Copy)]
struct Edges {
    west: f64,
    east: f64,
}

// What is searched: the first, and then the second if there are two.
#[derive(Clone, Copy)]
pub struct BoxPlan {
    pub first: Query,
    pub second: Option<Query>,
}

// What is left of x, from 360 on, when 360 is taken from it as often as it goes: 360 * 2 ^ 1015 first, where that is not more than what
// is left, and then each half of it. Every step is exact.
fn reduced(x: f64) -> f64
    requires finite { T (finite x) }
    requires from_360 { T (le full_circle x) }
    ensures { result ≡ rem binary64 x full_circle }
{
    let mut left = x;
    let mut t = f64::from_bits(0x7FE6_8000_0000_0000);
    for i in 0..1016u32 {
        if t <= left {
            left -= t;
        }
        t /= 2.0;
    }
    left
}

// v % 360, with the sign of v.
fn rest(v: f64) -> f64
    ensures { result ≡ rem binary64 v full_circle }
{
    if !floats::is_finite(v) {
        return v - v;
    }
    if v < 0.0 {
        let m = -v;
        if m < 360.0 {
            return v;
        }
        return -reduced(m);
    }
    if v < 360.0 {
        return v;
    }
    if v < 720.0 {
        return v - 360.0;
    }
    reduced(v)
}

// A longitude brought into -180 to 180.
fn wrap(v: f64) -> f64
    ensures { result ≡ wrapped v }
{
    rest(rest(v + 180.0) + 360.0) - 180.0
}

// The same of an eastern edge: 180 stays.
fn wrap_east(v: f64) -> f64
    ensures { result ≡ wrapped_east v }
{
    if v == 180.0 {
        return 180.0;
    }
    wrap(v)
}

// The rule for the edges of a box of longitudes.
fn rule(west: f64, east: f64) -> Edges
    ensures { (result.west ≡ new_west west east) × (result.east ≡ new_east west east) }
{
    if east - west >= 360.0 {
        return Edges {
            west: -180.0,
            east: 180.0,
        };
    }
    let w = wrap(west);
    let e = wrap_east(east);
    Edges { west: w, east: e }
}

// The box of two corners, converted.
fn box_of(c: CoordinateSystem, west: f64, least_y: f64, east: f64, greatest_y: f64) -> Query
    ensures { result ≡ box_of c west least_y east greatest_y }
{
    let a = c.convert(Point {
        x: west,
        y: least_y,
    });
    let b = c.convert(Point {
        x: east,
        y: greatest_y,
    });
    Query::Range {
        min_x: a.x,
        min_y: a.y,
        max_x: b.x,
        max_y: b.y,
    }
}

// What is searched for a box.
pub fn plan_box(c: CoordinateSystem, west: f64, least_y: f64, east: f64, greatest_y: f64) -> BoxPlan
    ensures { queries_of result ≡ plan_of c west least_y east greatest_y }
{
    match c {
        CoordinateSystem::Cartesian { range } => {
            BoxPlan {
                first: box_of(c, west, least_y, east, greatest_y),
                second: None,
            }
        }
        CoordinateSystem::LatLng => {
            let r = rule(west, east);
            if r.west > r.east {
                let a = rule(r.west, 180.0);
                let b = rule(-180.0, r.east);
                let f = box_of(c, a.west, least_y, a.east, greatest_y);
                let g = box_of(c, b.west, least_y, b.east, greatest_y);
                return BoxPlan {
                    first: f,
                    second: Some(g),
                };
            }
            BoxPlan {
                first: box_of(c, r.west, least_y, r.east, greatest_y),
                second: None,
            }
        }
    }
}

// Whether a box is one that SCOPE takes.
pub fn box_ok(c: CoordinateSystem, west: f64, least_y: f64, east: f64, greatest_y: f64) -> bool
    ensures { result ≡ box_ok c west least_y east greatest_y }
{
    let given = Query::Range {
        min_x: west,
        min_y: least_y,
        max_x: east,
        max_y: greatest_y,
    };
    if !given.is_ok() {
        return false;
    }
    match c {
        CoordinateSystem::Cartesian { range } => true,
        CoordinateSystem::LatLng => floats::in_unit(least_y) && floats::in_unit(greatest_y),
    }
}
