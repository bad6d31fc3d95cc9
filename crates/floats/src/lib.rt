// Tests and functions on f64 whose meaning is said in the words of lib.Ieee, and below specs/ the laws of f64 that the other crates rest
// on.
#![tactic(auto)]

ghost use Rattle.std.specs.Prelude.{◌≡◌, ◌^◌, ◌<◌, ◌&&◌, T};
ghost use Rattle.std.specs.Float.Ieee.{le, neg, is_nan};
ghost use Rattle.std.specs.Float.Ieee.Scale.{finite};
ghost use Rattle.floats.specs.Numbers.{zero, pow48, float};
ghost use Rattle.floats.specs.Unit.{in01};
ghost use Rattle.floats.specs.Away.{away_n, away};

// Whether x is from 0 to 1. A NaN is not.
pub fn in_unit(x: f64) -> bool
    ensures { result ≡ in01 x }
{
    0.0 <= x && x <= 1.0
}

// Whether x is no number.
pub fn is_nan(x: f64) -> bool
    ensures { result ≡ is_nan x }
{
    x.is_nan()
}

// Whether x is a number and no infinity.
pub fn is_finite(x: f64) -> bool
    ensures { result ≡ finite x }
{
    x.is_finite()
}

// Whether both are numbers and no infinities.
pub fn both_finite(a: f64, b: f64) -> bool
    ensures { result ≡ (finite a && finite b) }
{
    is_finite(a) && is_finite(b)
}

// 2 ^ n, made from its bits: (n + 1023) * 2 ^ 52.
pub fn power(n: u32) -> f64
    requires { n < 32 }
    ensures { result ≡ float (2 ^ n) }
{
    f64::from_bits((n as u64 + 1023) * 4503599627370496)
}

// The whole number nearest to x, which is not negative. A half goes up.
fn round_up(x: f64) -> u64
    requires not_negative { T (le zero x) }
    requires at_most { T (le x pow48) }
    ensures value { result ≡ away_n x }
    ensures upper_bound { result < 2 ^ 49 }
{
    let t = std::num::truncating_f64_to_u64(x);
    let rest = x - (t as f64);
    if 0.5 <= rest { t + 1 } else { t }
}

// The whole number nearest to v, which is within 2 ^ 48 either way. A half goes away from zero.
pub fn round_away(v: f64) -> i64
    requires at_least { T (le (neg pow48) v) }
    requires at_most { T (le v pow48) }
    ensures { result ≡ away v }
{
    if v < 0.0 {
        0 - (round_up(-v) as i64)
    } else {
        round_up(v) as i64
    }
}
