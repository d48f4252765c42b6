// Coordinates in whole units: scaled, rounded to the nearest whole number, a tie to the even one, and less the origin's number.
#![tactic(auto)]

ghost use Rattle.std.specs.Prelude.{◌≡◌, true, false, T, pos, neg_ℤ};
ghost use Rattle.std.proofs.Math.Option.{some};
ghost use Rattle.std.specs.Float.Ieee as Ieee;
ghost use Rattle.std.specs.Float.{fin, binary64};
ghost use Rattle.std.specs.Float.Ieee.{mul};
ghost use Rattle.laws.specs.Ints.{size_of, signed};
ghost use Rattle.units.specs.Whole.{whole_of};
ghost use Rattle.units.specs.Coordinates.{coordinate_of};

// How far a coordinate may be from 0. One that is further is no coordinate.
const MOST: u64 = 10000;

// Of a float above 0 and below 2^64. Below 2^52 the sum with 2^52 has no room for a fraction, so it is rounded to a whole number; from there on every float is
// whole.
fn nearest_whole(x: f64) -> u64
    requires above_zero { T (Ieee.lt (fin false 0 (pos 0)) x) }
    requires below_limit { T (Ieee.lt x (fin false 1 (pos 64))) }
    ensures { whole_of x ≡ some (pos result) }
{
    if x < 4503599627370496.0 {
        let y = x + 4503599627370496.0;
        let z = y - 4503599627370496.0;
        return z as u64;
    }
    std::num::truncating_f64_to_u64(x)
}

// The size of a number without its sign, of the least one too.
pub fn size_of(o: i64) -> u64
    ensures { result ≡ size_of o }
{
    o.unsigned_abs()
}

// n - a
fn gap(n: u64, a: u64) -> Option<i64>
    ensures { result ≡ coordinate_of (some (pos n)) (pos a) }
{
    if n < a {
        let d = a - n;
        if d <= MOST {
            return Some(-(d as i64));
        }
        return None;
    }
    let d = n - a;
    if d <= MOST {
        return Some(d as i64);
    }
    None
}

// n + a
fn above(n: u64, a: u64) -> Option<i64>
    ensures { result ≡ coordinate_of (some (pos n)) (neg_ℤ (pos a)) }
{
    if n <= MOST && a <= MOST - n {
        return Some((n + a) as i64);
    }
    None
}

// -n - a
fn below(n: u64, a: u64) -> Option<i64>
    ensures { result ≡ coordinate_of (some (neg_ℤ (pos n))) (pos a) }
{
    if n <= MOST && a <= MOST - n {
        return Some(-((n + a) as i64));
    }
    None
}

// A whole number by its sign and size, less the origin's number. No difference is taken that could overflow.
fn less_origin(minus: bool, n: u64, o: i64) -> Option<i64>
    ensures { result ≡ coordinate_of (some (signed minus n)) o }
{
    let a = size_of(o);
    if o < 0 {
        if minus {
            return gap(a, n);
        }
        return above(n, a);
    }
    if minus {
        return below(n, a);
    }
    gap(n, a)
}

// A position scaled, rounded, and less the origin's number.
pub fn coordinate_of(x: f64, scale: f64, o: i64) -> Option<i64>
    ensures { result ≡ coordinate_of (whole_of (mul binary64 x scale)) o }
{
    let y = x * scale;
    if 0.0 < y {
        if y < 18446744073709551616.0 {
            let n = nearest_whole(y);
            return less_origin(false, n, o);
        }
        return None;
    }
    if y < 0.0 {
        let z = -y;
        if z < 18446744073709551616.0 {
            let n = nearest_whole(z);
            return less_origin(true, n, o);
        }
        return None;
    }
    if y == 0.0 {
        return less_origin(false, 0, o);
    }
    None
}
