// Samples: which side of the surface a value is on, whether it is finite, and where the surface crosses an edge.
// The threshold h is a parameter of every function that asks for a side.
#![tactic(auto)]

ghost use Rattle.std.specs.Prelude.{◌≡◌};
ghost use Rattle.samples.specs.Sides.{inside, finite, mark_fraction, hold, point_fraction, crossing, when_finite};

// Inside means below -INSIDE where nobody chose another threshold.
pub const INSIDE: f64 = 1.0e-9;

// A NaN is outside.
pub fn is_inside(v: f64, h: f64) -> bool
    ensures { result ≡ inside v h }
{
    v < -h
}

// Neither a NaN nor an infinity.
pub fn is_finite(x: f64) -> bool
    ensures { result ≡ finite x }
{
    let top = 1.0 / 0.0;
    if x < top { -top < x } else { false }
}

// A value that is not finite counts as missing, and so as None, where only finite ones are asked for.
pub fn finite_sample(x: f64) -> Option<f64>
    ensures { result ≡ when_finite x }
{
    if is_finite(x) { Some(x) } else { None }
}

// The fraction that marks and the flat-hole test compare with 0.5.
pub fn mark_fraction(a: f64, b: f64) -> f64
    ensures { result ≡ mark_fraction a b }
{
    a / (a - b)
}

// Held between 0 and 1. A NaN is neither below nor above, and stays.
fn hold(t: f64) -> f64
    ensures { result ≡ hold t }
{
    if t < 0.0 {
        return 0.0;
    }
    if 1.0 < t {
        return 1.0;
    }
    t
}

// The fraction at which a point stands on its edge.
pub fn point_fraction(a: f64, b: f64) -> f64
    ensures { result ≡ point_fraction a b }
{
    hold(mark_fraction(a, b))
}

// Where the surface crosses the edge from a to b, as a fraction of its length: nowhere if both ends are on one side.
pub fn crossing_alpha(a: f64, b: f64, h: f64) -> Option<f64>
    ensures { result ≡ crossing a b h }
{
    if is_inside(a, h) == is_inside(b, h) {
        return None;
    }
    Some(mark_fraction(a, b))
}
