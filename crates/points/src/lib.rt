// The frame, the place of a site in it, the point on an edge, the mean of points, and floats by their bits.
// A frame is opened here and nowhere else. A function with a `requires` is called by crates that have tested the sides at their door.
#![tactic(auto)]

ghost use Rattle.std.specs.Prelude.{◌≡◌, ◌≤◌, ◌<◌, T};
ghost use Rattle.std.specs.Float.{binary64};
ghost use Rattle.std.specs.Float.Ieee.{in_float, of_bits, to_bits};
ghost use Rattle.lattice.specs.Sites.{ijk_of};
ghost use Rattle.points.specs.Positions.{along, position, frame_of};
ghost use Rattle.points.specs.Limits.{within, all_within, frame_ok};
ghost use Rattle.points.specs.EdgePoints.{interpolate, edge_point};
ghost use Rattle.points.specs.Means.{none, more, mean_sum};

#[derive(Clone, Copy)]
pub struct Point {
    pub x: f64,
    pub y: f64,
    pub z: f64,
}

#[derive(Clone, Copy)]
pub struct Frame {
    pub origin: Point,
    pub step: Point,
}

// Points taken in one after the other: the last one, their sum from 0.0, how many.
#[derive(Clone, Copy)]
pub struct Sum {
    pub last: Point,
    pub total: Point,
    pub count: u32,
}

pub fn frame_of(origin: Point, step: Point) -> Frame
    ensures { result ≡ frame_of origin step }
{
    Frame { origin, step }
}

// Whether a number lies between two, ends included. A comparison with a NaN is false.
fn within(x: f64, least: f64, most: f64) -> bool
    ensures { result ≡ within least most x }
{
    least <= x && x <= most
}

fn all_within(p: Point, least: f64, most: f64) -> bool
    ensures { result ≡ all_within least most p }
{
    within(p.x, least, most) && within(p.y, least, most) && within(p.z, least, most)
}

// The frames that a build takes.
pub fn frame_ok(frame: Frame) -> bool
    ensures { result ≡ frame_ok frame }
{
    all_within(frame.origin, -1.0e9, 1.0e9) && all_within(frame.step, 0.001, 1.0e6)
}

// The place on one axis. The cast loses nothing.
fn along_axis(origin: f64, step: f64, i: i64) -> f64
    requires { T (in_float binary64 i) }
    ensures { result ≡ along origin step i }
{
    origin + (i as f64) * step
}

// The place of a site.
pub fn position_of(frame: Frame, p: lattice::Uvw) -> Point
    requires { (p.u < 32) × (p.v < 32) × (p.w < 32) }
    ensures { result ≡ position frame (ijk_of p.u p.v p.w) }
{
    let at = lattice::ijk_of(p);
    Point {
        x: along_axis(frame.origin.x, frame.step.x, at.i),
        y: along_axis(frame.origin.y, frame.step.y, at.j),
        z: along_axis(frame.origin.z, frame.step.z, at.k),
    }
}

pub fn interpolate_points(a: Point, b: Point, t: f64) -> Point
    ensures { result ≡ interpolate a b t }
{
    Point {
        x: a.x + t * (b.x - a.x),
        y: a.y + t * (b.y - a.y),
        z: a.z + t * (b.z - a.z),
    }
}

// The point on the edge from the marked site a, whose sample is p, towards its neighbour b, whose sample is q.
pub fn edge_point(frame: Frame, a: lattice::Uvw, b: lattice::Uvw, p: f64, q: f64) -> Option<Point>
    requires { (a.u < 32) × (a.v < 32) × (a.w < 32) × (b.u < 32) × (b.v < 32) × (b.w < 32) }
    ensures { result ≡ edge_point frame (ijk_of a.u a.v a.w) (ijk_of b.u b.v b.w) p q }
{
    if !(samples::is_finite(p) && samples::is_finite(q)) {
        return None;
    }
    let from = position_of(frame, a);
    let to = position_of(frame, b);
    let t = samples::point_fraction(p, q);
    Some(interpolate_points(from, to, t))
}

pub fn no_points() -> Sum
    ensures { result ≡ none }
{
    let zeros = Point {
        x: 0.0,
        y: 0.0,
        z: 0.0,
    };
    Sum {
        last: zeros,
        total: zeros,
        count: 0,
    }
}

// One point more.
pub fn with_point(s: Sum, p: Point) -> Sum
    requires { s.count < 14 }
    ensures { result ≡ more s p }
{
    Sum {
        last: p,
        total: Point {
            x: s.total.x + p.x,
            y: s.total.y + p.y,
            z: s.total.z + p.z,
        },
        count: s.count + 1,
    }
}

// One point is used unaltered; of several the sum is multiplied by 1 / n.
pub fn mean(s: Sum) -> Point
    ensures { result ≡ mean_sum s }
{
    let n = s.count;
    if n == 1 {
        return s.last;
    }
    let share = 1.0 / (n as f64);
    Point {
        x: s.total.x * share,
        y: s.total.y * share,
        z: s.total.z * share,
    }
}

// The float with these bits; each NaN pattern gives the one NaN of the logic.
pub fn float_of_bits(n: u64) -> f64
    ensures { result ≡ of_bits binary64 n }
{
    // without the sign: past an infinity's they are a NaN's
    if n % 0x8000_0000_0000_0000 > 0x7ff0_0000_0000_0000 {
        return 0.0 / 0.0;
    }
    f64::from_bits(n)
}

// The bits of a float; a NaN gives 7ff8000000000000.
pub fn bits_of_float(x: f64) -> u64
    ensures { result ≡ to_bits binary64 x }
{
    if x != x {
        return 0x7ff8_0000_0000_0000;
    }
    f64::to_bits(x)
}
