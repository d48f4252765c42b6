// Six times the volume that a triangle list encloses, in whole units, signed and exact. Any mesh will do, ours or another maker's.
#![tactic(auto)]

ghost use Rattle.std.specs.Prelude.{◌≡◌, true, ◌+◌, ◌*◌, ◌≤◌, ◌<◌, ◌+ℤ◌, ◌-ℤ◌, ◌*ℤ◌, length};
ghost use Rattle.laws.specs.Ints.{size_of};
ghost use Rattle.laws.specs.Triangles.{tris_of};
ghost use Rattle.volume.specs.Volume.{det9, lists_ok, scale_ok, summed, volume_of, number_of, told};
ghost use Rattle.volume.specs.Parts.{Near, Sized, corner_of, term_of};

// How many triangles are taken.
const MOST: usize = 357492;

// A point in whole units: the origin, or a corner of a triangle, taken from it.
#[derive(Clone, Copy)]
pub struct Whole {
    pub x: i64,
    pub y: i64,
    pub z: i64,
}

// Why there is no volume: lists that are not fit, a scale that is none, or a corner that is too far.
#[derive(Clone, Copy, Debug, PartialEq, Eq)]
pub enum Refusal {
    Lists,
    Scale,
    Corner,
}

impl Refusal {
    // The status that stands for it.
    pub fn number(self) -> usize
        ensures { result ≡ number_of self }
    {
        match self {
            Refusal::Lists => 10,
            Refusal::Scale => 12,
            Refusal::Corner => 13,
        }
    }
}

fn minor(a: i64, b: i64, c: i64, d: i64) -> i64
    requires { (size_of a ≤ 10000) × (size_of b ≤ 10000) × (size_of c ≤ 10000) × (size_of d ≤ 10000) }
    ensures { Sized (a *ℤ d -ℤ b *ℤ c) 200000000 result }
{
    a * d - b * c
}

fn times(a: i64, m: i64) -> i64
    requires { (size_of a ≤ 10000) × (size_of m ≤ 200000000) }
    ensures { Sized (a *ℤ m) 2000000000000 result }
{
    a * m
}

fn sum(p: i64, q: i64, r: i64) -> i64
    requires { (size_of p ≤ 2000000000000) × (size_of q ≤ 2000000000000) × (size_of r ≤ 2000000000000) }
    ensures { result ≡ p +ℤ q +ℤ r }
{
    p + q + r
}

// Of the rows a, b and c.
fn determinant(a: Whole, b: Whole, c: Whole) -> i64
    requires near_a { Near a }
    requires near_b { Near b }
    requires near_c { Near c }
    ensures { result ≡ det9 a.x a.y a.z b.x b.y b.z c.x c.y c.z }
{
    let p = times(a.x, minor(b.y, b.z, c.y, c.z));
    let q = times(b.x, minor(c.y, c.z, a.y, a.z));
    let r = times(c.x, minor(a.y, a.z, b.y, b.z));
    sum(p, q, r)
}

// The corner at vertex v, if its coordinates are accepted.
fn corner_of(positions: &[f64], v: usize, scale: f64, origin: Whole) -> Option<Whole>
    requires { 3 * v + 2 < length positions.now }
    ensures { result ≡ corner_of positions.now scale origin v }
{
    let i = 3 * v;
    let x = units::coordinate_of(positions[i], scale, origin.x)?;
    let y = units::coordinate_of(positions[i + 1], scale, origin.y)?;
    let z = units::coordinate_of(positions[i + 2], scale, origin.z)?;
    Some(Whole { x, y, z })
}

// The determinant of a triangle's corners, if they are accepted.
fn triangle_of(
    positions: &[f64],
    a: usize,
    b: usize,
    c: usize,
    scale: f64,
    origin: Whole,
) -> Option<i64>
    requires { (3 * a + 2 < length positions.now) × (3 * b + 2 < length positions.now) × (3 * c + 2 < length positions.now) }
    ensures { result ≡ term_of positions.now scale origin (a, b, c) }
{
    let p = corner_of(positions, a, scale, origin)?;
    let q = corner_of(positions, b, scale, origin)?;
    let r = corner_of(positions, c, scale, origin)?;
    Some(determinant(p, q, r))
}

fn lists_ok(positions: &[f64], triangles: &[u32]) -> bool
    ensures { result ≡ lists_ok positions.now triangles.now }
{
    positions.len() % 3 == 0
        && triangles.len() % 3 == 0
        && triangles.len() / 3 <= MOST
        && mesh::named(triangles, positions.len() / 3)
}

// Above 0 and finite.
fn scale_ok(scale: f64) -> bool
    ensures { result ≡ scale_ok scale }
{
    0.0 < scale && scale < f64::INFINITY
}

// The sum over the triangles; it stops at the first corner that is not accepted.
fn sum_of(positions: &[f64], triangles: &[u32], scale: f64, origin: Whole) -> Result<i64, Refusal>
    requires { lists_ok positions.now triangles.now ≡ true }
    ensures { told result ≡ summed positions.now scale origin (tris_of triangles.now) }
{
    let mut six: i64 = 0;
    for t in triangles.chunks_exact(3) {
        let a = mesh::index(t[0]);
        let b = mesh::index(t[1]);
        let c = mesh::index(t[2]);
        six += triangle_of(positions, a, b, c, scale, origin).ok_or(Refusal::Corner)?;
    }
    Ok(six)
}

// Six times the volume. Positions and triangles are lists in whole threes; a position times the scale, rounded to the nearest whole number, less the origin's
// number, is a coordinate. Nothing is stored. Refusals: `Lists` for lists that are not in threes, over 357,492 triangles or an index past the vertices; `Scale`
// for a scale that is not above 0 and finite; `Corner` for a corner of a triangle that is not within -10,000 to 10,000 on each axis.
pub fn volume_of(
    positions: &[f64],
    triangles: &[u32],
    scale: f64,
    origin: Whole,
) -> Result<i64, Refusal>
    ensures { told result ≡ volume_of positions.now triangles.now scale origin }
{
    if !lists_ok(positions, triangles) {
        return Err(Refusal::Lists);
    }
    if !scale_ok(scale) {
        return Err(Refusal::Scale);
    }
    sum_of(positions, triangles, scale, origin)
}
