// The cases of a tetrahedron and of a site, from the samples of the corners; and the numbers of the corners, by which the march finds its cases.
// The threshold h is a parameter of every function that asks for a side.
// Callers hold plain sides and coordinates, so that a cell is in its box (`Placed`) stands in each clause and in no type.
#![tactic(auto)]

ghost use Rattle.std.specs.Prelude.{◌≡◌, ◌+◌, ◌<◌, ◌≤◌, length};
ghost use Rattle.lattice.specs.Sites.{SidesFit, sites, InBox};
ghost use Rattle.cases.specs.Cases.{case_from, corner_value, cases_at};
ghost use Rattle.cases.specs.Inner.Codes.{value_code, code_of, codes_of, column_at, joined, case_by, case_on, code_sum, Coded, Placed};

use lattice::{Sides, Uvw};

// The number of a corner that is missing or not finite: with one of them no sum of four is a case.
const ABSENT: usize = 16;

// A corner as a number: 0 outside, 1 inside, 16 where it is missing or not finite. First one that is there.
fn value_code(v: f64, h: f64) -> usize
    ensures { result ≡ value_code v h }
{
    if samples::is_finite(v) {
        if samples::is_inside(v, h) { 1 } else { 0 }
    } else {
        ABSENT
    }
}

fn sample_code(x: Option<f64>, h: f64) -> usize
    ensures { result ≡ code_of x h }
{
    match x {
        None => ABSENT,
        Some(v) => value_code(v, h),
    }
}

// The case of four corners: bit i is set where corner i is inside, 0 where one is not there.
fn case_by(a: usize, b: usize, c: usize, d: usize) -> usize
    requires { (a ≤ 16) × (b ≤ 16) × (c ≤ 16) × (d ≤ 16) }
    ensures { result ≡ case_by a b c d }
{
    let x = a + 2 * b + 4 * c + 8 * d;
    if x < 16 { x } else { 0 }
}

// The case of a tetrahedron: bit i is set where corner i is inside, 0 where one is missing or not finite.
pub fn tet_case(a: Option<f64>, b: Option<f64>, c: Option<f64>, d: Option<f64>, h: f64) -> usize
    ensures { result ≡ case_from a b c d h }
{
    let w = sample_code(a, h);
    let x = sample_code(b, h);
    let y = sample_code(c, h);
    let z = sample_code(d, h);
    case_by(w, x, y, z)
}

// The sample of corner c of the cell at (u, v) of the first layer of s: missing outside the box.
pub fn corner_sample(s: &[f64], n: Sides, u: usize, v: usize, c: usize) -> Option<f64>
    requires { Placed n u v × (c < 8) }
    ensures { result ≡ corner_value n s.now u v 0 c }
{
    let x = u + c % 2;
    let y = v + c / 2 % 2;
    let z = c / 4 % 2;
    sample_view::sample_uvw(s, n, x, y, z)
}

// The numbers of the eight corners of a cell.
fn corner_codes(s: &[f64], n: Sides, u: usize, v: usize, h: f64) -> [usize; 8]
    requires { Placed n u v }
    ensures { result ≡ codes_of n s.now h u v }
{
    let mut r = [ABSENT; 8];
    for c in 0..8 {
        let x = corner_sample(s, n, u, v, c);
        r[c] = sample_code(x, h);
    }
    r
}

// The case of tetrahedron t, from the numbers of the cell's corners.
pub fn case_at(codes: &[usize; 8], t: usize) -> usize
    requires { Coded codes.now × (t < 6) }
    ensures { result ≡ case_on codes.now t }
{
    let a = tables::tet_corner(t, 0);
    let b = tables::tet_corner(t, 1);
    let c = tables::tet_corner(t, 2);
    case_by(codes[0], codes[a], codes[b], codes[c])
}

// The six cases of the site (u, v) of a layer, given the samples from that layer's first site on: n has the sides of that part of the box.
pub fn tetrahedron_cases(s: &[f64], n: Sides, u: usize, v: usize, h: f64) -> [usize; 6]
    requires { Placed n u v }
    ensures { result ≡ cases_at n s.now h u v 0 }
{
    let codes = corner_codes(s, n, u, v, h);
    let mut r = [0usize; 6];
    for t in 0..tables::TETS {
        r[t] = case_at(&codes, t);
    }
    r
}

// The six cases of the site p of the box.
pub fn site_cases(samples: &[f64], n: Sides, p: Uvw, h: f64) -> [usize; 6]
    requires { SidesFit n × InBox n p × (sites n ≤ length samples.now) }
    ensures { result ≡ cases_at n samples.now h p.u p.v p.w }
{
    let nu = n.nu;
    let nv = n.nv;
    let nw = n.nw - p.w;
    let a = p.w * (nu * nv);
    tetrahedron_cases(&samples[a..], Sides { nu, nv, nw }, p.u, p.v, h)
}

// ---- for the march: the corners of the cells of a row, column by column

// The eight numbers together: 0 where all corners are outside, 8 where all are inside.
pub fn code_sum(codes: &[usize; 8]) -> usize
    requires { Coded codes.now }
    ensures { result ≡ code_sum codes.now }
{
    let mut sum = 0;
    for code in codes {
        sum += *code;
    }
    sum
}

// The numbers of the four corners with the u of site i, in the order of v and w.
pub fn column(s: &[f64], i: usize, nu: usize, nn: usize, h: f64) -> [usize; 4]
    requires { i + nu + nn < length s.now }
    ensures { result ≡ column_at s.now h i nu nn }
{
    let a = value_code(s[i], h);
    let b = value_code(s[i + nu], h);
    let c = value_code(s[i + nn], h);
    let d = value_code(s[i + nu + nn], h);
    [a, b, c, d]
}

// Two columns as a cell's corners.
pub fn join(left: &[usize; 4], right: &[usize; 4]) -> [usize; 8]
    requires { (length left.now ≡ 4) × (length right.now ≡ 4) }
    ensures { result ≡ joined left.now right.now }
{
    [
        left[0], right[0], left[1], right[1], left[2], right[2], left[3], right[3],
    ]
}
