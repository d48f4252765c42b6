// Prints the bits of places, edge points and means at generated inputs, and of edge points between samples near the threshold: its stdout is that of tools/points_reference.py.
#![tactic(auto)]

ghost use Rattle.std.specs.Prelude.{◌≤◌, ◌<◌};

use std::io;

// The next number of the generator.
fn next(x: u64) -> u64 {
    let a = x ^ (x << 13);
    let b = a ^ (a >> 7);
    b ^ (b << 17)
}

// What the floats that are made are like.
#[derive(Clone, Copy)]
enum Floats {
    // Zeros, subnormals, the largest, infinities, NaN, values about 1.0e-9, powers of two, any other.
    Any,
    // Of middling size, or a zero.
    Middling,
    // Of middling size above 0.
    Positive,
}

// The bits of a float.
fn pattern(x: u64, floats: Floats) -> u64 {
    let sign = (x >> 63) << 63;
    let low = x & 0xf_ffff_ffff_ffff;
    let middling = ((1013 + (x >> 52) % 29) << 52) | low;
    match floats {
        Floats::Positive => middling,
        Floats::Middling if x % 7 == 0 => sign,
        Floats::Middling => sign | middling,
        Floats::Any => match (x >> 40) % 16 {
            0 => x,
            1 => sign,
            2 => sign | (low >> (x >> 58)),
            3 => sign | 0x7fe0_0000_0000_0000 | low,
            4 => sign | 0x7ff0_0000_0000_0000,
            5 => 0x7ff0_0000_0000_0000 | low,
            6 => sign | (0x3e11_2e0b_e826_d694 + x % 4),
            7..=9 => sign | ((1023 + (x >> 52) % 8) << 52),
            _ => sign | middling,
        },
    }
}

fn real(x: u64, floats: Floats) -> f64 {
    points::float_of_bits(pattern(x, floats))
}

// From the next three numbers.
fn three(x: u64, floats: Floats) -> points::Point {
    let a = next(x);
    let b = next(a);
    let c = next(b);
    points::Point {
        x: real(a, floats),
        y: real(b, floats),
        z: real(c, floats),
    }
}

fn after_three(x: u64) -> u64 {
    next(next(next(x)))
}

fn site(x: u64) -> lattice::Uvw
    ensures { (result.u < 32) × (result.v < 32) × (result.w < 32) }
{
    lattice::Uvw {
        u: ((x >> 10) % 32) as usize,
        v: ((x >> 20) % 32) as usize,
        w: ((x >> 30) % 32) as usize,
    }
}

fn show(rt: &impl Print, n: u64) -> io::Result<()> {
    println!(rt; "{n:016x}")
}

fn show_point(rt: &impl Print, p: points::Point) -> io::Result<()> {
    show(rt, points::bits_of_float(p.x))?;
    show(rt, points::bits_of_float(p.y))?;
    show(rt, points::bits_of_float(p.z))
}

fn show_edge(rt: &impl Print, r: Option<points::Point>) -> io::Result<()> {
    match r {
        None => show(rt, 0xffff),
        Some(q) => show_point(rt, q),
    }
}

// The mean of n points.
fn mean_of(x: u64, n: u32, floats: Floats) -> points::Point
    requires { n ≤ 14 }
{
    let mut y = x;
    let mut s = points::no_points();
    for _ in 0..n {
        let p = three(y, floats);
        s = points::with_point(s, p);
        y = after_three(y);
    }
    points::mean(s)
}

// One frame, two sites, two samples, up to fourteen points: the steps from some floats, the other coordinates from others.
fn run(rt: &impl Print, x: u64, floats: Floats, steps: Floats) -> io::Result<u64> {
    let a = after_three(x);
    let b = after_three(a);
    let c = next(b);
    let d = next(c);
    let e = next(d);
    let frame = points::frame_of(three(x, floats), three(a, steps));
    show(rt, u64::from(points::frame_ok(frame)))?;
    let from = site(c);
    let to = site(d);
    show_point(rt, points::position_of(frame, from))?;
    show_edge(
        rt,
        points::edge_point(frame, from, to, real(d, Floats::Any), real(e, Floats::Any)),
    )?;
    show_point(rt, mean_of(e, (e % 14) as u32 + 1, floats))?;
    Ok(next(e))
}

// A sample near the threshold: up to eight floats from -1.0e-9 either way.
fn close(x: u64) -> f64 {
    points::float_of_bits(0xbe11_2e0b_e826_d68d + (x >> 20) % 17)
}

// The point between two such samples, whose fraction is often far below 0 or above 1, in a frame of middling size.
fn near(rt: &impl Print, x: u64) -> io::Result<u64> {
    let a = after_three(x);
    let c = next(after_three(a));
    let d = next(c);
    let e = next(d);
    let frame = points::frame_of(three(x, Floats::Middling), three(a, Floats::Positive));
    show_edge(
        rt,
        points::edge_point(frame, site(c), site(d), close(d), close(e)),
    )?;
    Ok(next(e))
}

fn frames(rt: &impl Print, seed: u64) -> io::Result<u64> {
    let mut x = seed;
    for _ in 0..100 {
        x = run(rt, x, Floats::Any, Floats::Any)?;
        x = run(rt, x, Floats::Middling, Floats::Positive)?;
    }
    Ok(x)
}

fn edges(rt: &impl Print, seed: u64) -> io::Result<()> {
    let mut x = seed;
    for _ in 0..100 {
        x = near(rt, x)?;
    }
    Ok(())
}

fn main(rt: HostRuntime) -> io::Result<()> {
    let seed = frames(&rt, 0x9e37_79b9_7f4a_7c15)?;
    edges(&rt, seed)
}
