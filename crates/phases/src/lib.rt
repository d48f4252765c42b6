// The phases of a build and the sorted list of the sides under plain names, for the benchmark to link. This is no part of the library: the phases are inner
// functions, and each wrapper asks of its caller what its phase asks.
#![tactic(auto)]

ghost use Rattle.std.specs.Prelude.{◌*◌, ◌-◌, ◌≡◌, true, ◌++◌, length, drop, replicate};
ghost use Rattle.laws.specs.Triangles.{flat};
ghost use Rattle.laws.specs.Written.{Written};
ghost use Rattle.samples.specs.Sides.{base};
ghost use Rattle.lattice.specs.Sites.{sites};
ghost use Rattle.marks.specs.Marks.{masks_of, crossed_count};
ghost use Rattle.marks.specs.Inner.Loops.{Sampled, Room};
ghost use Rattle.march.specs.March.{march};
ghost use Rattle.march.specs.Lists.{field_of};
ghost use Rattle.march.specs.Inner.Loop.{Lends};
ghost use Rattle.sort.specs.Order.{Sorts};
ghost use Rattle.pairs.specs.Sides.{crowded_room};
ghost use Rattle.pairs.specs.Inner.Listing as edges;
ghost use Rattle.stages.specs.Vertices.{candidates};
ghost use Rattle.stages.specs.Samples.{box_of};
ghost use Rattle.vertex_pass.specs.Inner.Passing.{Masked, Ahead, flag_of, start};
ghost use Rattle.crowded.specs.Inner.Flags.{Flaggable, EndsFit, EndsUnder, EndsFlagged};
ghost use Rattle.phases.specs.Promises.{DrawnPlain};

use lattice::Sides;
use points::Point;

pub fn phase_count(nu: usize, nv: usize, nw: usize, samples: &[f64]) -> usize
    requires { Sampled (record { nu = nu; nv = nv; nw = nw }) samples.now }
    ensures { result ≡ crossed_count (record { nu = nu; nv = nv; nw = nw }) samples.now base }
{
    marks::count_crossed(Sides { nu, nv, nw }, samples, samples::INSIDE)
}

pub fn phase_mark(nu: usize, nv: usize, nw: usize, samples: &[f64], masks: &mut [u16])
    requires { Room (record { nu = nu; nv = nv; nw = nw }) samples.now masks.old }
    ensures { masks.new ≡ masks_of (record { nu = nu; nv = nv; nw = nw }) samples.now base ++ drop (sites (record { nu = nu; nv = nv; nw = nw })) masks.old }
{
    marks::mark_box(Sides { nu, nv, nw }, samples, masks, samples::INSIDE);
}

// The whole pass with clusters, in the frame with origin 0 and steps of 1: how many vertices.
pub fn phase_draw(
    nu: usize,
    nv: usize,
    nw: usize,
    samples: &[f64],
    masks: &[u16],
    table: &mut [u32],
    positions: &mut [f64],
    book: &mut [u32],
    flags: &[u32],
) -> usize
    requires masked { Masked (record { nu = nu; nv = nv; nw = nw }) samples.now base masks.now × (length table.old ≡ 7 * sites (record { nu = nu; nv = nv; nw = nw })) }
    requires ahead { Ahead (flag_of flags.now) (candidates (box_of (record { nu = nu; nv = nv; nw = nw }) samples.now base true)) start positions.old book.old }
    ensures { DrawnPlain (record { nu = nu; nv = nv; nw = nw }) samples.now (flag_of flags.now) positions.old book.old result table.new positions.new book.new }
{
    let origin = Point {
        x: 0.0,
        y: 0.0,
        z: 0.0,
    };
    let step = Point {
        x: 1.0,
        y: 1.0,
        z: 1.0,
    };
    let frame = points::frame_of(origin, step);
    let walk = vertex_pass::draw_box(
        frame,
        Sides { nu, nv, nw },
        samples,
        masks,
        table,
        positions,
        book,
        flags,
        true,
        samples::INSIDE,
    );
    walk.pass.next
}

pub fn phase_march(
    nu: usize,
    nv: usize,
    nw: usize,
    samples: &[f64],
    table: &[u32],
    tris: &mut [u32],
) -> usize
    requires { Lends (record { nu = nu; nv = nv; nw = nw }) samples.now table.now tris.old }
    ensures { Written tris.old 0 (flat (march (field_of (record { nu = nu; nv = nv; nw = nw }) samples.now base table.now))) tris.new (3 * result) }
{
    march::march_box(samples, table, tris, Sides { nu, nv, nw }, samples::INSIDE)
}

pub fn phase_flag(tris: &[u32], room: &mut [u32], a: usize, m: usize) -> bool
    requires { Flaggable tris.now room.old a × EndsFit tris.now room.old a × EndsUnder tris.now m }
    ensures { EndsFlagged tris.now a m room.old room.new result }
{
    crowded::flag_ends(tris, room, a, m)
}

pub fn phase_clear(room: &mut [u32])
    ensures { room.new ≡ replicate (length room.old) 0 }
{
    sort::clear(room);
}

pub fn bench_fill(tris: &[u32], room: &mut [u32])
    requires { edges.Room tris.now room.old }
    ensures { room.new ≡ edges.filled tris.now room.old }
{
    pairs::fill(tris, room);
}

pub fn bench_sort(s: &mut [u32])
    ensures { Sorts s.old s.new }
{
    sort::sort(s);
}

pub fn bench_over_sides(tris: &[u32], room: &mut [u32])
    requires { edges.Room tris.now room.old }
    ensures { room.new ≡ crowded_room tris.now room.old }
{
    pairs::over_sides(tris, room);
}
