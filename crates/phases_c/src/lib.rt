// The static library of the benchmark: each function of `phases` under its own name, with what it asks and promises.
#![tactic(auto)]

ghost use Rattle.std.specs.Prelude.{◌*◌, ◌-◌, ◌≡◌, true, ◌++◌, length, drop, replicate};
ghost use Rattle.laws.specs.Triangles.{flat};
ghost use Rattle.laws.specs.Written.{Written};
ghost use Rattle.samples.specs.Sides.{base};
ghost use Rattle.lattice.specs.Sites.{sites};
ghost use Rattle.marks.specs.Marks.{masks_of, crossed_count};
ghost use Rattle.marks.specs.Inner.Loops.{Sampled, Room};
ghost use Rattle.march.specs.March.{march};
ghost use Rattle.march.specs.Lists.{field_of};
ghost use Rattle.march.specs.Inner.Loop.{Lends};
ghost use Rattle.sort.specs.Order.{Sorts};
ghost use Rattle.pairs.specs.Sides.{crowded_room};
ghost use Rattle.pairs.specs.Inner.Listing as edges;
ghost use Rattle.stages.specs.Vertices.{candidates};
ghost use Rattle.stages.specs.Samples.{box_of};
ghost use Rattle.vertex_pass.specs.Inner.Passing.{Masked, Ahead, flag_of, start};
ghost use Rattle.crowded.specs.Inner.Flags.{Flaggable, EndsFit, EndsUnder, EndsFlagged};
ghost use Rattle.phases.specs.Promises.{DrawnPlain};

#[unsafe(no_mangle)]
pub extern "C" fn phase_count(nu: usize, nv: usize, nw: usize, samples: &[f64]) -> usize
    requires { Sampled (record { nu = nu; nv = nv; nw = nw }) samples.now }
    ensures { result ≡ crossed_count (record { nu = nu; nv = nv; nw = nw }) samples.now base }
{
    phases::phase_count(nu, nv, nw, samples)
}

#[unsafe(no_mangle)]
pub extern "C" fn phase_mark(nu: usize, nv: usize, nw: usize, samples: &[f64], masks: &mut [u16])
    requires { Room (record { nu = nu; nv = nv; nw = nw }) samples.now masks.old }
    ensures { masks.new ≡ masks_of (record { nu = nu; nv = nv; nw = nw }) samples.now base ++ drop (sites (record { nu = nu; nv = nv; nw = nw })) masks.old }
{
    phases::phase_mark(nu, nv, nw, samples, masks);
}

#[unsafe(no_mangle)]
pub extern "C" fn phase_draw(
    nu: usize,
    nv: usize,
    nw: usize,
    samples: &[f64],
    masks: &[u16],
    table: &mut [u32],
    positions: &mut [f64],
    book: &mut [u32],
    flags: &[u32],
) -> usize
    requires masked { Masked (record { nu = nu; nv = nv; nw = nw }) samples.now base masks.now × (length table.old ≡ 7 * sites (record { nu = nu; nv = nv; nw = nw })) }
    requires ahead { Ahead (flag_of flags.now) (candidates (box_of (record { nu = nu; nv = nv; nw = nw }) samples.now base true)) start positions.old book.old }
    ensures { DrawnPlain (record { nu = nu; nv = nv; nw = nw }) samples.now (flag_of flags.now) positions.old book.old result table.new positions.new book.new }
{
    phases::phase_draw(nu, nv, nw, samples, masks, table, positions, book, flags)
}

#[unsafe(no_mangle)]
pub extern "C" fn phase_march(
    nu: usize,
    nv: usize,
    nw: usize,
    samples: &[f64],
    table: &[u32],
    tris: &mut [u32],
) -> usize
    requires { Lends (record { nu = nu; nv = nv; nw = nw }) samples.now table.now tris.old }
    ensures { Written tris.old 0 (flat (march (field_of (record { nu = nu; nv = nv; nw = nw }) samples.now base table.now))) tris.new (3 * result) }
{
    phases::phase_march(nu, nv, nw, samples, table, tris)
}

#[unsafe(no_mangle)]
pub extern "C" fn phase_flag(tris: &[u32], room: &mut [u32], a: usize, m: usize) -> bool
    requires { Flaggable tris.now room.old a × EndsFit tris.now room.old a × EndsUnder tris.now m }
    ensures { EndsFlagged tris.now a m room.old room.new result }
{
    phases::phase_flag(tris, room, a, m)
}

#[unsafe(no_mangle)]
pub extern "C" fn phase_clear(room: &mut [u32])
    ensures { room.new ≡ replicate (length room.old) 0 }
{
    phases::phase_clear(room);
}

#[unsafe(no_mangle)]
pub extern "C" fn bench_fill(tris: &[u32], room: &mut [u32])
    requires { edges.Room tris.now room.old }
    ensures { room.new ≡ edges.filled tris.now room.old }
{
    phases::bench_fill(tris, room);
}

#[unsafe(no_mangle)]
pub extern "C" fn bench_sort(s: &mut [u32])
    ensures { Sorts s.old s.new }
{
    phases::bench_sort(s);
}

#[unsafe(no_mangle)]
pub extern "C" fn bench_over_sides(tris: &[u32], room: &mut [u32])
    requires { edges.Room tris.now room.old }
    ensures { room.new ≡ crowded_room tris.now room.old }
{
    phases::bench_over_sides(tris, room);
}
