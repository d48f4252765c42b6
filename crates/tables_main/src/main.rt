// Prints the tables, and the owners of sample pairs of places, as the oracle prints those of the Rust.
// An index is a number below its table's length, which the loops over the tables give: a type for it would be made at every turn.
#![tactic(auto)]

ghost use Rattle.std.specs.Prelude.{◌<◌};

use lattice::Ijk;
use std::io;

// A mask after a blank, by its four hex digits. streams has the same; this program prints tables alone, and does not stand on it.
fn mask(rt: &impl Print, m: u16) -> io::Result<()> {
    print!(rt; " {m:04x}")
}

fn delta(rt: &impl Print, e: usize) -> io::Result<()>
    requires { e < 14 }
{
    let d = tables::edge_delta(e);
    println!(rt; " {} {} {}", d.i, d.j, d.k)
}

fn delta_line(rt: &impl Print, e: usize) -> io::Result<()>
    requires { e < 14 }
{
    print!(rt; "EDGE_DELTAS {e}")?;
    delta(rt, e)
}

fn axes(rt: &impl Print) -> io::Result<()> {
    print!(rt; "UVW 0")?;
    delta(rt, 0)?;
    print!(rt; "UVW 1")?;
    delta(rt, 2)?;
    print!(rt; "UVW 2")?;
    delta(rt, 6)
}

fn reverse_line(rt: &impl Print, e: usize) -> io::Result<()>
    requires { e < 14 }
{
    println!(rt; "REVERSE_EDGE {e} {}", tables::reverse_edge(e))
}

fn neighbour_line(rt: &impl Print, e: usize) -> io::Result<()>
    requires { e < 14 }
{
    print!(rt; "NEIGHBOUR_MASKS {e}")?;
    mask(rt, tables::neighbour_mask(e))?;
    println!(rt)
}

fn flat_hole_line(rt: &impl Print, i: usize) -> io::Result<()>
    requires { i < 36 }
{
    let row = tables::flat_hole(i);
    print!(rt; "FLAT_HOLE_MASKS {i}")?;
    mask(rt, row.edges)?;
    mask(rt, row.opposite)?;
    println!(rt)
}

fn all_mask(rt: &impl Print) -> io::Result<()> {
    print!(rt; "ALL14_MASK 0")?;
    mask(rt, tables::ALL14_MASK)?;
    println!(rt)
}

fn tet_line(rt: &impl Print, t: usize) -> io::Result<()>
    requires { t < 6 }
{
    let a = tables::tet_label(t, 0);
    let b = tables::tet_label(t, 1);
    let c = tables::tet_label(t, 2);
    println!(rt; "OWNED_TET_EDGES {t} {a} {b} {c}")
}

fn pair_line(rt: &impl Print, e: usize) -> io::Result<()>
    requires { e < 6 }
{
    let ends = tables::tet_edge_pair(e);
    println!(rt; "TET_EDGE_PAIRS {e} {} {}", ends.from, ends.to)
}

fn triangle(rt: &impl Print, case: usize, at: usize) -> io::Result<()>
    requires { (case < 16) × (at < 4) }
{
    let a = tables::mt_edge(case, at);
    let b = tables::mt_edge(case, at + 1);
    let c = tables::mt_edge(case, at + 2);
    print!(rt; " {a} {b} {c}")
}

fn case_line(rt: &impl Print, c: usize) -> io::Result<()>
    requires { c < 16 }
{
    let n = tables::mt_count(c);
    print!(rt; "MT_TABLE {c} {n}")?;
    if 0 < n {
        triangle(rt, c, 0)?;
    }
    if 1 < n {
        triangle(rt, c, 3)?;
    }
    println!(rt)
}

fn all_tables(rt: &impl Print) -> io::Result<()> {
    (0..14).try_for_each(|e| delta_line(rt, e))?;
    axes(rt)?;
    (0..14).try_for_each(|e| reverse_line(rt, e))?;
    (0..14).try_for_each(|e| neighbour_line(rt, e))?;
    (0..36).try_for_each(|i| flat_hole_line(rt, i))?;
    all_mask(rt)?;
    (0..6).try_for_each(|t| tet_line(rt, t))?;
    (0..6).try_for_each(|e| pair_line(rt, e))?;
    (0..16).try_for_each(|c| case_line(rt, c))
}

// The label, and which of the two is the owner.
fn owner(rt: &impl Print, u: Ijk, v: Ijk) -> io::Result<()> {
    match lattice::get_edge_owner(u, v) {
        None => println!(rt; "owner none"),
        Some(edge) => {
            print!(rt; "owner {}", edge.label)?;
            if edge.owner.i == u.i {
                println!(rt; " first")
            } else if edge.owner.i == v.i {
                println!(rt; " second")
            } else {
                Ok(())
            }
        }
    }
}

fn place(i: i64, j: i64, k: i64) -> Ijk {
    Ijk { i, j, k }
}

fn owners(rt: &impl Print) -> io::Result<()> {
    owner(rt, place(0, 0, 0), place(-1, 1, 0))?;
    owner(rt, place(0, 0, 0), place(-2, 0, 0))?;
    owner(rt, place(5, -3, -2), place(4, -4, -2))?;
    owner(rt, place(5, -3, -2), place(4, -3, -3))?;
    owner(rt, place(5, -3, -2), place(6, -3, -3))?;
    owner(rt, place(0, 0, 0), place(1, -1, 0))?;
    owner(rt, place(0, 0, 0), place(2, 0, 0))?;
    owner(rt, place(5, -3, -2), place(6, -2, -2))?;
    owner(rt, place(5, -3, -2), place(6, -3, -1))?;
    owner(rt, place(5, -3, -2), place(4, -3, -1))?;
    owner(rt, place(0, 0, 0), place(0, 0, 0))?;
    owner(rt, place(0, 0, 0), place(3, 0, 0))?;
    owner(rt, place(0, 0, 0), place(1, 0, 0))?;
    owner(
        rt,
        place(9223372036854775807, 0, 0),
        place(9223372036854775805, 0, 0),
    )?;
    owner(
        rt,
        place(-9223372036854775808, 0, 0),
        place(-9223372036854775806, 0, 0),
    )
}

// Pairs whose differences the Rust cuts to eight bits, or overflows in: no edge.
fn far_owners(rt: &impl Print) -> io::Result<()> {
    owner(rt, place(0, 0, 0), place(254, 0, 0))?;
    owner(rt, place(0, 0, 0), place(255, 257, 0))?;
    owner(
        rt,
        place(9223372036854775807, 0, 0),
        place(-9223372036854775808, 0, 0),
    )?;
    owner(
        rt,
        place(-9223372036854775808, 0, 0),
        place(9223372036854775807, 0, 0),
    )
}

fn main(rt: HostRuntime) -> io::Result<()> {
    all_tables(&rt)?;
    owners(&rt)?;
    far_owners(&rt)
}
