// The sides of a few small meshes, filled and sorted, and the flags of those whose pair is a side more than twice: each room word by word.
#![tactic(auto)]

ghost use Rattle.pairs.specs.Inner.Listing.{Room};

use std::io;

// A word as one sign: 0 to 9, then a to z, then a question mark.
fn sign(w: u32) -> char {
    char::from_digit(w, 36).unwrap_or('?')
}

// The words, a space after each third.
fn show(rt: &impl Print, room: &[u32]) -> io::Result<()> {
    let (thirds, rest) = room.as_chunks::<3>();
    for [a, b, c] in thirds {
        print!(rt; "{}{}{} ", sign(*a), sign(*b), sign(*c))?;
    }
    for w in rest {
        print!(rt; "{}", sign(*w))?;
    }
    println!(rt)
}

fn flags(rt: &impl Print, tris: &[u32], room: &mut [u32]) -> io::Result<()>
    requires { Room tris.now room.old }
{
    pairs::over_sides(tris, room);
    show(rt, room)
}

fn main(rt: HostRuntime) -> io::Result<()> {
    // Three triangles on the edge from 0 to 1.
    let fan: [u32; 9] = [0, 1, 2, 1, 0, 3, 0, 1, 4];
    let mut room = [0u32; 27];
    pairs::fill(&fan, &mut room);
    show(&rt, &room)?;
    sort::sort(&mut room);
    show(&rt, &room)?;
    flags(&rt, &fan, &mut room)?;
    sort::clear(&mut room);
    show(&rt, &room)?;
    // With words to count by: one for each vertex, and too few.
    let mut wide = [9u32; 32];
    flags(&rt, &fan, &mut wide)?;
    let mut few = [9u32; 28];
    flags(&rt, &fan, &mut few)?;
    // A tetrahedron.
    let tetra: [u32; 12] = [0, 1, 2, 0, 3, 1, 1, 3, 2, 2, 3, 0];
    let mut more = [9u32; 36];
    flags(&rt, &tetra, &mut more)?;
    // A triangle of one vertex, and one with a vertex twice.
    let bad: [u32; 6] = [5, 5, 5, 7, 7, 8];
    let mut less = [9u32; 18];
    flags(&rt, &bad, &mut less)?;
    // No triangle.
    flags(&rt, &fan[..0], &mut room[..0])?;
    // Words past the last whole record stay.
    let mut odd: [u32; 8] = [7, 8, 9, 7, 8, 1, 4, 3];
    sort::sort(&mut odd);
    show(&rt, &odd)
}
