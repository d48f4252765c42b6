// The static library: each function of `api` that C and Rust call, under its own name and with its own promise. What is asked of a caller stands in
// include/spoonthicket.h.
#![tactic(auto)]

ghost use Rattle.std.specs.Prelude.{◌≡◌};
ghost use Rattle.sort.specs.Order.{Sorts};
ghost use Rattle.topology.specs.Walk.{visits};
ghost use Rattle.build.specs.Answer.{lists};
ghost use Rattle.ply_write.specs.Answers.{bits_of, file_length};
ghost use Rattle.api.specs.Calls.{CallOf, TopologyTold};
ghost use Rattle.api.specs.Files.{PlyWritten, PlyRead, PlySized};
ghost use Rattle.api.specs.Volumes.{VolumeTold};

#[unsafe(no_mangle)]
pub extern "C" fn spoonthicket_build(
    nu: usize,
    nv: usize,
    nw: usize,
    method: usize,
    rounds: usize,
    inside: f64,
    frame: &[f64; 6],
    samples: &[f64],
    masks: &mut [u16],
    table: &mut [u32],
    vertices: &mut [f64],
    book: &mut [u32],
    triangles: &mut [u32],
    edges: &mut [u32],
    counts: &mut [usize; 10],
) -> usize
    ensures { CallOf nu nv nw method rounds inside frame.now samples.now (lists masks.old table.old vertices.old book.old triangles.old edges.old) (lists masks.new table.new vertices.new book.new triangles.new edges.new) result counts.new }
{
    api::spoonthicket_build(
        nu, nv, nw, method, rounds, inside, frame, samples, masks, table, vertices, book,
        triangles, edges, counts,
    )
}

#[unsafe(no_mangle)]
pub extern "C" fn spoonthicket_topology(
    mask: u16,
    method: usize,
    inside: f64,
    ends: &[f64; 14],
    clusters: &mut [u16; 14],
    visits: &mut [usize; 1],
) -> usize
    ensures { TopologyTold «mask» method inside ends.now result clusters.new visits.new }
{
    api::spoonthicket_topology(mask, method, inside, ends, clusters, visits)
}

#[unsafe(no_mangle)]
pub extern "C" fn spoonthicket_visits(mask: u16) -> usize
    ensures { result ≡ visits «mask» }
{
    api::spoonthicket_visits(mask)
}

#[unsafe(no_mangle)]
pub extern "C" fn spoonthicket_sort(words: &mut [u32])
    ensures { Sorts words.old words.new }
{
    api::spoonthicket_sort(words);
}

#[unsafe(no_mangle)]
pub extern "C" fn spoonthicket_ply_length(vertices: usize, faces: usize) -> usize
    ensures { result ≡ file_length vertices faces }
{
    api::spoonthicket_ply_length(vertices, faces)
}

#[unsafe(no_mangle)]
pub extern "C" fn spoonthicket_ply_write(
    words: &[u64],
    triangles: &[u32],
    out: &mut [u8],
    written: &mut [usize; 1],
) -> usize
    ensures { PlyWritten words.now triangles.now out.old out.new result written.new }
{
    api::spoonthicket_ply_write(words, triangles, out, written)
}

#[unsafe(no_mangle)]
pub extern "C" fn spoonthicket_ply_mesh(
    vertices: &[f64],
    triangles: &[u32],
    out: &mut [u8],
    written: &mut [usize; 1],
) -> usize
    ensures { PlyWritten (bits_of vertices.now) triangles.now out.old out.new result written.new }
{
    api::spoonthicket_ply_mesh(vertices, triangles, out, written)
}

#[unsafe(no_mangle)]
pub extern "C" fn spoonthicket_ply_sizes(file: &[u8], counts: &mut [usize; 2]) -> usize
    ensures { PlySized file.now result counts.new }
{
    api::spoonthicket_ply_sizes(file, counts)
}

#[unsafe(no_mangle)]
pub extern "C" fn spoonthicket_ply_read(
    file: &[u8],
    words: &mut [u64],
    triangles: &mut [u32],
    counts: &mut [usize; 2],
) -> usize
    ensures { PlyRead file.now words.old triangles.old words.new triangles.new result counts.new }
{
    api::spoonthicket_ply_read(file, words, triangles, counts)
}

#[unsafe(no_mangle)]
pub extern "C" fn spoonthicket_volume(
    vertices: &[f64],
    triangles: &[u32],
    scale: f64,
    origin: &[i64; 3],
    six: &mut [i64; 1],
) -> usize
    ensures { VolumeTold vertices.now triangles.now scale origin.now result six.new }
{
    api::spoonthicket_volume(vertices, triangles, scale, origin, six)
}
