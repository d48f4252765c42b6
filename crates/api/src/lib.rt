// What C and Rust link: the build, PLY files, the volume, and three leaves for whoever measures. No function here asks anything of its caller but that each
// list is as long as it says, that the lists do not overlap, and that the fixed ones have their entries.
#![tactic(auto)]

ghost use Rattle.std.specs.Prelude.{◌≡◌, [], ◌∷◌, ◌<◌};
ghost use Rattle.marks.specs.Marks.{sample};
ghost use Rattle.sort.specs.Order.{Sorts};
ghost use Rattle.topology.specs.Walk.{visits};
ghost use Rattle.build.specs.Answer.{lists, counts_of};
ghost use Rattle.ply_write.specs.Answers.{bits_of, file_length};
ghost use Rattle.api.specs.Calls.{frame_at, ends_at, CallOf, TopologyTold};
ghost use Rattle.api.specs.Files.{write_status, write_length, read_status, read_counts, PlyWritten, PlyRead, PlySized};
ghost use Rattle.api.specs.Volumes.{whole_at, VolumeTold};

use build::Answer;
use lattice::Sides;
use ply::Counts;
use points::{Frame, Point};
use volume::Whole;

// Origin and step, three numbers each.
fn frame_at(f: &[f64; 6]) -> Frame
    ensures { result ≡ frame_at f.now }
{
    let origin = Point {
        x: f[0],
        y: f[1],
        z: f[2],
    };
    let step = Point {
        x: f[3],
        y: f[4],
        z: f[5],
    };
    points::frame_of(origin, step)
}

// The ten counts, in the order in which they are printed (docs/SCOPE.md, S10.6).
fn counts_of(a: Answer) -> [usize; 10]
    ensures { result ≡ counts_of a }
{
    [
        a.crossed,
        a.vertices,
        a.triangles,
        a.closed,
        a.multihole,
        a.flathole,
        a.multisurface,
        a.simple,
        a.split,
        a.rounds,
    ]
}

// The build, inside being below -inside. The answer is the number of docs/SCOPE.md, S9.2: 0 done, else a refusal, which leaves the six lists as they were and gives ten zeros.
pub fn spoonthicket_build(
    nu: usize,
    nv: usize,
    nw: usize,
    method: usize,
    rounds: usize,
    inside: f64,
    frame: &[f64; 6],
    samples: &[f64],
    masks: &mut [u16],
    table: &mut [u32],
    vertices: &mut [f64],
    book: &mut [u32],
    triangles: &mut [u32],
    edges: &mut [u32],
    counts: &mut [usize; 10],
) -> usize
    ensures { CallOf nu nv nw method rounds inside frame.now samples.now (lists masks.old table.old vertices.old book.old triangles.old edges.old) (lists masks.new table.new vertices.new book.new triangles.new edges.new) result counts.new }
{
    let at = frame_at(frame);
    let answer = build::build(
        Sides { nu, nv, nw },
        method,
        rounds,
        inside,
        at,
        samples,
        masks,
        table,
        vertices,
        book,
        triangles,
        edges,
    );
    *counts = counts_of(answer);
    answer.status
}

// Fourteen values as the topology test takes them: to it, one that is not finite is missing.
fn ends_at(ends: &[f64; 14]) -> [Option<f64>; 14]
    ensures { result ≡ ends_at ends.now }
{
    ends.map(Some)
}

// The topology test of one mask, with any threshold: the case's number; the clusters' masks, zeros behind them; and how many edges its walks took from their frontiers.
pub fn spoonthicket_topology(
    mask: u16,
    method: usize,
    inside: f64,
    ends: &[f64; 14],
    clusters: &mut [u16; 14],
    visits: &mut [usize; 1],
) -> usize
    ensures { TopologyTold «mask» method inside ends.now result clusters.new visits.new }
{
    let known = ends_at(ends);
    let found = topology::test_topology(mask, method == 1, known, inside);
    let masks = found.clusters.masks;
    *clusters = masks;
    *visits = [found.visits];
    let case = found.case;
    topology::case_number(case)
}

// How many edges the walks over a mask take, before any is made.
pub fn spoonthicket_visits(mask: u16) -> usize
    ensures { result ≡ visits «mask» }
{
    topology::visit_total(mask)
}

// Sorts records of three words by all three; words past the last whole record stay.
pub fn spoonthicket_sort(words: &mut [u32])
    ensures { Sorts words.old words.new }
{
    sort::sort(words);
}

// ---- PLY files

// What C is told of a writer's answer: 0 and the file's length, or the refusal's number and 0.
fn tell_written(wrote: Result<usize, ply_write::Refusal>, written: &mut [usize; 1]) -> usize
    ensures status { result ≡ write_status wrote }
    ensures length { written.new ≡ write_length wrote ∷ [] }
{
    match wrote {
        Ok(length) => {
            *written = [length];
            0
        }
        Err(refusal) => {
            *written = [0];
            refusal.number()
        }
    }
}

// What C is told of a reader's answer: 0 and the counts, or the refusal's number and zeros.
fn tell_counts(read: Result<Counts, ply::Refusal>, counts: &mut [usize; 2]) -> usize
    ensures status { result ≡ read_status read }
    ensures numbers { counts.new ≡ read_counts read }
{
    match read {
        Ok(found) => {
            *counts = [found.vertices, found.faces];
            0
        }
        Err(refusal) => {
            *counts = [0, 0];
            refusal.number()
        }
    }
}

// How long the file of so many vertices and faces is; 0 where one of them is over 999,999,999 and there is no such file.
pub fn spoonthicket_ply_length(vertices: usize, faces: usize) -> usize
    ensures { result ≡ file_length vertices faces }
{
    ply_write::length_of(vertices, faces)
}

// The file of the words and the triangles, put at the front of `out`. The answer is 0, or a refusal, 10 or 11, which leaves `out` as it was; `written` gets the
// file's length, 0 on a refusal.
pub fn spoonthicket_ply_write(
    words: &[u64],
    triangles: &[u32],
    out: &mut [u8],
    written: &mut [usize; 1],
) -> usize
    ensures { PlyWritten words.now triangles.now out.old out.new result written.new }
{
    let wrote = ply_write::write(words, triangles, out);
    tell_written(wrote, written)
}

// The same for a mesh whose coordinates are floats, as the build leaves them: their bits are written.
pub fn spoonthicket_ply_mesh(
    vertices: &[f64],
    triangles: &[u32],
    out: &mut [u8],
    written: &mut [usize; 1],
) -> usize
    ensures { PlyWritten (bits_of vertices.now) triangles.now out.old out.new result written.new }
{
    let wrote = ply_write::write_mesh(vertices, triangles, out);
    tell_written(wrote, written)
}

// The numbers of vertices and faces of a file, zeros on a refusal, 9 or 10. Nothing else is stored.
pub fn spoonthicket_ply_sizes(file: &[u8], counts: &mut [usize; 2]) -> usize
    ensures { PlySized file.now result counts.new }
{
    let sized = ply::sizes(file);
    tell_counts(sized, counts)
}

// The words and the indices of a file, put at the fronts of the two lists. A refusal, 9, 10 or 11, leaves them as they were, and gives zeros.
pub fn spoonthicket_ply_read(
    file: &[u8],
    words: &mut [u64],
    triangles: &mut [u32],
    counts: &mut [usize; 2],
) -> usize
    ensures { PlyRead file.now words.old triangles.old words.new triangles.new result counts.new }
{
    let stored = ply::read(file, words, triangles);
    tell_counts(stored, counts)
}

// ---- the volume

fn whole_at(o: &[i64; 3]) -> Whole
    ensures { result ≡ whole_at o.now }
{
    let x = o[0];
    let y = o[1];
    let z = o[2];
    Whole { x, y, z }
}

// Six times the volume that the triangles enclose, in whole units. The answer is 0, or a refusal, 10, 12 or 13; `six` gets the sum, 0 on a refusal.
pub fn spoonthicket_volume(
    vertices: &[f64],
    triangles: &[u32],
    scale: f64,
    origin: &[i64; 3],
    six: &mut [i64; 1],
) -> usize
    ensures { VolumeTold vertices.now triangles.now scale origin.now result six.new }
{
    let at = whole_at(origin);
    let found = volume::volume_of(vertices, triangles, scale, at);
    match found {
        Ok(n) => {
            *six = [n];
            0
        }
        Err(refusal) => {
            *six = [0];
            refusal.number()
        }
    }
}
