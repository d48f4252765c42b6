// Reads a count file from standard input, or from the file that its one argument names, and prints the answer and then all that the build leaves behind, in the format of tools/oracle/FORMAT.md.
// A build keeps no list of the clusters that it split, nor of the sites that it rolled back: both are read off the edge table and the vertex book.
#![tactic(auto)]

ghost use Rattle.std.specs.Prelude.{◌<◌, ◌≤◌, length};
ghost use Rattle.lattice.specs.Sites.{sites};
ghost use Rattle.marks.specs.Inner.Loops.{Sampled};
ghost use Rattle.file_build.specs.Asked.{head_sides};

use build::Answer;
use count_file::Head;
use file_build::WorkSpace;
use lattice::Sides;
use std::io;
use topology::TopologyResult;

// ---- the sites and the lists

// The sites of a build: the box, their samples, the threshold, whether their edges are clustered, and their masks.
#[derive(Clone, Copy)]
struct Field<'a> {
    sides: Sides,
    samples: &'a [f64],
    inside: f64,
    cluster: bool,
    masks: &'a [u16],
    ghost sampled: { Sampled sides samples.now },
    ghost masked: { length masks.now ≤ sites sides },
}

impl Field<'_> {
    // The case of a site with mask m, and its clusters.
    fn topology(&self, s: usize, m: u16) -> TopologyResult
        requires { s < sites self.now.sides }
    {
        let ends = site_vertices::ends_of(self.sides, self.samples, s);
        topology::test_topology(m, self.cluster, ends, self.inside)
    }

    // Whether the edge table has a vertex for an edge of a site. The place is within the table that a build leaves; the test stands in for that proof.
    fn has_vertex(&self, table: &[u32], s: usize, e: usize) -> bool
        requires { (s < sites self.now.sides) × (e < 14) }
    {
        let k = site_vertices::edge_place(self.sides, s, e);
        table.get(k).is_some_and(|v| *v != march::NONE)
    }

    // How many edges of a cluster have a vertex: those that have a point.
    fn held(&self, table: &[u32], s: usize, mask: u16) -> usize
        requires { s < sites self.now.sides }
        ensures { result ≤ 14 }
    {
        let mut p = 0usize;
        for e in 0..tables::EDGES {
            if (mask >> e) & 1 == 1 && self.has_vertex(table, s, e) {
                p += 1;
            }
        }
        p
    }
}

// The lists that a build leaves, as far as it filled them: the edge table, the positions, the rows of the vertex book, and the triangles.
#[derive(Clone, Copy)]
struct Lists<'a> {
    table: &'a [u32],
    positions: &'a [[f64; 3]],
    book: &'a [[u32; 4]],
    triangles: &'a [[u32; 3]],
}

// The first n of a list; all of them where there are fewer.
fn front<T>(list: &[T], n: usize) -> &[T]
    ensures { length result.now ≤ n }
{
    &list[..n.min(list.len())]
}

// ---- masks and clusters

fn show_masks(rt: &impl Print, masks: &[u16]) -> io::Result<()> {
    for (s, m) in masks.iter().enumerate() {
        if *m != 0 {
            print!(rt; "mask {s}")?;
            streams::mask_word(rt, *m)?;
            println!(rt)?;
        }
    }
    Ok(())
}

fn show_topology(rt: &impl Print, field: &Field, s: usize, m: u16) -> io::Result<()>
    requires { s < sites field.now.sides }
{
    if m == 0 {
        return Ok(());
    }
    let r = field.topology(s, m);
    let clusters = r.clusters;
    print!(rt;
        "topology {s} {} {}",
        topology::case_number(r.case),
        clusters.count
    )?;
    streams::mask_words(rt, clusters.count, clusters.masks)?;
    println!(rt)
}

fn show_topologies(rt: &impl Print, field: &Field) -> io::Result<()> {
    for (s, m) in field.masks.iter().enumerate() {
        show_topology(rt, field, s, *m)?;
    }
    Ok(())
}

// ---- cases of the tetrahedra

fn show_cases(rt: &impl Print, field: &Field, s: usize) -> io::Result<()>
    requires { s < sites field.now.sides }
{
    let p = lattice::coordinates(field.sides, s);
    let c = cases::site_cases(field.samples, field.sides, p, field.inside);
    if c == [0; 6] {
        return Ok(());
    }
    println!(rt;
        "tets {s} {} {} {} {} {} {}",
        c[0], c[1], c[2], c[3], c[4], c[5]
    )
}

fn show_tets(rt: &impl Print, field: &Field) -> io::Result<()> {
    for s in 0..lattice::site_count(field.sides) {
        show_cases(rt, field, s)?;
    }
    Ok(())
}

// ---- splits

// Where the walk over the candidates stands: the number of the next one, and the next vertex of round 0.
#[derive(Clone, Copy)]
struct Walk {
    candidate: usize,
    vertex: usize,
    ghost passed: { candidate ≤ vertex },
}

impl Walk {
    // Before the first candidate.
    fn start() -> Walk {
        Walk {
            candidate: 0,
            vertex: 0,
        }
    }
}

// A cluster with p points is a candidate, unless p is 0. It has one vertex that was made with p edges; or, where it was split, p vertices with one edge each, and then
// its number is printed. A build's book has all of them; the test of the book's end stands in for that proof.
fn show_candidate(rt: &impl Print, book: &[[u32; 4]], w: Walk, p: usize) -> io::Result<Walk>
    requires { p ≤ 14 }
{
    if p == 0 {
        return Ok(w);
    }
    let Some([_, _, made, _]) = book.get(w.vertex) else {
        return Ok(w);
    };
    if *made as usize == p {
        return Ok(Walk {
            candidate: w.candidate + 1,
            vertex: w.vertex + 1,
        });
    }
    print!(rt; " {}", w.candidate)?;
    Ok(Walk {
        candidate: w.candidate + 1,
        vertex: w.vertex + p,
    })
}

fn show_site_splits(
    rt: &impl Print,
    field: &Field,
    lists: &Lists,
    s: usize,
    m: u16,
    from: Walk,
) -> io::Result<Walk>
    requires { s < sites field.now.sides }
{
    let clusters = field.topology(s, m).clusters;
    let mut w = from;
    for mask in clusters.masks.iter().take(clusters.count) {
        w = show_candidate(rt, lists.book, w, field.held(lists.table, s, *mask))?;
    }
    Ok(w)
}

fn show_splits(rt: &impl Print, field: &Field, lists: &Lists, split: usize) -> io::Result<()> {
    print!(rt; "split {split}")?;
    let mut w = Walk::start();
    for (s, m) in field.masks.iter().enumerate() {
        w = show_site_splits(rt, field, lists, s, *m, w)?;
    }
    println!(rt)
}

// ---- rollback owners

// The sites rolled back in a round are those with vertices made in it, whose rows stand in site order. A site is printed once.
fn show_owners(rt: &impl Print, book: &[[u32; 4]], round: usize) -> io::Result<()> {
    print!(rt; "owners {round}")?;
    let mut last = None;
    for [site, _, _, made_in] in book {
        if *made_in as usize == round && last != Some(*site) {
            print!(rt; " {site}")?;
            last = Some(*site);
        }
    }
    println!(rt)
}

fn show_rounds(rt: &impl Print, book: &[[u32; 4]], rounds: usize) -> io::Result<()> {
    for round in 1..=rounds {
        show_owners(rt, book, round)?;
    }
    Ok(())
}

// ---- edge table, positions, vertex book, triangles

fn show_edges(rt: &impl Print, table: &[u32]) -> io::Result<()> {
    for (s, row) in table.chunks_exact(tables::OWNED_EDGES).enumerate() {
        for (label, v) in row.iter().enumerate() {
            if *v != march::NONE {
                println!(rt; "edge {s} {label} {v}")?;
            }
        }
    }
    Ok(())
}

fn show_positions(rt: &impl Print, positions: &[[f64; 3]]) -> io::Result<()> {
    for (v, [x, y, z]) in positions.iter().enumerate() {
        let a = points::bits_of_float(*x);
        let b = points::bits_of_float(*y);
        let c = points::bits_of_float(*z);
        println!(rt; "position {v} {a:016x} {b:016x} {c:016x}")?;
    }
    Ok(())
}

fn show_book(rt: &impl Print, book: &[[u32; 4]]) -> io::Result<()> {
    for (v, [site, now, made, round]) in book.iter().enumerate() {
        println!(rt; "book {v} {site} {now} {made} {round}")?;
    }
    Ok(())
}

fn show_triangles(rt: &impl Print, triangles: &[[u32; 3]]) -> io::Result<()> {
    for [a, b, c] in triangles {
        println!(rt; "triangle {a} {b} {c}")?;
    }
    Ok(())
}

// ---- the whole

fn show_sites(rt: &impl Print, field: &Field) -> io::Result<()> {
    show_masks(rt, field.masks)?;
    show_topologies(rt, field)?;
    show_tets(rt, field)
}

fn show_lists(rt: &impl Print, lists: &Lists) -> io::Result<()> {
    show_edges(rt, lists.table)?;
    show_positions(rt, lists.positions)?;
    show_book(rt, lists.book)?;
    show_triangles(rt, lists.triangles)
}

// All that a build has left, of a file of k sites.
fn dump(
    rt: &impl Print,
    head: Head,
    samples: &[f64],
    a: Answer,
    space: &WorkSpace,
) -> io::Result<()>
    requires { Sampled (head_sides head) samples.now × (length samples.now ≤ sites (head_sides head)) }
{
    let sizes = head.sizes;
    let k = samples.len().min(count_file::SITES);
    let field = Field {
        sides: file_build::sides_of(head),
        samples,
        inside: file_build::inside_of(head),
        cluster: sizes[3] == 1,
        masks: front(&space.masks, samples.len()),
    };
    let lists = Lists {
        table: front(&space.table, tables::OWNED_EDGES * k),
        positions: front(space.positions.as_chunks().0, a.vertices),
        book: front(space.book.as_chunks().0, a.vertices),
        triangles: front(space.triangles.as_chunks().0, a.triangles),
    };
    show_sites(rt, &field)?;
    show_splits(rt, &field, &lists, a.split)?;
    show_rounds(rt, lists.book, a.rounds)?;
    show_lists(rt, &lists)
}

fn show_file(rt: &impl Print, input: &[u8]) -> io::Result<()> {
    let mut space = WorkSpace::new();
    let built = space.build(input);
    let sites = built.file.map_or(0, |file| file.sites);
    let answer = built.answer;
    let mut out = [0u8; count::ROOM];
    let k = count::print(&mut out, sites, answer).min(count::ROOM);
    rt.write_all(&out[..k])?;
    if let Some(file) = built.file {
        if answer.status == 0 {
            let samples = file_build::floats_of(file.samples);
            dump(rt, file.head, &samples[..file.sites], answer, &space)?;
        }
    }
    Ok(())
}

fn main(rt: HostRuntime) -> io::Result<()> {
    let mut space = [0u8; count_file::ENOUGH];
    if let Some(taken) = streams::read(&rt, b"usage: dump_main [FILE]\n", 1, &mut space) {
        show_file(&rt, &space[..taken.length])?;
        streams::finish(&rt, taken.from);
    }
    Ok(())
}
