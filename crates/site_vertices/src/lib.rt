// Vertices of one site: the samples at its fourteen ends, the places of its edges in the edge table, and the vertex of one cluster.
#![tactic(auto)]

ghost use Rattle.std.specs.Prelude.{◌≡◌, [], ◌∷◌, ◌+◌, ◌*◌, ◌<◌, ◌≤◌, length};
ghost use Rattle.std.proofs.lemmas.List.Edits.{sets};
ghost use Rattle.lattice.specs.Sites.{SidesFit, sites};
ghost use Rattle.lattice.specs.Across.{across_of};
ghost use Rattle.marks.specs.Inner.Loops.{Sampled};
ghost use Rattle.stages.specs.Boxes.{reach, owned};
ghost use Rattle.stages.specs.Samples.{end_by, ends_of, place_of};
ghost use Rattle.site_vertices.specs.Inner.Drawing.{Tabled, EdgesDrawn, ClusterDrawn, VertexPut};
ghost use Rattle.site_vertices.specs.Inner.Appending.{Appended, Space, singles_in, singles_of};

use lattice::Sides;
use points::{Frame, Point, Sum};

// A box with its samples, and where its points lie. The lists that its methods fill stay parameters: where a field behind a `&mut` is lent, no fact says what it holds afterwards.
#[derive(Clone, Copy)]
pub struct Source<'a> {
    pub frame: Frame,
    pub sides: Sides,
    pub samples: &'a [f64],
    pub ghost sampled: { Sampled sides samples.now },
}

// The sample at the other end of an edge, if that is in the box.
fn end_at(n: Sides, samples: &[f64], s: usize, e: usize) -> Option<f64>
    requires { Sampled n samples.now × (s < sites n) × (e < 14) }
    ensures { result ≡ end_by samples.now (across_of n s e) }
{
    let t = lattice::across(n, s, e)?;
    Some(samples[t])
}

// The fourteen ends of a site, as the topology test takes them.
pub fn ends_of(n: Sides, samples: &[f64], s: usize) -> [Option<f64>; 14]
    requires { Sampled n samples.now × (s < sites n) }
    ensures { result ≡ ends_of n samples.now s }
{
    let a = end_at(n, samples, s, 0);
    let b = end_at(n, samples, s, 1);
    let c = end_at(n, samples, s, 2);
    let d = end_at(n, samples, s, 3);
    let e = end_at(n, samples, s, 4);
    let f = end_at(n, samples, s, 5);
    let g = end_at(n, samples, s, 6);
    let h = end_at(n, samples, s, 7);
    let i = end_at(n, samples, s, 8);
    let j = end_at(n, samples, s, 9);
    let k = end_at(n, samples, s, 10);
    let l = end_at(n, samples, s, 11);
    let m = end_at(n, samples, s, 12);
    let o = end_at(n, samples, s, 13);
    [a, b, c, d, e, f, g, h, i, j, k, l, m, o]
}

// How far the site across an owned edge lies, by number.
fn reach_of(n: Sides, label: usize) -> usize
    requires { SidesFit n × (label < 7) }
    ensures { result ≡ reach n label }
{
    let c = tables::label_corner(label);
    c % 2 + n.nu * (c / 2 % 2) + n.nu * n.nv * (c / 4 % 2)
}

// The place of an edge in the edge table: 7 times its owner, and the owner's label.
pub fn edge_place(n: Sides, s: usize, e: usize) -> usize
    requires { SidesFit n × (s < sites n) × (e < 14) }
    ensures { result ≡ owned n s e }
{
    if e < tables::OWNED_EDGES {
        return tables::OWNED_EDGES * s + e;
    }
    let label = e - tables::OWNED_EDGES;
    let far = reach_of(n, label);
    if far <= s {
        return tables::OWNED_EDGES * (s - far) + label;
    }
    label
}

fn put_point(positions: &mut [f64], at: usize, p: Point)
    requires { (at + 3 ≤ length positions.old) × (at ≤ 3145728) }
    ensures { positions.new ≡ sets positions.old at (p.x ∷ p.y ∷ p.z ∷ []) }
{
    positions[at] = p.x;
    positions[at + 1] = p.y;
    positions[at + 2] = p.z;
}

fn put_row(book: &mut [u32], at: usize, s: u32, held: u32, round: u32)
    requires { (at + 4 ≤ length book.old) × (at ≤ 4194304) }
    ensures { book.new ≡ sets book.old at (s ∷ held ∷ held ∷ round ∷ []) }
{
    book[at] = s;
    book[at + 1] = held;
    book[at + 2] = held;
    book[at + 3] = round;
}

// A vertex made in a round: its position, and its row of the book.
pub fn put_vertex(
    positions: &mut [f64],
    book: &mut [u32],
    i: usize,
    p: Point,
    s: usize,
    held: u32,
    round: u32,
)
    requires { Space positions.old book.old (i + 1) × (s < 4294967296) }
    ensures { VertexPut i p s held round positions.old positions.new book.old book.new }
{
    put_point(positions, 3 * i, p);
    put_row(book, 4 * i, s as u32, held, round);
}

impl Source<'_> {
    // The point on an edge of a site, where both ends are in the box and finite.
    fn place_of(&self, s: usize, e: usize) -> Option<Point>
        requires { (s < sites self.now.sides) × (e < 14) }
        ensures { result ≡ place_of self.now.frame self.now.sides self.now.samples.now s (across_of self.now.sides s e) }
    {
        let t = lattice::across(self.sides, s, e)?;
        let a = lattice::coordinates(self.sides, s);
        let b = lattice::coordinates(self.sides, t);
        points::edge_point(self.frame, a, b, self.samples[s], self.samples[t])
    }

    // One edge of a vertex: where it has a point, the point joins the sum, and the edge's place takes the vertex's number.
    fn draw_edge(&self, table: &mut [u32], s: usize, e: usize, id: u32, sum: Sum) -> Sum
        requires { Tabled self.now.sides table.old s × (e < 14) × (sum.count < 14) }
        ensures { EdgesDrawn self.now.frame self.now.sides self.now.samples.now s (e ∷ []) id table.old table.new sum result }
    {
        match self.place_of(s, e) {
            None => sum,
            Some(p) => {
                let k = edge_place(self.sides, s, e);
                table[k] = id;
                points::with_point(sum, p)
            }
        }
    }

    // The vertex of a cluster: the sum of the points on its edges, whose places in the edge table take its number.
    pub fn draw_cluster(&self, table: &mut [u32], s: usize, mask: u16, id: u32) -> Sum
        requires { Tabled self.now.sides table.old s }
        ensures { ClusterDrawn self.now.frame self.now.sides self.now.samples.now s mask id table.old table.new result }
    {
        let mut sum = points::no_points();
        let mut rest = mask & tables::ALL14_MASK;
        while rest != 0 {
            let e = u16::trailing_zeros(rest) as usize;
            rest ^= 1u16 << e;
            sum = self.draw_edge(table, s, e, id, sum);
        }
        sum
    }

    // One edge as a vertex of its own, where it has a point: the next number.
    fn draw_single(
        &self,
        table: &mut [u32],
        positions: &mut [f64],
        book: &mut [u32],
        s: usize,
        e: usize,
        next: usize,
        round: u32,
    ) -> usize
        requires drawable { Tabled self.now.sides table.old s × (e < 14) }
        requires space { Space positions.old book.old (next + length (singles_in self.now.sides self.now.samples.now round s (e ∷ []))) }
        ensures { Appended self.now.frame self.now.sides self.now.samples.now (singles_in self.now.sides self.now.samples.now round s (e ∷ [])) next table.old positions.old book.old result table.new positions.new book.new }
    {
        let sum = self.draw_cluster(table, s, 1u16 << e, next as u32);
        if sum.count == 0 {
            return next;
        }
        let p = points::mean(sum);
        put_vertex(positions, book, next, p, s, 1, round);
        next + 1
    }

    // Each edge of the mask that has a point as a vertex of its own, ascending: the next number.
    pub fn draw_singles(
        &self,
        table: &mut [u32],
        positions: &mut [f64],
        book: &mut [u32],
        s: usize,
        mask: u16,
        next: usize,
        round: u32,
    ) -> usize
        requires drawable { Tabled self.now.sides table.old s }
        requires space { Space positions.old book.old (next + length (singles_of self.now.sides self.now.samples.now round s mask)) }
        ensures { Appended self.now.frame self.now.sides self.now.samples.now (singles_of self.now.sides self.now.samples.now round s mask) next table.old positions.old book.old result table.new positions.new book.new }
    {
        let mut at = next;
        let mut left = mask & tables::ALL14_MASK;
        while left != 0 {
            let e = u16::trailing_zeros(left) as usize;
            left ^= 1u16 << e;
            at = self.draw_single(table, positions, book, s, e, at, round);
        }
        at
    }
}
