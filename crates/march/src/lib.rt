// The march of tetrahedra: triangles from the cases of the cells and the edge table, appended to a lent list.
// The threshold is the caller's: h, and in a slab a field beside what is measured against it.
#![tactic(auto)]

ghost use Rattle.std.specs.Prelude.{◌≡◌, [], ◌∷◌, ◌+◌, ◌*◌, ◌-◌, ◌<◌, ◌≤◌, length};
ghost use Rattle.laws.specs.Written.{Written};
ghost use Rattle.laws.specs.Triangles.{flat};
ghost use Rattle.cases.specs.Inner.Codes.{column_of, Coded};
ghost use Rattle.march.specs.March.{site_tris, slab, march};
ghost use Rattle.march.specs.Lists.{field_of};
ghost use Rattle.march.specs.Inner.Loop.{twice, unless_twice, corner_at, tet_flat, cell_flat, row_flat, InTable, Lent, Lends};

use lattice::Sides;

// An edge without a vertex.
pub const NONE: u32 = 0xFFFF_FFFF;

// Whether a vertex stands twice.
fn repeats(a: u32, b: u32, c: u32) -> bool
    ensures { result ≡ twice a b c }
{
    a == b || b == c || a == c
}

// Three numbers appended at n: the next free place.
fn put3(tris: &mut [u32], n: usize, a: u32, b: u32, c: u32) -> usize
    requires { n + 3 ≤ length tris.old }
    ensures { Written tris.old n (a ∷ b ∷ c ∷ []) tris.new result }
{
    tris[n] = a;
    tris[n + 1] = b;
    tris[n + 2] = c;
    n + 3
}

// The triangle of three vertices appended at n, nothing where a vertex stands twice: the next free place.
fn put_triangle(tris: &mut [u32], n: usize, v: &[u32; 3]) -> usize
    requires { (n + 3 ≤ length tris.old) × (length v.now ≡ 3) }
    ensures { Written tris.old n (unless_twice v.now) tris.new result }
{
    if repeats(v[0], v[1], v[2]) {
        return n;
    }
    put3(tris, n, v[0], v[1], v[2])
}

// The edges of the cell at a site, whose vertices stand in the edge table: rows are nu sites long, layers nn.
#[derive(Clone, Copy)]
struct CellEdges<'a> {
    edges: &'a [u32],
    site: usize,
    nu: usize,
    nn: usize,
    ghost in_table: { InTable edges.now site nu nn },
}

impl CellEdges<'_> {
    ghost use Rattle.march.specs.Inner.Held.{vertices};

    // The vertex of an edge, by owner and label.
    fn look_up(self, x: usize) -> u32
        requires { x < 56 }
        ensures { result ≡ vertices self.entry x }
    {
        let c = x / tables::OWNED_EDGES;
        let owner = self.site + c % 2 + self.nu * (c / 2 % 2) + self.nn * (c / 4 % 2);
        self.edges[tables::OWNED_EDGES * owner + x % tables::OWNED_EDGES]
    }

    // The vertex of corner c of triangle k of a case of tetrahedron t.
    fn corner_vertex(self, t: usize, case: usize, k: usize, c: usize) -> u32
        requires { (t < 6) × (case < 16) × (k < 2) × (c < 3) }
        ensures { result ≡ corner_at (vertices self.entry) t case k c }
    {
        let e = tables::mt_edge(case, 3 * k + c);
        let x = tables::tet_slot(t, e);
        self.look_up(x)
    }

    // The triangles of one tetrahedron: one with an unresolved or a repeated vertex is dropped.
    fn march_tet(self, tris: &mut [u32], at: usize, t: usize, case: usize) -> usize
        requires indices { (t < 6) × (case < 16) }
        requires room { at + 6 ≤ length tris.old }
        ensures { Written tris.old at (tet_flat (vertices self.entry) t case) tris.new result }
    {
        let mut n = at;
        let count = tables::mt_count(case);
        'tri: for k in 0..count {
            let mut v = [0u32; 3];
            for c in 0..3 {
                let x = self.corner_vertex(t, case, k, c);
                if x == NONE {
                    continue 'tri;
                }
                v[c] = x;
            }
            n = put_triangle(tris, n, &v);
        }
        n
    }

    // The triangles of the six tetrahedra of the cell.
    fn march_tets(self, tris: &mut [u32], at: usize, codes: &[usize; 8]) -> usize
        requires coded { Coded codes.now }
        requires room { at + 36 ≤ length tris.old }
        ensures { Written tris.old at (cell_flat (vertices self.entry) codes.now) tris.new result }
    {
        let mut n = at;
        for t in 0..tables::TETS {
            let case = cases::case_at(codes, t);
            n = self.march_tet(tris, n, t, case);
        }
        n
    }
}

// After a cell: the next free place, and the column on its right.
#[derive(Clone, Copy)]
pub struct Cell {
    pub next: usize,
    pub right: [usize; 4],
}

// The first slab of cells: samples and edge table start at its first site, and the sides are those of the box from there on.
#[derive(Clone, Copy)]
struct Slab<'a> {
    samples: &'a [f64],
    edges: &'a [u32],
    sides: Sides,
    threshold: f64,
    ghost lent: { Lent sides samples.now edges.now },
}

impl Slab<'_> {
    ghost use Rattle.march.specs.Inner.Held.{field};

    // The triangles of the cell at (u, v), given the column on its left: none where all corners are outside or all are inside.
    fn march_cell(self, tris: &mut [u32], at: usize, u: usize, v: usize, left: &[usize; 4]) -> Cell
        requires in_box { (u + 1 < self.sides.nu) × (v + 1 < self.sides.nv) }
        requires room { at + 36 ≤ length tris.old }
        requires left_value { left.now ≡ column_of self.sides self.samples.now self.threshold u v }
        ensures written { Written tris.old at (flat (site_tris (field self.entry) u v 0)) tris.new result.next }
        ensures right_value { result.right ≡ column_of self.entry.sides self.entry.samples.now self.entry.threshold (u + 1) v }
    {
        let nu = self.sides.nu;
        let nn = nu * self.sides.nv;
        let site = u + nu * v;
        let right = cases::column(self.samples, site + 1, nu, nn, self.threshold);
        let codes = cases::join(left, &right);
        let sum = cases::code_sum(&codes);
        if sum == 0 || sum == 8 {
            return Cell { next: at, right };
        }
        let cell = CellEdges {
            edges: self.edges,
            site,
            nu,
            nn,
        };
        let next = cell.march_tets(tris, at, &codes);
        Cell { next, right }
    }

    // The triangles of one row of cells.
    fn march_row(self, tris: &mut [u32], at: usize, v: usize) -> usize
        requires in_box { v + 1 < self.sides.nv }
        requires room { at + (self.sides.nu - 1) * 36 ≤ length tris.old }
        ensures { Written tris.old at (row_flat (field self.entry) v) tris.new result }
    {
        let mut next = at;
        let nu = self.sides.nu;
        let m = nu - 1;
        let mut left = cases::column(self.samples, nu * v, nu, nu * self.sides.nv, self.threshold);
        for u in 0..m {
            let cell = self.march_cell(tris, next, u, v, &left);
            next = cell.next;
            left = cell.right;
        }
        next
    }
}

// The triangles of the first slab of cells: n has the sides of the part of the box that s and edges start at.
pub fn march_layer(s: &[f64], edges: &[u32], tris: &mut [u32], at: usize, n: Sides, h: f64) -> usize
    requires lent { Lent n s.now edges.now }
    requires nu_in_bounds { at + (n.nv - 1) * ((n.nu - 1) * 36) ≤ length tris.old }
    ensures { Written tris.old at (flat (slab (field_of n s.now h edges.now) 0)) tris.new result }
{
    let slab = Slab {
        samples: s,
        edges,
        sides: n,
        threshold: h,
    };
    let mut next = at;
    let m = n.nv - 1;
    for v in 0..m {
        next = slab.march_row(tris, next, v);
    }
    next
}

// The triangles of the box, in the order of sites, tetrahedra and rows, from the list's first entry on: how many.
// The work is done layer by layer, each given the samples and the edge table from its first site on.
pub fn march_box(samples: &[f64], edges: &[u32], tris: &mut [u32], n: Sides, h: f64) -> usize
    requires { Lends n samples.now edges.now tris.old }
    ensures { Written tris.old 0 (flat (march (field_of n samples.now h edges.now))) tris.new (3 * result) }
{
    let nu = n.nu;
    let nv = n.nv;
    let nn = nu * nv;
    let m = n.nw - 1;
    let mut next = 0;
    for w in 0..m {
        let a = w * nn;
        let e = tables::OWNED_EDGES * a;
        next = march_layer(
            &samples[a..],
            &edges[e..],
            tris,
            next,
            Sides { nu, nv, nw: 2 },
            h,
        );
    }
    next / 3
}
