// The box of sites: sides, site numbers, coordinates (u, v, w) and ijk, the site across an edge, the owner of an edge.
// A function with a `requires` is called by crates that have tested the sides at their door. They hold plain sides, whose fields C and files give, so that the
// sides fit stands in each clause and in no type.
#![tactic(auto)]

ghost use Rattle.std.specs.Prelude.{◌≡◌, ◌+◌, ◌*◌, ◌<◌, pos, ◌-ℤ◌};
ghost use Rattle.tables.specs.Edges.{corner_of};
ghost use Rattle.lattice.specs.Sites.{side_ok, sides_ok, SidesFit, sites, cells, site_of, uvw_of, InBox, at_end, on_border, ijk_of};
ghost use Rattle.lattice.specs.Across.{upward, downward, across_of};
ghost use Rattle.lattice.specs.Owner.{gap, gap_label, owner_of};

// The largest side of a box.
pub const LARGEST_SIDE: usize = 32;

#[derive(Clone, Copy)]
pub struct Sides {
    pub nu: usize,
    pub nv: usize,
    pub nw: usize,
}

#[derive(Clone, Copy)]
pub struct Uvw {
    pub u: usize,
    pub v: usize,
    pub w: usize,
}

#[derive(Clone, Copy)]
pub struct Ijk {
    pub i: i64,
    pub j: i64,
    pub k: i64,
}

// An edge as its owner sees it: the owner, the other end, and the owner's label.
#[derive(Clone, Copy)]
pub struct EdgeOwner {
    pub owner: Ijk,
    pub other: Ijk,
    pub label: usize,
}

fn side_ok(n: usize) -> bool
    ensures { result ≡ side_ok n }
{
    0 < n && n <= LARGEST_SIDE
}

// Each side is 1 to 32.
pub fn sides_ok(n: Sides) -> bool
    ensures { result ≡ sides_ok n }
{
    if side_ok(n.nu) {
        if side_ok(n.nv) {
            return side_ok(n.nw);
        }
    }
    false
}

pub fn site_count(n: Sides) -> usize
    requires { SidesFit n }
    ensures { result ≡ sites n }
{
    n.nu * n.nv * n.nw
}

pub fn cell_count(n: Sides) -> usize
    requires { SidesFit n }
    ensures { result ≡ cells n }
{
    (n.nu - 1) * (n.nv - 1) * (n.nw - 1)
}

pub fn site_number(n: Sides, p: Uvw) -> usize
    requires { SidesFit n × InBox n p }
    ensures { result ≡ site_of n p.u p.v p.w }
{
    p.u + n.nu * (p.v + n.nv * p.w)
}

pub fn coordinates(n: Sides, s: usize) -> Uvw
    requires { SidesFit n }
    ensures { result ≡ uvw_of n s }
{
    Uvw {
        u: s % n.nu,
        v: s / n.nu % n.nv,
        w: s / n.nu / n.nv,
    }
}

// A coordinate is 0 or the largest.
pub fn is_border(n: Sides, p: Uvw) -> bool
    requires { SidesFit n }
    ensures { result ≡ on_border n p.u p.v p.w }
{
    if at_end(p.u, n.nu) {
        return true;
    }
    if at_end(p.v, n.nv) {
        return true;
    }
    at_end(p.w, n.nw)
}

fn at_end(x: usize, n: usize) -> bool
    requires { 0 < n }
    ensures { result ≡ at_end x n }
{
    x == 0 || x == n - 1
}

// a - b, as a signed number.
fn signed_difference(a: usize, b: usize) -> i64
    requires { (a < 64) × (b < 64) }
    ensures { result ≡ pos a -ℤ pos b }
{
    (a as i64) - (b as i64)
}

// u U + v V + w W.
pub fn ijk_of(p: Uvw) -> Ijk
    requires { (p.u < 32) × (p.v < 32) × (p.w < 32) }
    ensures { result ≡ ijk_of p.u p.v p.w }
{
    let i = signed_difference(p.w, p.u + p.v);
    let j = signed_difference(p.u, p.v);
    let k = signed_difference(0, p.w);
    Ijk { i, j, k }
}

// The corner c of the cell above p, if it is in the box.
fn up(n: Sides, p: Uvw, c: usize) -> Option<usize>
    requires { SidesFit n × InBox n p × (c < 8) }
    ensures { result ≡ upward n p.u p.v p.w c }
{
    let u = p.u + c % 2;
    let v = p.v + c / 2 % 2;
    let w = p.w + c / 4 % 2;
    if u < n.nu && v < n.nv && w < n.nw {
        return Some(site_number(n, Uvw { u, v, w }));
    }
    None
}

// The site at the other end of an owned edge, if it is in the box, for a caller that has the coordinates at hand.
pub fn above(n: Sides, p: Uvw, label: usize) -> Option<usize>
    requires { SidesFit n × InBox n p × (label < 7) }
    ensures { result ≡ across_of n (site_of n p.u p.v p.w) label }
{
    let c = tables::label_corner(label);
    up(n, p, c)
}

// The site of whose cell p is the corner c, if it is in the box.
fn down(n: Sides, p: Uvw, c: usize) -> Option<usize>
    requires { SidesFit n × InBox n p × (c < 8) }
    ensures { result ≡ downward n p.u p.v p.w c }
{
    let du = c % 2;
    let dv = c / 2 % 2;
    let dw = c / 4 % 2;
    if du <= p.u && dv <= p.v && dw <= p.w {
        let u = p.u - du;
        let v = p.v - dv;
        let w = p.w - dw;
        return Some(site_number(n, Uvw { u, v, w }));
    }
    None
}

// The site at the other end of an edge, if it is in the box.
pub fn across(n: Sides, s: usize, label: usize) -> Option<usize>
    requires { SidesFit n × (s < sites n) × (label < 14) }
    ensures { result ≡ across_of n s label }
{
    let p = coordinates(n, s);
    if label < tables::OWNED_EDGES {
        let c = tables::label_corner(label);
        return up(n, p, c);
    }
    let c = tables::label_corner(label - tables::OWNED_EDGES);
    down(n, p, c)
}

// How far b is from a: 0 to 4 for -2 to 2, and 5 for all else: a number and no Option, since it is a row of the table below. No difference is taken that could
// overflow.
fn axis_gap(a: i64, b: i64) -> usize
    ensures { result ≡ gap (b -ℤ a) }
{
    if a == b {
        return 2;
    }
    if a < b {
        let c = b - 1;
        if a == c {
            return 3;
        }
        if a == c - 1 {
            return 4;
        }
        return 5;
    }
    let c = a - 1;
    if b == c {
        return 1;
    }
    if b == c - 1 {
        return 0;
    }
    5
}

// The label of the edge with these gaps on the three axes, x + 6 y + 36 z; 14 for none, which is past every label, as the gaps' 5 is past every gap.
const GAP_LABELS: [usize; 216] = [
    14, 14, 14, 14, 14, 14, 14, 14, 14, 14, 14, 14, 14, 14, 14, 14, 14, 14, 14, 14, 14, 14, 14, 14,
    14, 14, 14, 14, 14, 14, 14, 14, 14, 14, 14, 14, 14, 14, 14, 14, 14, 14, 14, 14, 5, 14, 14, 14,
    14, 4, 14, 6, 14, 14, 14, 14, 3, 14, 14, 14, 14, 14, 14, 14, 14, 14, 14, 14, 14, 14, 14, 14,
    14, 14, 14, 14, 14, 14, 14, 2, 14, 7, 14, 14, 1, 14, 14, 14, 8, 14, 14, 0, 14, 9, 14, 14, 14,
    14, 14, 14, 14, 14, 14, 14, 14, 14, 14, 14, 14, 14, 14, 14, 14, 14, 14, 14, 10, 14, 14, 14, 14,
    13, 14, 11, 14, 14, 14, 14, 12, 14, 14, 14, 14, 14, 14, 14, 14, 14, 14, 14, 14, 14, 14, 14, 14,
    14, 14, 14, 14, 14, 14, 14, 14, 14, 14, 14, 14, 14, 14, 14, 14, 14, 14, 14, 14, 14, 14, 14, 14,
    14, 14, 14, 14, 14, 14, 14, 14, 14, 14, 14, 14, 14, 14, 14, 14, 14, 14, 14, 14, 14, 14, 14, 14,
    14, 14, 14, 14, 14, 14, 14, 14, 14, 14, 14, 14, 14, 14, 14, 14, 14, 14, 14, 14, 14, 14, 14,
];

fn gap_label(x: usize, y: usize, z: usize) -> usize
    requires { (x < 6) × (y < 6) × (z < 6) }
    ensures { result ≡ gap_label x y z }
{
    GAP_LABELS[x + 6 * y + 36 * z]
}

// The owner of the edge from u to v, if there is one: the end from which the label is 0 to 6.
pub fn get_edge_owner(u: Ijk, v: Ijk) -> Option<EdgeOwner>
    ensures { result ≡ owner_of u v }
{
    let x = axis_gap(u.i, v.i);
    let y = axis_gap(u.j, v.j);
    let z = axis_gap(u.k, v.k);
    let e = gap_label(x, y, z);
    if e < tables::OWNED_EDGES {
        return Some(EdgeOwner {
            owner: u,
            other: v,
            label: e,
        });
    }
    if e < tables::EDGES {
        return Some(EdgeOwner {
            owner: v,
            other: u,
            label: e - tables::OWNED_EDGES,
        });
    }
    None
}
