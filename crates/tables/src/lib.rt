// The constant tables of the lattice's fourteen edges and of the march, each read by a function with an exact promise, and the neighbours of an edge, worked out.
// Every index is the caller's to keep in range: the callers are loops over the tables' own sizes, and a type for an index would be made at every turn.
#![tactic(auto)]

ghost use Rattle.std.specs.Prelude.{◌≡◌, map, suc, ◌≤◌, ◌<◌, length, get_or, pos, ◌-ℤ◌};
ghost use Rattle.std.specs.Int.Bits.{bit_and};
ghost use Rattle.laws.specs.Ints.{size_of};
ghost use Rattle.laws.specs.Triangles.{flat};
ghost use Rattle.tables.specs.Edges.{offset, minus, deltas, delta, among, reverse, are_neighbours, neighbour_mask, corner_of};
ghost use Rattle.tables.specs.Inner.Offsets.{Small};
ghost use Rattle.tables.specs.FlatHoles.{hole_cells, flat_holes, flat_hole};
ghost use Rattle.tables.specs.Tets.{tet_label, tet_corner, tet_pair, edge_in};
ghost use Rattle.tables.specs.Cases.{mt_row};

// The number of edges at a site, and of those that it owns.
pub const EDGES: usize = 14;

pub const OWNED_EDGES: usize = 7;

// All fourteen edges as a mask.
pub const ALL14_MASK: u16 = 0x3FFF;

pub const FLAT_HOLES: usize = 36;

pub const TETS: usize = 6;

#[derive(Clone, Copy)]
pub struct Delta {
    pub i: i8,
    pub j: i8,
    pub k: i8,
}

// The ijk offset from a site to the other end of each edge.
const EDGE_DELTAS: [[i8; 3]; 14] = [
    [-1, 1, 0],
    [-2, 0, 0],
    [-1, -1, 0],
    [0, 1, -1],
    [-1, 0, -1],
    [0, -1, -1],
    [1, 0, -1],
    [1, -1, 0],
    [2, 0, 0],
    [1, 1, 0],
    [0, -1, 1],
    [1, 0, 1],
    [0, 1, 1],
    [-1, 0, 1],
];

// A row as an offset.
fn offset_of(row: [i8; 3]) -> Delta
    ensures { result ≡ offset (get_or row 0 (pos 0)) (get_or row 1 (pos 0)) (get_or row 2 (pos 0)) }
{
    let [i, j, k] = row;
    Delta { i, j, k }
}

pub fn edge_delta(e: usize) -> Delta
    requires { e < 14 }
    ensures { result ≡ delta e }
{
    offset_of(EDGE_DELTAS[e])
}

// The label of each edge as its other end sees it.
const REVERSE_EDGE: [usize; 14] = [7, 8, 9, 10, 11, 12, 13, 0, 1, 2, 3, 4, 5, 6];

pub fn reverse_edge(e: usize) -> usize
    requires { e < 14 }
    ensures { result ≡ reverse e }
{
    REVERSE_EDGE[e]
}

// The size of a number without its sign, of the least one too.
fn size(x: i8) -> u8
    ensures { result ≡ size_of x }
{
    x.unsigned_abs()
}

// Whether an offset is a delta: the sizes on the three axes add up to 2, and neither the second nor the third is 2.
pub fn is_delta(d: Delta) -> bool
    ensures { result ≡ among d deltas }
{
    let i = size(d.i) as usize;
    let j = size(d.j) as usize;
    let k = size(d.k) as usize;
    i + j + k == 2 && j < 2 && k < 2
}

// a - b, for what is at most 2 on an axis.
fn apart(a: i8, b: i8) -> i8
    requires { (size_of a ≤ 2) × (size_of b ≤ 2) }
    ensures { result ≡ a -ℤ b }
{
    a - b
}

// Whether the difference of two deltas, axis by axis, is a delta.
fn differ_by_delta(d: Delta, g: Delta) -> bool
    requires { Small d × Small g }
    ensures { result ≡ among (minus d g) deltas }
{
    let i = apart(d.i, g.i);
    let j = apart(d.j, g.j);
    let k = apart(d.k, g.k);
    is_delta(Delta { i, j, k })
}

// Two edges are neighbours if the difference of their deltas is a delta.
pub fn are_neighbours(e: usize, f: usize) -> bool
    requires { (e < 14) × (f < 14) }
    ensures { result ≡ are_neighbours e f }
{
    differ_by_delta(edge_delta(e), edge_delta(f))
}

// The neighbours of e among the edges of a mask: each of them is asked as `are_neighbours` asks, with the rows read out once.
pub fn neighbours_in(e: usize, mask: u16) -> u16
    requires { e < 14 }
    ensures { result ≡ bit_and (neighbour_mask e) «mask» }
{
    let rows = EDGE_DELTAS;
    let d = offset_of(rows[e]);
    let mut left = mask & ALL14_MASK;
    let mut found: u16 = 0;
    while left != 0 {
        let f = u16::trailing_zeros(left) as usize;
        left &= left - 1;
        let g = offset_of(rows[f]);
        let near = differ_by_delta(d, g) as u16;
        found |= near << f;
    }
    found
}

// All neighbours of e (a row of the paper's Table 3).
pub fn neighbour_mask(e: usize) -> u16
    requires { e < 14 }
    ensures { result ≡ neighbour_mask e }
{
    neighbours_in(e, ALL14_MASK)
}

#[derive(Clone, Copy)]
pub struct FlatHole {
    pub edges: u16,
    pub opposite: u16,
}

// Pairs of edges without a near intersection, and the two edges between them (the paper's Table 4).
const FLAT_HOLE_MASKS: [[u16; 2]; 36] = [
    [0x0003, 0x2010],
    [0x0009, 0x0210],
    [0x0011, 0x000A],
    [0x0201, 0x1008],
    [0x1001, 0x2200],
    [0x2001, 0x1002],
    [0x0006, 0x2010],
    [0x0012, 0x0005],
    [0x2002, 0x0005],
    [0x0014, 0x0022],
    [0x0024, 0x0090],
    [0x0084, 0x0420],
    [0x0404, 0x2080],
    [0x2004, 0x0402],
    [0x0018, 0x0041],
    [0x0048, 0x0210],
    [0x0208, 0x0041],
    [0x0030, 0x0044],
    [0x0050, 0x0028],
    [0x0060, 0x0090],
    [0x00A0, 0x0044],
    [0x00C0, 0x0120],
    [0x0140, 0x0280],
    [0x0240, 0x0108],
    [0x0180, 0x0840],
    [0x0480, 0x0804],
    [0x0880, 0x0500],
    [0x0300, 0x0840],
    [0x0900, 0x0280],
    [0x0A00, 0x1100],
    [0x1200, 0x0801],
    [0x0C00, 0x2080],
    [0x2400, 0x0804],
    [0x1800, 0x2200],
    [0x2800, 0x1400],
    [0x3000, 0x0801],
];

// All rows, for a caller that goes through them: they are written out once, and not once for each.
pub fn flat_hole_rows() -> [[u16; 2]; 36]
    ensures { result ≡ map hole_cells flat_holes }
{
    FLAT_HOLE_MASKS
}

pub fn flat_hole(i: usize) -> FlatHole
    requires { i < 36 }
    ensures { result ≡ flat_hole i }
{
    let rows = flat_hole_rows();
    let [edges, opposite] = rows[i];
    FlatHole { edges, opposite }
}

// The corner of the cell to which each owned edge leads, du + 2 dv + 4 dw: label 0 in the lowest digit. It is one number and no table, since a table of
// constants is written out wherever it is read, and this is read for every edge of a box.
const LABEL_CORNERS: usize = 0x0467_5231;

pub fn label_corner(label: usize) -> usize
    requires { label < 7 }
    ensures { result ≡ corner_of label }
{
    (LABEL_CORNERS >> (4 * label)) % 8
}

// The six tetrahedra that a site owns: the labels of the edges to their other three corners.
const OWNED_TET_EDGES: [u8; 18] = [0, 4, 1, 0, 3, 4, 3, 6, 4, 1, 4, 2, 2, 4, 5, 4, 6, 5];

pub fn tet_label(tet: usize, corner: usize) -> usize
    requires { (tet < 6) × (corner < 3) }
    ensures { result ≡ tet_label tet corner }
{
    OWNED_TET_EDGES[3 * tet + corner] as usize
}

// The corners of the cell at the other ends of those edges.
const TET_CORNERS: [u8; 18] = [1, 7, 3, 1, 5, 7, 5, 4, 7, 3, 7, 2, 2, 7, 6, 7, 4, 6];

pub fn tet_corner(tet: usize, corner: usize) -> usize
    requires { (tet < 6) × (corner < 3) }
    ensures { result ≡ tet_corner tet (suc corner) }
{
    TET_CORNERS[3 * tet + corner] as usize
}

#[derive(Clone, Copy)]
pub struct Ends {
    pub from: usize,
    pub to: usize,
}

// The edges of a tetrahedron, as pairs of its corners.
const TET_EDGE_PAIRS: [[usize; 2]; 6] = [[0, 1], [0, 2], [0, 3], [1, 2], [1, 3], [2, 3]];

pub fn tet_edge_pair(edge: usize) -> Ends
    requires { edge < 6 }
    ensures { result ≡ tet_pair edge }
{
    let [from, to] = TET_EDGE_PAIRS[edge];
    Ends { from, to }
}

// The edges of each tetrahedron by their owners: 7 times the owner's corner of the cell, and the owner's label.
const TET_SLOTS: [u8; 36] = [
    0, 4, 1, 12, 9, 27, 0, 3, 4, 13, 12, 37, 3, 6, 4, 28, 37, 29, 1, 4, 2, 27, 14, 17, 2, 4, 5, 17,
    20, 42, 4, 6, 5, 29, 42, 30,
];

pub fn tet_slot(tet: usize, edge: usize) -> usize
    requires { (tet < 6) × (edge < 6) }
    ensures { result ≡ edge_in tet edge }
{
    TET_SLOTS[6 * tet + edge] as usize
}

// The triangles of each case of a tetrahedron, whose corners are edges of it: how many, and their corners one after the other.
const MT_COUNTS: [u8; 16] = [0, 1, 1, 2, 1, 2, 2, 1, 1, 2, 2, 1, 2, 1, 1, 0];

const MT_TABLE: [[u8; 6]; 16] = [
    [0, 0, 0, 0, 0, 0],
    [0, 1, 2, 0, 0, 0],
    [0, 4, 3, 0, 0, 0],
    [3, 1, 2, 3, 2, 4],
    [1, 3, 5, 0, 0, 0],
    [5, 2, 0, 5, 0, 3],
    [5, 1, 0, 5, 0, 4],
    [2, 4, 5, 0, 0, 0],
    [2, 5, 4, 0, 0, 0],
    [4, 0, 1, 4, 1, 5],
    [3, 0, 2, 3, 2, 5],
    [1, 5, 3, 0, 0, 0],
    [4, 2, 1, 4, 1, 3],
    [0, 3, 4, 0, 0, 0],
    [0, 2, 1, 0, 0, 0],
    [0, 0, 0, 0, 0, 0],
];

pub fn mt_count(case: usize) -> usize
    requires { case < 16 }
    ensures { result ≡ length (mt_row case) }
{
    MT_COUNTS[case] as usize
}

pub fn mt_edge(case: usize, at: usize) -> usize
    requires { (case < 16) × (at < 6) }
    ensures { result ≡ get_or (flat (mt_row case)) at 0 }
{
    MT_TABLE[case][at] as usize
}
