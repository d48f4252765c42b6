// The door of a build: which number a request gets before anything is stored. Every size, every length and every bit pattern is taken.
// A function with a `requires` is called here, once what it asks has been tested.
#![tactic(auto)]

ghost use Rattle.std.specs.Prelude.{◌≡◌, ◌*◌, ◌/◌, ◌≤◌};
ghost use Rattle.lattice.specs.Sites.{SidesFit, cells};
ghost use Rattle.refusals.specs.Refusals.{settings_ok, inside_ok, site_room, vertex_room, cell_room, number, reply, request_of};

use lattice::Sides;
use points::Frame;

// Words a cell: of the triangle list, room for twelve triangles, and of the edge list.
pub const TRIANGLE_WORDS: usize = 36;

pub const EDGE_WORDS: usize = 108;

// How long the six lent lists are.
#[derive(Clone, Copy)]
pub struct Lengths {
    pub masks: usize,
    pub table: usize,
    pub vertices: usize,
    pub book: usize,
    pub triangles: usize,
    pub edges: usize,
}

// Why a request is refused, with the numbers of docs/SCOPE.md, S9.2.
#[derive(Clone, Copy, Debug, PartialEq, Eq)]
pub enum Refusal {
    Settings = 1,
    Sides = 2,
    SampleCount = 3,
    Frame = 4,
    Threshold = 14,
    SiteRoom = 5,
    VertexRoom = 6,
    CellRoom = 7,
}

impl Refusal {
    #[tactic(auto, unfolding(crate::specs::Refusals::number))]
    pub fn number(self) -> usize
        ensures { result ≡ number self }
    {
        self as usize
    }
}

// The method and the rounds come as numbers, from C and from files, and every number may come: they are tested here, and are a truth value and a count behind it.
fn settings_ok(method: usize, rounds: usize) -> bool
    ensures { result ≡ settings_ok method rounds }
{
    method <= 1 && rounds <= 4
}

// The thresholds that a build takes: 0 to 1. A NaN is neither.
fn inside_ok(h: f64) -> bool
    ensures { result ≡ inside_ok h }
{
    0.0 <= h && h <= 1.0
}

// Masks and edge table.
fn site_room(sites: usize, lent: Lengths) -> bool
    requires { sites ≤ 32768 }
    ensures { result ≡ site_room sites lent }
{
    sites <= lent.masks && tables::OWNED_EDGES * sites <= lent.table
}

// Vertices and vertex book.
fn vertex_room(crossed: usize, lent: Lengths) -> bool
    requires { crossed ≤ 229376 }
    ensures { result ≡ vertex_room (3 * crossed / 2) lent }
{
    let most = 3 * crossed / 2;
    3 * most <= lent.vertices && 4 * most <= lent.book
}

// Triangles and edge list.
fn cell_room(n: Sides, lent: Lengths) -> bool
    requires { SidesFit n }
    ensures { result ≡ cell_room (cells n) lent }
{
    let cells = lattice::cell_count(n);
    TRIANGLE_WORDS * cells <= lent.triangles && EDGE_WORDS * cells <= lent.edges
}

// E, where nothing is refused; the first test that fails says why. The sides are tested before they are multiplied, and the edges are counted once.
pub fn request(
    n: Sides,
    method: usize,
    rounds: usize,
    frame: Frame,
    samples: &[f64],
    lent: Lengths,
    h: f64,
) -> Result<usize, Refusal>
    ensures { reply result ≡ request_of n method rounds frame samples.now lent h }
{
    if !settings_ok(method, rounds) {
        return Err(Refusal::Settings);
    }
    if !lattice::sides_ok(n) {
        return Err(Refusal::Sides);
    }
    let sites = lattice::site_count(n);
    if samples.len() != sites {
        return Err(Refusal::SampleCount);
    }
    if !points::frame_ok(frame) {
        return Err(Refusal::Frame);
    }
    if !inside_ok(h) {
        return Err(Refusal::Threshold);
    }
    if !site_room(sites, lent) {
        return Err(Refusal::SiteRoom);
    }
    let crossed = marks::count_crossed(n, samples, h);
    if !vertex_room(crossed, lent) {
        return Err(Refusal::VertexRoom);
    }
    if !cell_room(n, lent) {
        return Err(Refusal::CellRoom);
    }
    Ok(crossed)
}
