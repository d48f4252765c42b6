// What a count file asks for: read, and built in lent lists.
#![tactic(auto)]

ghost use Rattle.std.specs.Prelude.{◌≡◌};
ghost use Rattle.build.specs.Answer.{lists, lengths_of};
ghost use Rattle.file_build.specs.Asked.{head_sides, point_of, head_frame, head_inside, floats_of, space_lists, blank, BuiltOf};

use build::Answer;
use count_file::{Head, Parsed};
use lattice::Sides;
use points::{Frame, Point};

// The sides of a header.
pub fn sides_of(head: Head) -> Sides
    ensures { result ≡ head_sides head }
{
    let sizes = head.sizes;
    Sides {
        nu: sizes[0] as usize,
        nv: sizes[1] as usize,
        nw: sizes[2] as usize,
    }
}

// The point of three floats' bits.
fn point_of(bits: [u64; 3]) -> Point
    ensures { result ≡ point_of bits }
{
    Point {
        x: points::float_of_bits(bits[0]),
        y: points::float_of_bits(bits[1]),
        z: points::float_of_bits(bits[2]),
    }
}

// The frame of a header.
fn head_frame(head: Head) -> Frame
    ensures { result ≡ head_frame head }
{
    let from = head.origin;
    let by = head.steps;
    points::frame_of(point_of(from), point_of(by))
}

// The threshold of a header.
pub fn inside_of(head: Head) -> f64
    ensures { result ≡ head_inside head }
{
    points::float_of_bits(head.inside)
}

// The floats of the samples' bits.
pub fn floats_of(bits: [u64; count_file::SITES]) -> [f64; count_file::SITES]
    ensures { result ≡ floats_of bits }
{
    bits.map(points::float_of_bits)
}

// What was read of an input, and what was built of it: where the input is no count file there is no `file`, and `answer` has status 8 and zeros.
#[derive(Clone, Copy)]
pub struct Built {
    pub file: Option<Parsed>,
    pub answer: Answer,
}

// The count file that is read, built in the six lists. Where the input is no count file, or is refused, they stay as they were.
pub fn build_file(
    input: &[u8],
    masks: &mut [u16],
    table: &mut [u32],
    positions: &mut [f64],
    book: &mut [u32],
    triangles: &mut [u32],
    edges: &mut [u32],
) -> Built
    ensures { BuiltOf input.now (lists masks.old table.old positions.old book.old triangles.old edges.old) (lists masks.new table.new positions.new book.new triangles.new edges.new) result }
{
    let Some(file) = count_file::read_file(input) else {
        return Built {
            file: None,
            answer: build::refused(8),
        };
    };
    let head = file.head;
    let frame = head_frame(head);
    let n = sides_of(head);
    let threshold = inside_of(head);
    let sizes = head.sizes;
    let method = sizes[3] as usize;
    let rounds = sizes[4] as usize;
    let samples = floats_of(file.samples);
    let answer = build::build(
        n,
        method,
        rounds,
        threshold,
        frame,
        &samples[..file.sites],
        masks,
        table,
        positions,
        book,
        triangles,
        edges,
    );
    Built {
        file: Some(file),
        answer,
    }
}

// ---- the work space

// Seven owned edges a site.
const TABLE: usize = 7 * count_file::SITES;

// Three vertices for two of these edges: three floats each, and a row of four words in the vertex book.
const VERTICES: usize = TABLE / 2 * 3;

const POSITIONS: usize = 3 * VERTICES;

const BOOK: usize = 4 * VERTICES;

// The words that a cell takes in the list of triangles, and in that of edges.
const TRIANGLES: usize = 36 * count_file::SITES;

const EDGES: usize = 108 * count_file::SITES;

// The six lists of a build, long enough for every count file.
#[derive(Drop)]
pub struct WorkSpace {
    pub masks: [u16; count_file::SITES],
    pub table: [u32; TABLE],
    pub positions: [f64; POSITIONS],
    pub book: [u32; BOOK],
    pub triangles: [u32; TRIANGLES],
    pub edges: [u32; EDGES],
}

impl WorkSpace {
    // Zeros all over.
    pub fn new() -> WorkSpace
        ensures { result ≡ blank }
    {
        WorkSpace {
            masks: [0; count_file::SITES],
            table: [0; TABLE],
            positions: [0.0; POSITIONS],
            book: [0; BOOK],
            triangles: [0; TRIANGLES],
            edges: [0; EDGES],
        }
    }

    // The count file that is read, built in these lists. Where the input is no count file, or is refused, they stay as they were.
    pub fn build(&mut self, input: &[u8]) -> Built
        ensures { BuiltOf input.now (space_lists self.old) (space_lists self.new) result }
    {
        build_file(
            input,
            &mut self.masks,
            &mut self.table,
            &mut self.positions,
            &mut self.book,
            &mut self.triangles,
            &mut self.edges,
        )
    }
}
