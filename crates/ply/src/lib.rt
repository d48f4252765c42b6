// PLY files of our kind (docs/SCOPE.md, S11), read.
#![tactic(auto)]

ghost use Rattle.std.specs.Prelude.{◌≡◌, ◌+◌, ◌*◌, ◌≤◌, ◌<◌, length};
ghost use Rattle.laws.specs.Bools.{Tells};
ghost use Rattle.laws.specs.Written.{Written};
ghost use Rattle.ply.specs.Answers.{number_of, SizesOf, ReadOf};
ghost use Rattle.ply.specs.Inner.Parts.{HeadOf, words_in, face_at, faces_in, FaceFit, FacesFit, LookOf, FindOf};

// Why a file is not read: it begins with no header of this kind, its body is not what the header says, or the lists are too short.
#[derive(Clone, Copy, PartialEq, Eq, Debug)]
pub enum Refusal {
    NoHeader,
    NoBody,
    NoRoom,
}

impl Refusal {
    // The number that C is told.
    pub fn number(self) -> usize
        ensures { result ≡ number_of self }
    {
        match self {
            Refusal::NoHeader => 9,
            Refusal::NoBody => 10,
            Refusal::NoRoom => 11,
        }
    }
}

// The numbers of a header, and where the body starts.
#[derive(Clone, Copy)]
struct Head {
    vertices: u64,
    faces: u64,
    next: usize,
}

fn read_head(s: &[u8]) -> Option<Head>
    ensures { HeadOf s.now result }
{
    let vertices = lines::dec_line(
        s,
        0,
        b"ply\nformat binary_little_endian 1.0\nelement vertex ",
    )?;
    let faces = lines::dec_line(
        s,
        vertices.next,
        b"property double x\nproperty double y\nproperty double z\nelement face ",
    )?;
    if lines::has(
        s,
        faces.next,
        b"property list uchar int vertex_indices\nend_header\n",
    ) {
        return Some(Head {
            vertices: vertices.value,
            faces: faces.value,
            next: faces.next + 50,
        });
    }
    None
}

// Whether a face of three vertices below v stands at p.
fn face_fits(s: &[u8], p: usize, v: usize) -> bool
    requires { p + 13 ≤ length s.now }
    ensures { Tells (FaceFit s.now p v) result }
{
    s[p] == 3
        && mesh::index(little_endian::get4(s, p + 1)) < v
        && mesh::index(little_endian::get4(s, p + 5)) < v
        && mesh::index(little_endian::get4(s, p + 9)) < v
}

// Whether n such faces do.
fn faces_fit(s: &[u8], at: usize, n: usize, v: usize) -> bool
    requires { at + n * 13 ≤ length s.now }
    ensures { Tells (FacesFit s.now at n v) result }
{
    for k in 0..n {
        if !face_fits(s, at + k * 13, v) {
            return false;
        }
    }
    true
}

// How many vertices and faces a file has.
#[derive(Clone, Copy, PartialEq, Eq, Debug)]
pub struct Counts {
    pub vertices: usize,
    pub faces: usize,
}

// What a file is found to be before anything is stored: its counts and where its body starts.
#[derive(Clone, Copy)]
struct Found {
    counts: Counts,
    next: usize,
}

fn look(s: &[u8]) -> Result<Found, Refusal>
    ensures { LookOf s.now result }
{
    let Some(head) = read_head(s) else {
        return Err(Refusal::NoHeader);
    };
    let vertices = head.vertices as usize;
    let faces = head.faces as usize;
    let words = vertices * 24;
    if s.len() - head.next != words + faces * 13 {
        return Err(Refusal::NoBody);
    }
    if !faces_fit(s, head.next + words, faces, vertices) {
        return Err(Refusal::NoBody);
    }
    Ok(Found {
        counts: Counts { vertices, faces },
        next: head.next,
    })
}

// How many vertices and faces the file has, so that a reader knows how much room to lend; nothing is stored.
pub fn sizes(file: &[u8]) -> Result<Counts, Refusal>
    ensures { SizesOf file.now result }
{
    Ok(look(file)?.counts)
}

// n words from `at` on, put at the front.
fn get_words(s: &[u8], at: usize, n: usize, words: &mut [u64]) -> usize
    requires { (at + n * 8 ≤ length s.now) × (n ≤ length words.old) }
    ensures { Written words.old 0 (words_in s.now at n) words.new result }
{
    for k in 0..n {
        words[k] = little_endian::get8(s, at + k * 8);
    }
    n
}

// The indices of the face at p, appended.
fn get_face(s: &[u8], p: usize, triangles: &mut [u32], at: usize) -> usize
    requires { (p + 13 ≤ length s.now) × (at + 3 ≤ length triangles.old) }
    ensures { Written triangles.old at (face_at s.now p) triangles.new result }
{
    triangles[at] = little_endian::get4(s, p + 1);
    triangles[at + 1] = little_endian::get4(s, p + 5);
    triangles[at + 2] = little_endian::get4(s, p + 9);
    at + 3
}

// n faces from `at` on, their indices put at the front.
fn get_faces(s: &[u8], at: usize, n: usize, triangles: &mut [u32]) -> usize
    requires { (at + n * 13 ≤ length s.now) × (n * 3 ≤ length triangles.old) }
    ensures { Written triangles.old 0 (faces_in s.now at n) triangles.new result }
{
    let mut next = 0usize;
    for k in 0..n {
        next = get_face(s, at + k * 13, triangles, next);
    }
    next
}

// What is found where there is room for so many words and indices.
fn find(file: &[u8], words: usize, triangles: usize) -> Result<Found, Refusal>
    ensures { FindOf file.now words triangles result }
{
    let found = look(file)?;
    let counts = found.counts;
    if words < counts.vertices * 3 || triangles < counts.faces * 3 {
        return Err(Refusal::NoRoom);
    }
    Ok(found)
}

// The words and the indices of the file, put at the fronts of the two lists; what stands behind them stays as it was.
// Nothing is stored where it is refused.
pub fn read(file: &[u8], words: &mut [u64], triangles: &mut [u32]) -> Result<Counts, Refusal>
    ensures { ReadOf file.now words.old triangles.old words.new triangles.new result }
{
    let found = find(file, words.len(), triangles.len())?;
    let counts = found.counts;
    get_words(file, found.next, counts.vertices * 3, words);
    get_faces(
        file,
        found.next + counts.vertices * 24,
        counts.faces,
        triangles,
    );
    Ok(counts)
}
