// PLY files of our kind (docs/SCOPE.md, S11), written.
#![tactic(auto)]

ghost use Rattle.std.specs.Prelude.{◌≡◌, ℕ, ◌+◌, ◌*◌, ◌/◌, ◌^◌, ◌≤◌, ◌<◌, length, map};
ghost use Rattle.std.specs.Float.{binary64};
ghost use Rattle.std.specs.Float.Ieee.{to_bits};
ghost use Rattle.laws.specs.Bools.{Tells};
ghost use Rattle.laws.specs.Lists.{All};
ghost use Rattle.laws.specs.Written.{Written};
ghost use Rattle.lines.specs.Numbers.{dec};
ghost use Rattle.lines.specs.Lines.{Small};
ghost use Rattle.ply_write.specs.Form.{head_text, words_text, face_text, faces_text, size_of, Fits};
ghost use Rattle.ply_write.specs.Answers.{file_length, bits_of, number_of, WriteOf};
ghost use Rattle.ply_write.specs.Inner.Begin.{BeginOf};

// A coordinate as the 64 bits that are written of it.
trait Word: Copy {
    ghost bits: { Self → ℕ };

    fn word(self) -> u64
        ensures { result ≡ bits self };
}

impl Word for u64 {
    ghost bits = { λ w. w };

    fn word(self) -> u64 {
        self
    }
}

impl Word for f64 {
    ghost bits = { λ x. to_bits binary64 x };

    fn word(self) -> u64 {
        points::bits_of_float(self)
    }
}

// The words' bytes, appended.
fn put_words<W: Word>(out: &mut [u8], at: usize, words: &[W]) -> usize
    requires { at + length words.now * 8 ≤ length out.old }
    ensures written { Written out.old at (words_text (map W.bits words.now)) out.new result }
    ensures small { All (λ w. w < 2 ^ 64) (map W.bits words.now) }
{
    let mut next = at;
    for w in words {
        next = little_endian::put8(out, next, w.word());
    }
    next
}

// A face, appended.
fn put_face(out: &mut [u8], at: usize, a: u32, b: u32, c: u32) -> usize
    requires { at + 13 ≤ length out.old }
    ensures { Written out.old at (face_text a b c) out.new result }
{
    out[at] = 3;
    let x = little_endian::put4(out, at + 1, little_endian::wider(a));
    let y = little_endian::put4(out, x, little_endian::wider(b));
    little_endian::put4(out, y, little_endian::wider(c))
}

// The faces, appended.
fn put_faces(out: &mut [u8], at: usize, triangles: &[u32]) -> usize
    requires { at + length triangles.now / 3 * 13 ≤ length out.old }
    ensures { Written out.old at (faces_text triangles.now) out.new result }
{
    let (faces, _) = triangles.as_chunks::<3>();
    let mut next = at;
    for [a, b, c] in faces {
        next = put_face(out, next, *a, *b, *c);
    }
    next
}

// The header, put at the front.
fn put_head(out: &mut [u8], v: u64, f: u64) -> usize
    requires { length (head_text v f) ≤ length out.old }
    ensures { Written out.old 0 (head_text v f) out.new result }
{
    let a = lines::put_line(
        out,
        0,
        b"ply\nformat binary_little_endian 1.0\nelement vertex ",
        v,
    );
    let b = lines::put_line(
        out,
        a,
        b"property double x\nproperty double y\nproperty double z\nelement face ",
        f,
    );
    let c = lines::put_text(out, b, b"property list uchar int vertex_indices\n");
    lines::put_text(out, c, b"end_header\n")
}

// How many digits n has.
fn digits(n: u64) -> usize
    ensures { (result ≡ length (dec n)) × (result ≤ 20) }
{
    n.max(1).ilog10() as usize + 1
}

// How long the file of v vertices and f faces is.
fn size(v: u64, f: u64) -> usize
    requires { Small v × Small f }
    ensures { result ≡ size_of v f }
{
    let head = 170 + digits(v) + digits(f);
    head + (v * 24 + f * 13) as usize
}

// How long the file of so many vertices and faces is; 0 where one of them is over 999,999,999 and there is no such file.
// C takes this number as it is, 0 with it (`file_length`), so it is no Option.
pub fn length_of(vertices: usize, faces: usize) -> usize
    ensures { result ≡ file_length vertices faces }
{
    if vertices < 1_000_000_000 && faces < 1_000_000_000 {
        return size(vertices as u64, faces as u64);
    }
    0
}

// Whether n coordinates and the triangles are those of a file.
fn fit(n: usize, triangles: &[u32]) -> bool
    ensures { Tells (Fits n triangles.now) result }
{
    let v = n / 3;
    n % 3 == 0
        && triangles.len() % 3 == 0
        && v < 1_000_000_000
        && triangles.len() / 3 < 1_000_000_000
        && mesh::named(triangles, v)
}

// Why nothing is written: the lists are not in whole threes, have over 999,999,999 vertices or faces, or an index that is no vertex;
// or the room is too short.
#[derive(Clone, Copy, PartialEq, Eq, Debug)]
pub enum Refusal {
    Unfit,
    NoRoom,
}

impl Refusal {
    // The number that C is told.
    pub fn number(self) -> usize
        ensures { result ≡ number_of self }
    {
        match self {
            Refusal::Unfit => 10,
            Refusal::NoRoom => 11,
        }
    }
}

// The header of a file of n coordinates and the triangles, put at the front of `out`, where the whole file has room; its end.
fn begin(n: usize, triangles: &[u32], out: &mut [u8]) -> Result<usize, Refusal>
    ensures { BeginOf n triangles.now out.old out.new result }
{
    if !fit(n, triangles) {
        return Err(Refusal::Unfit);
    }
    let v = (n / 3) as u64;
    let f = (triangles.len() / 3) as u64;
    if out.len() < size(v, f) {
        return Err(Refusal::NoRoom);
    }
    Ok(put_head(out, v, f))
}

// The file of coordinates of either kind.
fn write_file<W: Word>(words: &[W], triangles: &[u32], out: &mut [u8]) -> Result<usize, Refusal>
    ensures { WriteOf (map W.bits words.now) triangles.now out.old out.new result }
{
    let a = begin(words.len(), triangles, out)?;
    let b = put_words(out, a, words);
    Ok(put_faces(out, b, triangles))
}

// The file of the words and the triangles, put at the front of `out`, and how long it is; the rest of `out` stays as it was.
// Nothing is stored where it is refused.
pub fn write(words: &[u64], triangles: &[u32], out: &mut [u8]) -> Result<usize, Refusal>
    ensures { WriteOf words.now triangles.now out.old out.new result }
{
    write_file(words, triangles, out)
}

// The file of a mesh whose coordinates are floats: `write` of their bits.
pub fn write_mesh(positions: &[f64], triangles: &[u32], out: &mut [u8]) -> Result<usize, Refusal>
    ensures { WriteOf (bits_of positions.now) triangles.now out.old out.new result }
{
    write_file(positions, triangles, out)
}
