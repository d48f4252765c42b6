// The bytes of volume_main: the words that it is given, and the volume of the mesh that a count file asks for, as text.
#![tactic(auto)]

ghost use Rattle.std.specs.Prelude.{◌≡◌, ◌+◌, ◌≤◌, ◌<◌, length};
ghost use Rattle.laws.specs.Written.{Written};
ghost use Rattle.volume.specs.Volume.{told};
ghost use Rattle.volume_file.specs.Words.{WordsOf};
ghost use Rattle.volume_file.specs.Text.{six_line, volume_line, volume_text, answer_text, scale_of, MeasuredAt};

use file_build::WorkSpace;
use volume::{Refusal, Whole};

// ---- the words

// How many digits, and the origin.
#[derive(Clone, Copy)]
pub struct Words {
    pub digits: usize,
    pub origin: Whole,
}

// The words, if they are such numbers. The digits are 0 to 6; the origin is three whole numbers of 64 bits, each with a minus where it is below 0, no plus and no
// needless zero.
pub fn read_words(digits: &[u8], x: &[u8], y: &[u8], z: &[u8]) -> Option<Words>
    ensures { WordsOf digits.now x.now y.now z.now result }
{
    let n = decimals::read_natural(digits)?;
    if 6 < n {
        return None;
    }
    let ox = decimals::read_signed(x)?;
    let oy = decimals::read_signed(y)?;
    let oz = decimals::read_signed(z)?;
    Some(Words {
        digits: n as usize,
        origin: Whole {
            x: ox,
            y: oy,
            z: oz,
        },
    })
}

// ---- the text

// The line of six times the volume, appended.
fn put_six(out: &mut [u8], at: usize, z: i64) -> usize
    requires { at + 26 ≤ length out.old }
    ensures { Written out.old at (six_line z) out.new result }
{
    let a = lines::put_text(out, at, b"six=");
    let b = decimals::put_sign(out, a, z);
    let n = units::size_of(z);
    let c = lines::put_dec(out, b, n);
    lines::put_text(out, c, b"\n")
}

// The line of the volume, appended.
fn put_volume(out: &mut [u8], at: usize, d: usize, z: i64) -> usize
    requires { (d < 7) × (at + 48 ≤ length out.old) }
    ensures { Written out.old at (volume_line d z) out.new result }
{
    let a = lines::put_text(out, at, b"volume=");
    let b = decimals::put_sign(out, a, z);
    let n = units::size_of(z) / 6;
    let c = decimals::put_decimal(out, b, 3 * d, n);
    lines::put_text(out, c, b"\n")
}

// The five lines, appended: they never take more than 161 bytes.
fn put_lines(out: &mut [u8], at: usize, d: usize, triangles: u64, z: i64) -> usize
    requires { (d < 7) × (at + 161 ≤ length out.old) }
    ensures { Written out.old at (volume_text d triangles z) out.new result }
{
    let n = units::size_of(z) % 6;
    let a = lines::put_status(out, at, 0);
    let b = lines::put_line(out, a, b"triangles=", triangles);
    let c = put_six(out, b, z);
    let e = put_volume(out, c, d, z);
    lines::put_line(out, e, b"sixths=", n)
}

// What is printed of an answer: five lines, or a refusal's one, at the front of `out`.
fn print(out: &mut [u8], d: usize, triangles: u64, v: Result<i64, Refusal>) -> usize
    requires { ((told v).status ≡ 0 → d < 7) × (161 ≤ length out.old) }
    ensures { Written out.old 0 (answer_text d triangles (told v)) out.new result }
{
    match v {
        Ok(six) => put_lines(out, 0, d, triangles, six),
        Err(refusal) => lines::put_status(out, 0, refusal.number() as u64),
    }
}

// ---- the work

// 10 to the power of each number of digits that is taken.
const SCALES: [f64; 7] = [1.0, 10.0, 100.0, 1000.0, 10000.0, 100000.0, 1000000.0];

// 10 to the power of d, or 0, which is no scale, where d is over 6.
fn scale_of(d: usize) -> f64
    ensures { result ≡ scale_of d }
{
    if d < SCALES.len() {
        return SCALES[d];
    }
    0.0
}

// The volume of the mesh that `input` asks for, put at the front of `out`, or the line `status=`: the count program's number where it would refuse, 13 where a
// corner is too far from the origin, 12 where there are more than 6 digits. What is returned is its length; the rest of `out` stays as it was.
pub fn volume_text(input: &[u8], digits: usize, origin: Whole, out: &mut [u8; 161]) -> usize
    ensures { MeasuredAt digits origin input.now out.old out.new result }
{
    let mut space = WorkSpace::new();
    let built = space.build(input);
    let answer = built.answer;
    let status = answer.status;
    if status != 0 {
        return lines::put_status(out, 0, status as u64);
    }
    let v = answer.vertices * 3;
    let t = answer.triangles * 3;
    let scale = scale_of(digits);
    let found = volume::volume_of(&space.positions[..v], &space.triangles[..t], scale, origin);
    print(out, digits, answer.triangles as u64, found)
}
