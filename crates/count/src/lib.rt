// The count program's work: a count file read and built, and the bytes of the answer.
#![tactic(auto)]

ghost use Rattle.std.specs.Prelude.{◌≡◌, ◌∷◌, ◌≤◌, length};
ghost use Rattle.laws.specs.Written.{Written};
ghost use Rattle.build.specs.Answer.{counts_of};
ghost use Rattle.count.specs.Count.{printed, Answered};

use build::Answer;
use file_build::WorkSpace;

// The room for an answer: none takes more.
pub const ROOM: usize = 351;

// The eleven counts in the order in which they are printed.
fn counts_of(k: usize, a: Answer) -> [u64; 11]
    ensures { result ≡ k ∷ counts_of a }
{
    [
        k as u64,
        a.crossed as u64,
        a.vertices as u64,
        a.triangles as u64,
        a.closed as u64,
        a.multihole as u64,
        a.flathole as u64,
        a.multisurface as u64,
        a.simple as u64,
        a.split as u64,
        a.rounds as u64,
    ]
}

// The answer of a build over k sites, as text, put at the front of `out`. It never takes more than 351 bytes.
pub fn print(out: &mut [u8], k: usize, a: Answer) -> usize
    requires { 351 ≤ length out.old }
    ensures { Written out.old 0 (printed k a) out.new result }
{
    let status = a.status as u64;
    if status != 0 {
        return lines::put_status(out, 0, status);
    }
    let counts = counts_of(k, a);
    count_file::print_answer(out, 0, counts)
}

// The answer to `input`, put at the front of `out`; what is returned is its length. The rest of `out` stays as it was.
pub fn count_text(input: &[u8], out: &mut [u8; ROOM]) -> usize
    ensures { Answered input.now out.old out.new result }
{
    let mut space = WorkSpace::new();
    let built = space.build(input);
    let sites = built.file.map_or(0, |file| file.sites);
    print(out, sites, built.answer)
}
