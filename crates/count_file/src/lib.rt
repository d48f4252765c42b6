// The count file: read from bytes; and the count program's answer, printed as bytes.
#![tactic(auto)]

ghost use Rattle.std.specs.Prelude.{◌+◌, ◌*◌, ◌≤◌, ◌<◌, length, SomeIff};
ghost use Rattle.laws.specs.Written.{Written};
ghost use Rattle.lines.specs.Lines.{lines};
ghost use Rattle.lines.specs.Inner.Stored.{RunOf};
ghost use Rattle.count_file.specs.CountFile.{body_form};
ghost use Rattle.count_file.specs.Parsed.{ParsedOf};
ghost use Rattle.count_file.specs.Inner.Heads.{ThresholdOf, FoundOf};
ghost use Rattle.count_file.specs.Answer.{count_form, answer_text};

use lines::Num;

// ---- the file

// A count file has at most so many sites.
pub const SITES: usize = 216;

// One byte more than a count file has at most (`file_longest`): a program that reads so many sees that a longer input is none, and need not wait for its end.
pub const ENOUGH: usize = 4346;

// The bits of 1.0e-9, the threshold of a file without the line `inside=`.
pub const INSIDE: u64 = 0x3E112E0BE826D695;

// What the header says: nu, nv, nw, method and rounds; the bits of the threshold, of the three origins, and of the three steps.
#[derive(Clone, Copy)]
pub struct Head {
    pub sizes: [u64; 5],
    pub inside: u64,
    pub origin: [u64; 3],
    pub steps: [u64; 3],
}

// The header, and where the samples start.
#[derive(Clone, Copy)]
struct Found {
    head: Head,
    next: usize,
}

// The bits of the threshold, and where the line after them starts.
#[derive(Clone, Copy)]
struct Threshold {
    bits: u64,
    next: usize,
}

// The line `inside=`, which may be left out.
fn read_inside(s: &[u8], at: usize) -> Threshold
    requires { at ≤ length s.now }
    ensures { ThresholdOf s.now at result }
{
    match lines::hex_line(s, at, b"inside=") {
        Some(Num { value, next }) => Threshold { bits: value, next },
        None => Threshold {
            bits: INSIDE,
            next: at,
        },
    }
}

// The header, where one stands at the front.
fn read_head(s: &[u8]) -> Option<Found>
    ensures { FoundOf s.now result }
{
    let mut sizes = [0u64; 5];
    let mid = lines::read_run(s, 0, 5, b"nu=nv=nw=method=rounds=", 5, &mut sizes)?;
    let threshold = read_inside(s, mid);
    let mut origin = [0u64; 3];
    let end = lines::read_run(
        s,
        threshold.next,
        0,
        b"origin0=origin1=origin2=",
        3,
        &mut origin,
    )?;
    let mut steps = [0u64; 3];
    let next = lines::read_run(s, end, 0, b"step0=step1=step2=", 3, &mut steps)?;
    let head = Head {
        sizes,
        inside: threshold.bits,
        origin,
        steps,
    };
    Some(Found { head, next })
}

// The lines of n samples, whose bits are stored in the first n places.
fn read_samples(s: &[u8], from: usize, n: usize, out: &mut [u64]) -> Option<usize>
    requires { (from ≤ length s.now) × (n ≤ length out.old) }
    ensures { RunOf (body_form n) s.now from n out.old out.new result }
{
    let mut at = from;
    for place in &mut out[..n] {
        let Num { value, next } = lines::hex_line(s, at, b"s=")?;
        *place = value;
        at = next;
    }
    Some(at)
}

// The number of sites, where it is from 1 to 216.
fn sites_of(nu: u64, nv: u64, nw: u64) -> Option<usize>
    requires { (nu < 1000000000) × (nv < 1000000000) }
    ensures { SomeIff result ((1 ≤ nu * nv * nw) × (nu * nv * nw ≤ 216)) (nu * nv * nw) }
{
    let n = (nu * nv).checked_mul(nw)?;
    if n == 0 {
        return None;
    }
    if 216 < n {
        return None;
    }
    Some(n as usize)
}

// What a count file says: its header, and the bits of each site's sample, zeros past the sites.
#[derive(Clone, Copy)]
pub struct Parsed {
    pub head: Head,
    pub sites: usize,
    pub samples: [u64; SITES],
}

// The whole file, where the input is a count file.
pub fn read_file(s: &[u8]) -> Option<Parsed>
    ensures { ParsedOf s.now result }
{
    let Found { head, next } = read_head(s)?;
    let sizes = head.sizes;
    let sites = sites_of(sizes[0], sizes[1], sizes[2])?;
    let mut samples = [0u64; SITES];
    let end = read_samples(s, next, sites, &mut samples)?;
    if end == s.len() {
        return Some(Parsed {
            head,
            sites,
            samples,
        });
    }
    None
}

// ---- the answer

// The lines of the eleven counts, appended.
fn put_counts(out: &mut [u8], at: usize, counts: [u64; 11]) -> usize
    requires { at + 323 ≤ length out.old }
    ensures { Written out.old at (lines count_form counts) out.new result }
{
    lines::put_run(
        out,
        at,
        b"sites=crossed=vertices=triangles=closed=multihole=flathole=multisurface=simple=split=rounds=",
        &counts,
    )
}

// The whole answer of a build that is done, appended: `status=0`, then sites, crossed edges, vertices, triangles, the five cases
// (closed, multihole, flathole, multisurface, simple), clusters split and rounds done. It never takes more than 351 bytes.
pub fn print_answer(out: &mut [u8], at: usize, counts: [u64; 11]) -> usize
    requires { at + 351 ≤ length out.old }
    ensures { Written out.old at (answer_text counts) out.new result }
{
    let next = lines::put_status(out, at, 0);
    put_counts(out, next, counts)
}
