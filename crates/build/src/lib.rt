// The build: the door. It refuses what can't be done, by a number, and hands a granted request with the used parts of the six lent lists to the engine.
#![tactic(auto)]

ghost use Rattle.std.specs.Prelude.{◌≡◌};
ghost use Rattle.build.specs.Answer.{lists, refused_answer, BuildIn};
ghost use Rattle.build.specs.Inner.Grants.{made_answer, Grantable, Grants};

use engine::{Job, Made};
use lattice::Sides;
use points::Frame;
use refusals::Lengths;

// The counts are those of docs/SCOPE.md, S9.4, in the order in which they are printed.
// Not a Result: docs/SCOPE.md, S9.2 and S9.3, promises a number for each outcome and zero for all counts of a refusal, as `answer_of` says.
#[derive(Clone, Copy)]
pub struct Answer {
    pub status: usize,
    pub crossed: usize,
    pub vertices: usize,
    pub triangles: usize,
    pub closed: usize,
    pub multihole: usize,
    pub flathole: usize,
    pub multisurface: usize,
    pub simple: usize,
    pub split: usize,
    pub rounds: usize,
}

// What is answered where nothing was built.
pub fn refused(status: usize) -> Answer
    ensures { result ≡ refused_answer status }
{
    Answer {
        status,
        crossed: 0,
        vertices: 0,
        triangles: 0,
        closed: 0,
        multihole: 0,
        flathole: 0,
        multisurface: 0,
        simple: 0,
        split: 0,
        rounds: 0,
    }
}

fn counted(crossed: usize, made: Made) -> Answer
    ensures { result ≡ made_answer crossed made }
{
    let cases = made.cases;
    let vertices = made.stand.vertices;
    let triangles = made.stand.triangles;
    let split = made.split;
    let rounds = made.rounds;
    Answer {
        status: 0,
        crossed,
        vertices,
        triangles,
        closed: cases[0],
        multihole: cases[1],
        flathole: cases[2],
        multisurface: cases[3],
        simple: cases[4],
        split,
        rounds,
    }
}

// A granted request: the parts of the lists that are used, and the answer.
fn grant(
    job: Job,
    crossed: usize,
    samples: &[f64],
    masks: &mut [u16],
    table: &mut [u32],
    positions: &mut [f64],
    book: &mut [u32],
    tris: &mut [u32],
    edges: &mut [u32],
) -> Answer
    requires { Grantable job samples.now (lists masks.old table.old positions.old book.old tris.old edges.old) }
    ensures { Grants job samples.now crossed (lists masks.old table.old positions.old book.old tris.old edges.old) (lists masks.new table.new positions.new book.new tris.new edges.new) result }
{
    let k = lattice::site_count(job.sides);
    let c = lattice::cell_count(job.sides);
    let e = tables::OWNED_EDGES * k;
    let t = refusals::TRIANGLE_WORDS * c;
    let w = refusals::EDGE_WORDS * c;
    let made = engine::run(
        job,
        samples,
        &mut masks[..k],
        &mut table[..e],
        positions,
        book,
        &mut tris[..t],
        &mut edges[..w],
    );
    counted(crossed, made)
}

// The build, inside being below minus the threshold. Nothing is stored before all that can be refused is tested.
pub fn build(
    n: Sides,
    method: usize,
    rounds: usize,
    threshold: f64,
    frame: Frame,
    samples: &[f64],
    masks: &mut [u16],
    table: &mut [u32],
    positions: &mut [f64],
    book: &mut [u32],
    tris: &mut [u32],
    edges: &mut [u32],
) -> Answer
    ensures { BuildIn n method rounds threshold frame samples.now (lists masks.old table.old positions.old book.old tris.old edges.old) (lists masks.new table.new positions.new book.new tris.new edges.new) result }
{
    let lent = Lengths {
        masks: masks.len(),
        table: table.len(),
        vertices: positions.len(),
        book: book.len(),
        triangles: tris.len(),
        edges: edges.len(),
    };
    let crossed = match refusals::request(n, method, rounds, frame, samples, lent, threshold) {
        Ok(crossed) => crossed,
        Err(refusal) => return refused(refusal.number()),
    };
    let cluster = method == 1;
    let job = Job {
        frame,
        sides: n,
        cluster,
        rounds,
        threshold,
    };
    grant(
        job, crossed, samples, masks, table, positions, book, tris, edges,
    )
}
