// The engine: everything after a granted request. Samples to masks, vertices and triangles, in the used parts of six lent lists.
#![tactic(auto)]

ghost use Rattle.vertex_pass.specs.Inner.Passing.{flag_of};
ghost use Rattle.engine.specs.Engine.{work, Handed, Ran};
ghost use Rattle.engine.specs.Inner.Standing.{Lent, Roomy, Parting, Paired, Placed, Stood, TurnedAll, SettledAll, Finished};

use lattice::Sides;
use points::Frame;

// What is asked for, all but the samples. Inside is below the negative of the threshold.
#[derive(Clone, Copy)]
pub struct Job {
    pub frame: Frame,
    pub sides: Sides,
    pub cluster: bool,
    pub rounds: usize,
    pub threshold: f64,
}

// How many vertices and triangles stand in the lists.
#[derive(Clone, Copy)]
pub struct Stand {
    pub vertices: usize,
    pub triangles: usize,
}

// After a vertex pass and its march.
#[derive(Clone, Copy)]
pub struct Drawn {
    pub stand: Stand,
    pub split: usize,
    pub cases: [usize; 6],
}

// What every stage reads. The lists that it fills, and the room, stay parameters: where a field behind a `&mut` is lent as a `&`, no fact says what it holds afterwards.
#[derive(Clone, Copy)]
struct Source<'a> {
    job: Job,
    samples: &'a [f64],
    masks: &'a [u16],
}

#[derive(Clone, Copy)]
pub struct Rolled {
    pub stand: Stand,
    pub rounds: usize,
}

// What was made: the cases of the sites by their numbers.
#[derive(Clone, Copy)]
pub struct Made {
    pub stand: Stand,
    pub split: usize,
    pub rounds: usize,
    pub cases: [usize; 6],
}

impl Source<'_> {
    // A vertex pass, and the march over its table.
    fn draw(
        self,
        table: &mut [u32],
        positions: &mut [f64],
        book: &mut [u32],
        tris: &mut [u32],
        flags: &[u32],
    ) -> Drawn
        requires { Lent self.job self.samples.now self.masks.now (work table.old positions.old book.old tris.old) × Paired self.job self.samples.now (flag_of flags.now) }
        ensures { Placed self.entry.job self.entry.samples.now (flag_of flags.now) (work table.old positions.old book.old tris.old) result (work table.new positions.new book.new tris.new) }
    {
        let n = self.job.sides;
        let h = self.job.threshold;
        let walk = vertex_pass::draw_box(
            self.job.frame,
            n,
            self.samples,
            self.masks,
            table,
            positions,
            book,
            flags,
            self.job.cluster,
            h,
        );
        let triangles = march::march_box(self.samples, table, tris, n, h);
        let vertices = walk.pass.next;
        let split = walk.pass.split;
        let cases = walk.cases;
        Drawn {
            stand: Stand {
                vertices,
                triangles,
            },
            split,
            cases,
        }
    }

    // One round, if there is one: where a site owns a live cluster vertex in a triangle on a crowded pair, those vertices are rolled back and the mesh is made afresh.
    fn one_round(
        self,
        table: &mut [u32],
        positions: &mut [f64],
        book: &mut [u32],
        tris: &mut [u32],
        room: &mut [u32],
        at: Stand,
        number: u32,
    ) -> Option<Stand>
        requires { Roomy self.job self.samples.now self.masks.now (work table.old positions.old book.old tris.old) room.old × Stood self.job self.samples.now at (work table.old positions.old book.old tris.old) }
        ensures { TurnedAll self.entry.job self.entry.samples.now at (work table.old positions.old book.old tris.old) number result (work table.new positions.new book.new tris.new) }
    {
        let n = self.job.sides;
        let a = refusals::TRIANGLE_WORDS * lattice::cell_count(n);
        let w = 3 * at.triangles;
        let more = crowded::flag_owners(
            &tris[..w],
            book,
            room,
            a,
            table.len() / tables::OWNED_EDGES,
            at.vertices,
        );
        if !more {
            return None;
        }
        let vertices = rollback::roll_back(
            self.job.frame,
            n,
            self.samples,
            self.masks,
            table,
            positions,
            book,
            &room[a..],
            at.vertices,
            number,
        );
        let triangles = march::march_box(self.samples, table, tris, n, self.job.threshold);
        Some(Stand {
            vertices,
            triangles,
        })
    }

    // Rounds until there is none, at most as many as the job has.
    fn settle(
        self,
        table: &mut [u32],
        positions: &mut [f64],
        book: &mut [u32],
        tris: &mut [u32],
        room: &mut [u32],
        at: Stand,
    ) -> Rolled
        requires { Roomy self.job self.samples.now self.masks.now (work table.old positions.old book.old tris.old) room.old × Stood self.job self.samples.now at (work table.old positions.old book.old tris.old) }
        ensures { SettledAll self.entry.job self.entry.samples.now at (work table.old positions.old book.old tris.old) result (work table.new positions.new book.new tris.new) }
    {
        let mut stand = at;
        for round in 0..self.job.rounds {
            let turned = self.one_round(
                table,
                positions,
                book,
                tris,
                room,
                stand,
                round as u32 + 1,
            );
            match turned {
                None => return Rolled {
                    stand,
                    rounds: round,
                },
                Some(next) => stand = next,
            }
        }
        Rolled {
            stand,
            rounds: self.job.rounds,
        }
    }

    // The split, by the flags of the candidates from word 36C on, and the rounds.
    fn remake(
        self,
        table: &mut [u32],
        positions: &mut [f64],
        book: &mut [u32],
        tris: &mut [u32],
        room: &mut [u32],
    ) -> Made
        requires { Roomy self.job self.samples.now self.masks.now (work table.old positions.old book.old tris.old) room.old × Parting self.job self.samples.now room.old }
        ensures { Finished self.entry.job self.entry.samples.now (work table.old positions.old book.old tris.old) result (work table.new positions.new book.new tris.new) }
    {
        let a = refusals::TRIANGLE_WORDS * lattice::cell_count(self.job.sides);
        let drawn = self.draw(table, positions, book, tris, &room[a..]);
        let at = drawn.stand;
        let rolled = self.settle(table, positions, book, tris, room, at);
        let stand = rolled.stand;
        let rounds = rolled.rounds;
        let split = drawn.split;
        let cases = drawn.cases;
        Made {
            stand,
            split,
            rounds,
            cases,
        }
    }

    // The candidates; where a pair is crowded, all once more.
    fn make(
        self,
        table: &mut [u32],
        positions: &mut [f64],
        book: &mut [u32],
        tris: &mut [u32],
        room: &mut [u32],
    ) -> Made
        requires { Roomy self.job self.samples.now self.masks.now (work table.old positions.old book.old tris.old) room.old }
        ensures { Finished self.entry.job self.entry.samples.now (work table.old positions.old book.old tris.old) result (work table.new positions.new book.new tris.new) }
    {
        let a = refusals::TRIANGLE_WORDS * lattice::cell_count(self.job.sides);
        let drawn = self.draw(table, positions, book, tris, &room[..0]);
        let stand = drawn.stand;
        let w = 3 * stand.triangles;
        if crowded::flag_ends(&tris[..w], room, a, stand.vertices) {
            return self.remake(table, positions, book, tris, room);
        }
        let cases = drawn.cases;
        Made {
            stand,
            split: 0,
            rounds: 0,
            cases,
        }
    }
}

// The masks, then all else; the edge list is left empty.
pub fn run(
    job: Job,
    samples: &[f64],
    masks: &mut [u16],
    table: &mut [u32],
    positions: &mut [f64],
    book: &mut [u32],
    tris: &mut [u32],
    room: &mut [u32],
) -> Made
    requires { Handed job samples.now masks.old (work table.old positions.old book.old tris.old) room.old }
    ensures { Ran job samples.now (work table.old positions.old book.old tris.old) result masks.new (work table.new positions.new book.new tris.new) room.new }
{
    marks::mark_box(job.sides, samples, masks, job.threshold);
    let source = Source {
        job,
        samples,
        masks,
    };
    let made = source.make(table, positions, book, tris, room);
    sort::clear(room);
    made
}
