// A round of rollback: each live cluster vertex of a flagged site is retired, and each of its edges takes a vertex of its own.
#![tactic(auto)]

ghost use Rattle.std.specs.Prelude.{◌≡◌, ◌+◌, ◌*◌, ◌<◌, ◌≤◌, get_or, length};
ghost use Rattle.lattice.specs.Sites.{sites};
ghost use Rattle.site_vertices.specs.Inner.Appending.{Space};
ghost use Rattle.site_vertices.specs.Inner.Drawing.{Tabled};
ghost use Rattle.rollback.specs.Inner.Rolling.{Ready, Rolled};
ghost use Rattle.rollback.specs.Inner.Turning.{held_at, held_mask, grown, Placed, Replaced, Turnable, Turned};

use lattice::Sides;
use points::Frame;
use site_vertices::Source;

// What a round reads: the box and its masks, the flags of its sites, and the round's number. Each list has a lifetime of its own, as in `roll_back`.
#[derive(Clone, Copy)]
struct Round<'a, 'b, 'c> {
    source: Source<'a>,
    masks: &'b [u16],
    flags: &'c [u32],
    number: u32,
    ghost masked: { sites source.sides ≤ length masks.now },
    ghost flagged: { sites source.sides ≤ length flags.now },
}

impl Round<'_, '_, '_> {
    // Whether the place of an edge in the edge table has the number i.
    fn holds(&self, table: &[u32], s: usize, e: usize, i: u32) -> bool
        requires { Tabled self.now.source.sides table.now s × (e < 14) }
        ensures { result ≡ held_at self.now.source.sides table.now s i e }
    {
        let k = site_vertices::edge_place(self.source.sides, s, e);
        table[k] == i
    }

    // The edges of vertex i: those that its site has marked and whose places in the edge table have its number.
    fn held_mask(&self, table: &[u32], s: usize, i: u32) -> u16
        requires { Tabled self.now.source.sides table.now s }
        ensures { result ≡ held_mask self.now.source.sides table.now s (get_or self.now.masks.now s 0) i }
    {
        let mut held = 0u16;
        let mut rest = self.masks[s] & tables::ALL14_MASK;
        while rest != 0 {
            let e = u16::trailing_zeros(rest) as usize;
            let b = 1u16 << e;
            rest ^= b;
            if self.holds(table, s, e, i) {
                held |= b;
            }
        }
        held
    }

    // Vertex i is retired, and each of its edges takes a vertex of its own: the next number.
    fn roll_vertex(
        &self,
        table: &mut [u32],
        positions: &mut [f64],
        book: &mut [u32],
        i: usize,
        next: usize,
    ) -> usize
        requires placed { Placed self.now.source.sides table.old book.old i }
        requires space { Space positions.old book.old (next + length (grown self.now.source.sides self.now.source.samples.now self.now.masks.now table.old book.old i self.now.number)) }
        ensures { Replaced self.now.source.frame self.now.source.sides self.now.source.samples.now (grown self.now.source.sides self.now.source.samples.now self.now.masks.now table.old book.old i self.now.number) i next table.old positions.old book.old result table.new positions.new book.new }
    {
        let s = book[4 * i] as usize;
        let held = self.held_mask(table, s, i as u32);
        let after = self
            .source
            .draw_singles(table, positions, book, s, held, next, self.number);
        book[4 * i + 1] = 0;
        after
    }

    // The turn of vertex i: it is rolled back where it is a live cluster vertex of a flagged site.
    fn roll_turn(
        &self,
        table: &mut [u32],
        positions: &mut [f64],
        book: &mut [u32],
        i: usize,
        next: usize,
    ) -> usize
        requires { Turnable self.now.source.sides self.now.source.samples.now self.now.masks.now self.now.flags.now i next self.now.number table.old positions.old book.old }
        ensures { Turned self.now.source.frame self.now.source.sides self.now.source.samples.now self.now.masks.now self.now.flags.now i next self.now.number table.old positions.old book.old result table.new positions.new book.new }
    {
        if 1 < book[4 * i + 1] {
            let s = book[4 * i] as usize;
            if self.flags[s] == 1 {
                return self.roll_vertex(table, positions, book, i, next);
            }
        }
        next
    }
}

// One round: the live cluster vertices of the flagged sites, by number: the next number.
pub fn roll_back(
    frame: Frame,
    n: Sides,
    samples: &[f64],
    masks: &[u16],
    table: &mut [u32],
    positions: &mut [f64],
    book: &mut [u32],
    flags: &[u32],
    count: usize,
    round: u32,
) -> usize
    requires { Ready frame n samples.now masks.now table.old positions.old book.old flags.now count round }
    ensures { Rolled frame n samples.now masks.now table.old positions.old book.old flags.now count round result table.new positions.new book.new }
{
    let turns = Round {
        source: Source {
            frame,
            sides: n,
            samples,
        },
        masks,
        flags,
        number: round,
    };
    let mut next = count;
    for i in 0..count {
        next = turns.roll_turn(table, positions, book, i, next);
    }
    next
}
