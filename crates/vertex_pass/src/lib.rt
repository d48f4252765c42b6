// The vertex pass: sites in order, clusters in order; a cluster is one vertex, or one for each of its edges where it is flagged.
#![tactic(auto)]

ghost use Rattle.std.specs.Prelude.{◌≡◌, ◌&&◌, ◌+◌, ◌*◌, ◌<◌, ◌≤◌, ltb, length, get_or, set, replicate};
ghost use Rattle.laws.specs.Ranges.{each};
ghost use Rattle.lattice.specs.Sites.{sites};
ghost use Rattle.march.specs.March.{none};
ghost use Rattle.stages.specs.Vertices.{site_vertices, candidates};
ghost use Rattle.stages.specs.Samples.{box_of};
ghost use Rattle.site_vertices.specs.Inner.Drawing.{Tabled};
ghost use Rattle.vertex_pass.specs.Inner.Passing.{flag_of, candidate_of, Passed, Ahead, start, cases_to, Masked, Drawn};

use lattice::Sides;
use points::Frame;
use site_vertices::Source;
use topology::Clusters;

// Where a pass is: the next vertex, the next candidate, and the clusters split so far.
#[derive(Clone, Copy)]
pub struct Pass {
    pub next: usize,
    pub tried: usize,
    pub split: usize,
}

// A pass and the cases of the sites it has met, by their numbers.
#[derive(Clone, Copy)]
pub struct Walk {
    pub pass: Pass,
    pub cases: [usize; 6],
}

// What a pass reads: the box and its masks, the flags of the candidates, whether clusters are told apart, and the threshold. Each list has a lifetime of its own, as in `draw_box`.
#[derive(Clone, Copy)]
struct Plan<'a, 'b, 'c> {
    source: Source<'a>,
    masks: &'b [u16],
    flags: &'c [u32],
    cluster: bool,
    threshold: f64,
    ghost masked: { Masked source.sides source.samples.now threshold masks.now },
}

// A candidate that holds more than one edge is split where it is flagged.
fn is_split(flags: &[u32], i: usize, held: u32) -> bool
    ensures { result ≡ (ltb 1 held && flag_of flags.now i) }
{
    if 1 < held {
        if i < flags.len() {
            return flags[i] == 1;
        }
    }
    false
}

// One more of a case.
fn tally(cases: [usize; 6], j: usize) -> [usize; 6]
    requires { (j < 6) × (get_or cases j 0 < 32768) }
    ensures { result ≡ set cases j (get_or cases j 0 + 1) }
{
    let mut r = cases;
    r[j] = r[j] + 1;
    r
}

impl Plan<'_, '_, '_> {
    // The vertex of a cluster, or its edges' vertices.
    fn draw_vertex(
        &self,
        table: &mut [u32],
        positions: &mut [f64],
        book: &mut [u32],
        s: usize,
        mask: u16,
        at: Pass,
    ) -> Pass
        requires drawable { Tabled self.now.source.sides table.old s }
        requires ahead { Ahead (flag_of self.now.flags.now) (candidate_of self.now.source.sides self.now.source.samples.now s mask) at positions.old book.old }
        ensures { Passed self.now.source.frame self.now.source.sides self.now.source.samples.now (flag_of self.now.flags.now) (candidate_of self.now.source.sides self.now.source.samples.now s mask) at table.old positions.old book.old result table.new positions.new book.new }
    {
        let next = at.next;
        let sum = self.source.draw_cluster(table, s, mask, next as u32);
        let held = sum.count;
        if held == 0 {
            return at;
        }
        let tried = at.tried + 1;
        let split = at.split;
        if is_split(self.flags, at.tried, held) {
            let next = self
                .source
                .draw_singles(table, positions, book, s, mask, next, 0);
            return Pass {
                next,
                tried,
                split: split + 1,
            };
        }
        let p = points::mean(sum);
        site_vertices::put_vertex(positions, book, next, p, s, held, 0);
        Pass {
            next: next + 1,
            tried,
            split,
        }
    }

    // The clusters of a site, in order.
    fn draw_site(
        &self,
        table: &mut [u32],
        positions: &mut [f64],
        book: &mut [u32],
        s: usize,
        clusters: Clusters,
        at: Pass,
    ) -> Pass
        requires drawable { Tabled self.now.source.sides table.old s × (clusters.count ≤ 14) }
        requires ahead { Ahead (flag_of self.now.flags.now) (each clusters.count (λ c. candidate_of self.now.source.sides self.now.source.samples.now s (get_or clusters.masks c 0))) at positions.old book.old }
        ensures { Passed self.now.source.frame self.now.source.sides self.now.source.samples.now (flag_of self.now.flags.now) (each clusters.count (λ c. candidate_of self.now.source.sides self.now.source.samples.now s (get_or clusters.masks c 0))) at table.old positions.old book.old result table.new positions.new book.new }
    {
        let mut now = at;
        for mask in &clusters.masks[..clusters.count] {
            now = self.draw_vertex(table, positions, book, s, *mask, now);
        }
        now
    }

    // One site. Without marked edges it has no clusters, and is no case.
    fn draw_at(
        &self,
        table: &mut [u32],
        positions: &mut [f64],
        book: &mut [u32],
        s: usize,
        at: Walk,
    ) -> Walk
        requires drawable { Tabled self.now.source.sides table.old s }
        requires ahead { Ahead (flag_of self.now.flags.now) (site_vertices (box_of self.now.source.sides self.now.source.samples.now self.now.threshold self.now.cluster) s) at.pass positions.old book.old }
        requires cases_before { at.cases ≡ cases_to self.now.source.sides self.now.source.samples.now self.now.threshold self.now.cluster s }
        ensures passed { Passed self.now.source.frame self.now.source.sides self.now.source.samples.now (flag_of self.now.flags.now) (site_vertices (box_of self.now.source.sides self.now.source.samples.now self.now.threshold self.now.cluster) s) at.pass table.old positions.old book.old result.pass table.new positions.new book.new }
        ensures cases_after { result.cases ≡ cases_to self.now.source.sides self.now.source.samples.now self.now.threshold self.now.cluster (s + 1) }
    {
        let m = self.masks[s];
        if m == 0 {
            return at;
        }
        let ends = site_vertices::ends_of(self.source.sides, self.source.samples, s);
        let found = topology::test_topology(m, self.cluster, ends, self.threshold);
        let cases = tally(at.cases, topology::case_number(found.case));
        let pass = self.draw_site(table, positions, book, s, found.clusters, at.pass);
        Walk { pass, cases }
    }
}

// An edge table without vertices.
fn empty_table(table: &mut [u32])
    ensures { table.new ≡ replicate (length table.old) none }
{
    table.fill(march::NONE);
}

// The whole pass: all sites in order.
pub fn draw_box(
    frame: Frame,
    n: Sides,
    samples: &[f64],
    masks: &[u16],
    table: &mut [u32],
    positions: &mut [f64],
    book: &mut [u32],
    flags: &[u32],
    cluster: bool,
    h: f64,
) -> Walk
    requires masked { Masked n samples.now h masks.now × (length table.old ≡ 7 * sites n) }
    requires ahead { Ahead (flag_of flags.now) (candidates (box_of n samples.now h cluster)) start positions.old book.old }
    ensures { Drawn frame n samples.now h cluster (flag_of flags.now) positions.old book.old result table.new positions.new book.new }
{
    let plan = Plan {
        source: Source {
            frame,
            sides: n,
            samples,
        },
        masks,
        flags,
        cluster,
        threshold: h,
    };
    empty_table(table);
    let k = lattice::site_count(n);
    let mut at = Walk {
        pass: Pass {
            next: 0,
            tried: 0,
            split: 0,
        },
        cases: [0usize; 6],
    };
    for s in 0..k {
        at = plan.draw_at(table, positions, book, s, at);
    }
    at
}
