// The topology test of a site: which of the intersections near it may share a vertex.
#![tactic(auto)]

ghost use Rattle.std.specs.Prelude.{◌≡◌, ◌<◌, [], ◌∷◌};
ghost use Rattle.samples.specs.Sides.{known, is_near};
ghost use Rattle.topology.specs.Walk.{low_bit, visits, components_of};
ghost use Rattle.topology.specs.Flat.{two_edges, collapses, pairs_collapse, is_flat};
ghost use Rattle.topology.specs.Topology.{singles, clusters_of, topology_of, case_number};

use tables::ALL14_MASK;

#[derive(Clone, Copy)]
pub enum TopologyCase {
    ClosedSurface,
    MultiHole,
    FlatHole,
    MultiSurface,
    SimpleSurface,
    DoNotCluster,
}

// The edges of each cluster, as masks: how many, and fourteen places, since there is no heap and a site has at most fourteen.
#[derive(Clone, Copy)]
pub struct Clusters {
    pub count: usize,
    pub masks: [u16; 14],
}

// Beside the case and the clusters, how many edges the walks took from their frontiers.
#[derive(Clone, Copy)]
pub struct TopologyResult {
    pub case: TopologyCase,
    pub clusters: Clusters,
    pub visits: usize,
}

// The case's place among the counts that are printed: written out, so that it is not the order above that the numbers hang on.
pub fn case_number(case: TopologyCase) -> usize
    ensures { result ≡ case_number case }
{
    match case {
        TopologyCase::ClosedSurface => 0,
        TopologyCase::MultiHole => 1,
        TopologyCase::FlatHole => 2,
        TopologyCase::MultiSurface => 3,
        TopologyCase::SimpleSurface => 4,
        TopologyCase::DoNotCluster => 5,
    }
}

// The connected components of a mask, in order of their lowest edge, and how many edges were taken from the frontier to find them.
#[derive(Clone, Copy)]
pub struct Components {
    pub clusters: Clusters,
    pub visits: usize,
}

// The lowest set bit of x; 0 for 0.
fn lowbit(x: u16) -> u16
    ensures { result ≡ low_bit x }
{
    x & std::num::wrapping_sub_u16(0, x)
}

// Takes an edge that remains, then those of its neighbours that remain, then theirs, until no more are found; and then begins again.
pub fn connected_components_masks(edge_mask: u16) -> Components
    ensures { result ≡ components_of edge_mask }
{
    let mut remaining = edge_mask & ALL14_MASK;
    let mut masks = [0u16; 14];
    let mut count: usize = 0;
    let mut visits: usize = 0;
    'comps: while remaining != 0 {
        let seed = lowbit(remaining);
        remaining ^= seed;
        let mut comp: u16 = 0;
        let mut frontier: u16 = seed;
        'walk: while frontier != 0 {
            let b = lowbit(frontier);
            frontier ^= b;
            visits += 1;
            let e = u16::trailing_zeros(b) as usize;
            comp |= b;
            let nbrs = tables::neighbours_in(e, remaining);
            remaining ^= nbrs;
            frontier |= nbrs;
        }
        masks[count] = comp;
        count += 1;
    }
    let clusters = Clusters { count, masks };
    Components { clusters, visits }
}

// How many edges the walks over a mask will take, before any is made.
pub fn visit_total(mask: u16) -> usize
    ensures { result ≡ visits «mask» }
{
    u16::count_ones(mask & ALL14_MASK) as usize
}

#[derive(Clone, Copy)]
pub struct TwoEdges {
    pub first: usize,
    pub second: usize,
}

// The two edges of a mask that has two.
fn two_edge_indices(mask: u16) -> TwoEdges
    ensures { result ≡ two_edges mask }
{
    let b = lowbit(mask);
    let first = u16::trailing_zeros(mask) as usize;
    let second = u16::trailing_zeros(mask ^ b) as usize;
    TwoEdges { first, second }
}

// Whether the surface crosses the edge from a to b nearer to a. At a fraction of 0.5 or NaN it does not.
fn is_near(a: f64, b: f64, h: f64) -> bool
    ensures { result ≡ is_near a b h }
{
    let c = samples::crossing_alpha(a, b, h);
    match c {
        None => false,
        Some(t) => t < 0.5,
    }
}

// Of the values at four ends: the crossings from a to c and d are both near a, or those from b both near b.
fn would_collapse(a: f64, b: f64, c: f64, d: f64, h: f64) -> bool
    ensures { result ≡ collapses a b c d h }
{
    let near_a = is_near(a, d, h) && is_near(a, c, h);
    let near_b = is_near(b, d, h) && is_near(b, c, h);
    near_a || near_b
}

// The value at the end of an edge, where there is one and it is finite.
fn endpoint_value(end: Option<f64>) -> Option<f64>
    ensures { result ≡ known end }
{
    samples::finite_sample(end?)
}

// The same for the ends of edges with and without an intersection near the site: where one of the four is missing or not finite, they say nothing.
fn pairs_collapse(ends: [Option<f64>; 14], off: TwoEdges, on: TwoEdges, h: f64) -> bool
    requires { (off.first < 14) × (off.second < 14) × (on.first < 14) × (on.second < 14) }
    ensures { result ≡ pairs_collapse ends h off on }
{
    let Some(a) = endpoint_value(ends[off.first]) else {
        return false;
    };
    let Some(b) = endpoint_value(ends[off.second]) else {
        return false;
    };
    let Some(c) = endpoint_value(ends[on.first]) else {
        return false;
    };
    let Some(d) = endpoint_value(ends[on.second]) else {
        return false;
    };
    would_collapse(a, b, c, d, h)
}

// Whether a surface connected around the site, with near intersections on the edges of the mask, would be flattened.
fn is_flat_hole(surface_comp: u16, ends: [Option<f64>; 14], h: f64) -> bool
    ensures { result ≡ is_flat surface_comp ends h }
{
    let rows = tables::flat_hole_rows();
    'rows: for row in &rows {
        let [edge_mask, opposite_mask] = *row;
        if surface_comp & edge_mask != 0 {
            continue 'rows;
        }
        if surface_comp & opposite_mask != opposite_mask {
            continue 'rows;
        }
        let off = two_edge_indices(edge_mask);
        let on = two_edge_indices(opposite_mask);
        if pairs_collapse(ends, off, on, h) {
            return true;
        }
    }
    false
}

// Each intersection as a cluster of its own.
fn do_not_cluster(edge_mask: u16) -> Clusters
    ensures { result ≡ clusters_of (singles edge_mask) }
{
    let mut left = edge_mask & ALL14_MASK;
    let mut masks = [0u16; 14];
    let mut count: usize = 0;
    while left != 0 {
        let e = u16::trailing_zeros(left);
        let b = 1u16 << e;
        left ^= b;
        masks[count] = b;
        count += 1;
    }
    Clusters { count, masks }
}

fn no_cluster() -> Clusters
    ensures { result ≡ clusters_of [] }
{
    Clusters {
        count: 0,
        masks: [0u16; 14],
    }
}

// All intersections in one cluster.
fn one_cluster(edge_mask: u16) -> Clusters
    ensures { result ≡ clusters_of (edge_mask ∷ []) }
{
    let mut masks = [0u16; 14];
    masks[0] = edge_mask;
    Clusters { count: 1, masks }
}

fn answer(case: TopologyCase, clusters: Clusters, visits: usize) -> TopologyResult
    ensures { result ≡ record { case = case; clusters = clusters; visits = visits } }
{
    TopologyResult {
        case,
        clusters,
        visits,
    }
}

// The case of a site and its clusters: the mask of its near intersections, whether to cluster, and the samples at the other ends
// of its edges. One that is not finite counts as missing.
pub fn test_topology(
    near_mask: u16,
    cluster: bool,
    ends: [Option<f64>; 14],
    h: f64,
) -> TopologyResult
    ensures { result ≡ topology_of near_mask cluster ends h }
{
    let m = near_mask & ALL14_MASK;
    if m == 0 {
        return answer(TopologyCase::SimpleSurface, no_cluster(), 0);
    }
    if !cluster {
        return answer(TopologyCase::DoNotCluster, do_not_cluster(m), 0);
    }
    if m == ALL14_MASK {
        return answer(TopologyCase::ClosedSurface, do_not_cluster(m), 0);
    }
    let surfaces = connected_components_masks(m);
    if surfaces.clusters.count > 1 {
        return answer(
            TopologyCase::MultiSurface,
            surfaces.clusters,
            surfaces.visits,
        );
    }
    let holes = connected_components_masks(ALL14_MASK & !m);
    let total = surfaces.visits + holes.visits;
    if holes.clusters.count != 1 {
        return answer(TopologyCase::MultiHole, do_not_cluster(m), total);
    }
    if is_flat_hole(m, ends, h) {
        return answer(TopologyCase::FlatHole, do_not_cluster(m), total);
    }
    answer(TopologyCase::SimpleSurface, one_cluster(m), total)
}
