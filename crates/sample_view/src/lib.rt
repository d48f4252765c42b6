// The sample view: the caller's samples together with the sides of the box, and the value at a site, at (u, v, w) and across an edge.
// The lookups stand on a plain slice, for callers that hold a slice and sides; the functions over the struct are one call each, and no shorter as the only ones.
#![tactic(auto)]

ghost use Rattle.std.specs.Prelude.{◌≡◌};
ghost use Rattle.sample_view.specs.View.{entry_at, entry_by, value_at, value_uvw, value_across};

use lattice::{Sides, Uvw};

// The samples that the caller lends, and the sides of their box.
#[derive(Clone, Copy)]
pub struct SampleView<'a> {
    pub samples: &'a [f64],
    pub sides: Sides,
}

// ---- on a plain slice

// An entry of the list: missing past its end.
fn entry_at(samples: &[f64], s: usize) -> Option<f64>
    ensures { result ≡ entry_at samples.now s }
{
    samples.get(s).copied()
}

// The entry of what lies across an edge.
fn entry_by(samples: &[f64], end: Option<usize>) -> Option<f64>
    ensures { result ≡ entry_by samples.now end }
{
    entry_at(samples, end?)
}

// The value at a site number.
pub fn value_at(samples: &[f64], n: Sides, s: usize) -> Option<f64>
    ensures { result ≡ value_at n samples.now s }
{
    if lattice::sides_ok(n) {
        if s < lattice::site_count(n) {
            return entry_at(samples, s);
        }
    }
    None
}

// The value at (u, v, w).
pub fn value_uvw(samples: &[f64], n: Sides, u: usize, v: usize, w: usize) -> Option<f64>
    ensures { result ≡ value_uvw n samples.now u v w }
{
    if lattice::sides_ok(n) {
        if u < n.nu {
            if v < n.nv {
                if w < n.nw {
                    let s = lattice::site_number(n, Uvw { u, v, w });
                    return entry_at(samples, s);
                }
            }
        }
    }
    None
}

// The value across edge e of the site s.
pub fn value_across(samples: &[f64], n: Sides, s: usize, e: usize) -> Option<f64>
    ensures { result ≡ value_across n samples.now s e }
{
    if lattice::sides_ok(n) {
        if s < lattice::site_count(n) {
            if e < tables::EDGES {
                let end = lattice::across(n, s, e);
                return entry_by(samples, end);
            }
        }
    }
    None
}

// ---- over the struct

// The view of a slice and sides.
pub fn view_of<'a>(samples: &'a [f64], sides: Sides) -> SampleView<'a>
    ensures { (result.samples ≡ samples.entry) × (result.sides ≡ sides) }
{
    SampleView { samples, sides }
}

impl<'a> SampleView<'a> {
    pub fn at(self, s: usize) -> Option<f64>
        ensures { result ≡ value_at self.entry.sides self.entry.samples.now s }
    {
        value_at(self.samples, self.sides, s)
    }

    pub fn at_uvw(self, u: usize, v: usize, w: usize) -> Option<f64>
        ensures { result ≡ value_uvw self.entry.sides self.entry.samples.now u v w }
    {
        value_uvw(self.samples, self.sides, u, v, w)
    }

    pub fn across(self, s: usize, e: usize) -> Option<f64>
        ensures { result ≡ value_across self.entry.sides self.entry.samples.now s e }
    {
        value_across(self.samples, self.sides, s, e)
    }
}

// For a caller with plain parameters: makes the view and asks it.
pub fn sample_uvw(samples: &[f64], n: Sides, u: usize, v: usize, w: usize) -> Option<f64>
    ensures { result ≡ value_uvw n samples.now u v w }
{
    view_of(samples, n).at_uvw(u, v, w)
}
