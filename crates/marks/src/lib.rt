// Marks: for each owned edge whose ends are on different sides, a bit in the mask of the end that the surface is nearer to.
// A layer's work is handed the samples and the masks from that layer's first site on, and a box that begins there.
#![tactic(auto)]

ghost use Rattle.std.specs.Prelude.{◌≡◌, ◌++◌, ◌+◌, ◌*◌, ◌<◌, ◌≤◌, length, drop, IfSome};
ghost use Rattle.lattice.specs.Sites.{InBox, sites, site_of};
ghost use Rattle.lattice.specs.Across.{across_of};
ghost use Rattle.laws.specs.Bools.{bit};
ghost use Rattle.marks.specs.Marks.{sample, masks_of, is_crossed, crossed_count};
ghost use Rattle.marks.specs.Inner.Loops.{set_bit, mark_crossing, mark_label, mark_site, mark_row, mark_layer, mark_layers, from_layer, zeroed, Room, Sampled, cross_site, cross_row, cross_layer};

use lattice::{Sides, Uvw};

// The samples of a box, and the threshold that parts them.
#[derive(Clone, Copy)]
struct Field<'a> {
    sides: Sides,
    samples: &'a [f64],
    threshold: f64,
    ghost sampled: { Sampled sides samples.now },
}

// A site of a box, and its sample.
#[derive(Clone, Copy)]
struct Site<'a> {
    field: Field<'a>,
    at: Uvw,
    number: usize,
    value: f64,
    ghost in_box: { InBox field.sides at },
    ghost numbered: { number ≡ site_of field.sides at.u at.v at.w },
    ghost inside: { number < sites field.sides },
    ghost valued: { value ≡ sample field.samples.now number },
}

fn set_bit(masks: &mut [u16], at: usize, bit: usize)
    requires { (at < length masks.old) × (bit < 14) }
    ensures { masks.new ≡ set_bit masks.old at bit }
{
    masks[at] |= 1u16 << bit;
}

// The owned edge from site s to site t. A NaN fraction marks the other end.
fn mark_crossing(masks: &mut [u16], s: usize, t: usize, label: usize, c: Option<f64>)
    requires { (s < length masks.old) × (t < length masks.old) × (label < 7) }
    ensures { masks.new ≡ mark_crossing s t label c masks.old }
{
    if let Some(f) = c {
        if f < 0.5 {
            set_bit(masks, s, label);
        } else {
            set_bit(masks, t, label + tables::OWNED_EDGES);
        }
    }
}

impl Site<'_> {
    // The number of the site across an owned edge, if it is in the box.
    fn across(&self, label: usize) -> Option<usize>
        requires { label < 7 }
        ensures is { result ≡ across_of self.now.field.sides self.now.number label }
        ensures inside { IfSome result (λ t. t < sites self.now.field.sides) }
    {
        lattice::above(self.field.sides, self.at, label)
    }

    // An end that is not in the box gives no mark.
    fn mark_label(&self, masks: &mut [u16], label: usize)
        requires { (sites self.now.field.sides ≤ length masks.old) × (label < 7) }
        ensures { masks.new ≡ mark_label self.now.field.sides self.now.field.samples.now self.now.field.threshold self.now.number label masks.old }
    {
        let s = self.number;
        if let Some(t) = self.across(label) {
            let field = self.field;
            let c = samples::crossing_alpha(self.value, field.sample(t), field.threshold);
            mark_crossing(masks, s, t, label, c);
        }
    }

    fn mark_site(&self, masks: &mut [u16])
        requires { sites self.now.field.sides ≤ length masks.old }
        ensures { masks.new ≡ mark_site self.now.field.sides self.now.field.samples.now self.now.field.threshold self.now.number masks.old }
    {
        for label in 0..tables::OWNED_EDGES {
            self.mark_label(masks, label);
        }
    }
}

// 1 where the owned edge has both ends in the box, on different sides.
// This and the next take what they read one by one: as methods of a site they prove, and count a fifth slower.
fn crosses_at(n: Sides, samples: &[f64], p: Uvw, s: usize, label: usize, h: f64) -> usize
    requires sampled { Sampled n samples.now }
    requires in_box { InBox n p × (s ≡ site_of n p.u p.v p.w) × (label < 7) }
    ensures { result ≡ bit (is_crossed n samples.now h s label) }
{
    let end = lattice::above(n, p, label);
    match end {
        None => 0,
        Some(t) => {
            if samples::is_inside(samples[s], h) == samples::is_inside(samples[t], h) {
                0
            } else {
                1
            }
        }
    }
}

fn cross_site(n: Sides, samples: &[f64], p: Uvw, s: usize, h: f64) -> usize
    requires sampled { Sampled n samples.now }
    requires in_box { InBox n p × (s ≡ site_of n p.u p.v p.w) }
    ensures { result ≡ cross_site n samples.now h s }
{
    let mut total = 0;
    for label in 0..tables::OWNED_EDGES {
        total += crosses_at(n, samples, p, s, label, h);
    }
    total
}

impl<'a> Field<'a> {
    fn sample(&self, s: usize) -> f64
        requires { s < sites self.now.sides }
        ensures { result ≡ sample self.now.samples.now s }
    {
        self.samples[s]
    }

    // A site of the first layer.
    fn site(&self, u: usize, v: usize) -> Site<'a>
        requires { (u < self.now.sides.nu) × (v < self.now.sides.nv) }
        ensures field { result.field ≡ self.now }
        ensures number { result.number ≡ v * self.now.sides.nu + u }
    {
        let number = v * self.sides.nu + u;
        Site {
            field: *self,
            at: Uvw { u, v, w: 0 },
            number,
            value: self.sample(number),
        }
    }

    fn mark_row(&self, masks: &mut [u16], v: usize)
        requires { (sites self.now.sides ≤ length masks.old) × (v < self.now.sides.nv) }
        ensures { masks.new ≡ mark_row self.now.sides self.now.samples.now self.now.threshold v masks.old }
    {
        for u in 0..self.sides.nu {
            self.site(u, v).mark_site(masks);
        }
    }

    // The first layer of a box.
    fn mark_layer(&self, masks: &mut [u16])
        requires { sites self.now.sides ≤ length masks.old }
        ensures { masks.new ≡ mark_layer self.now.sides self.now.samples.now self.now.threshold masks.old }
    {
        for v in 0..self.sides.nv {
            self.mark_row(masks, v);
        }
    }

    // The number of the first site of a layer.
    fn layer_start(&self, w: usize) -> usize
        requires { w < self.now.sides.nw }
        ensures number { result ≡ w * (self.now.sides.nu * self.now.sides.nv) }
        ensures inside { result ≤ sites self.now.sides }
    {
        w * (self.sides.nu * self.sides.nv)
    }

    // The part of the box from a layer on.
    fn from_layer(&self, w: usize) -> Self
        requires { w < self.now.sides.nw }
        ensures sides { result.sides ≡ from_layer self.now.sides w }
        ensures samples { result.samples.now ≡ drop (w * (self.now.sides.nu * self.now.sides.nv)) self.now.samples.now }
        ensures threshold { result.threshold ≡ self.now.threshold }
    {
        let n = self.sides;
        let a = self.layer_start(w);
        Field {
            sides: Sides {
                nu: n.nu,
                nv: n.nv,
                nw: n.nw - w,
            },
            samples: &self.samples[a..],
            threshold: self.threshold,
        }
    }

    // Layer by layer, each from its first site on.
    fn mark_layers(&self, masks: &mut [u16])
        requires { sites self.now.sides ≤ length masks.old }
        ensures { masks.new ≡ mark_layers self.now.sides self.now.samples.now self.now.threshold self.now.sides.nw masks.old }
    {
        for w in 0..self.sides.nw {
            let a = self.layer_start(w);
            self.from_layer(w).mark_layer(&mut masks[a..]);
        }
    }

    fn cross_row(&self, v: usize) -> usize
        requires { v < self.now.sides.nv }
        ensures { result ≡ cross_row self.now.sides self.now.samples.now self.now.threshold v }
    {
        let mut total = 0;
        for u in 0..self.sides.nu {
            let p = Uvw { u, v, w: 0 };
            let s = v * self.sides.nu + u;
            total += cross_site(self.sides, self.samples, p, s, self.threshold);
        }
        total
    }

    fn cross_layer(&self) -> usize
        ensures { result ≡ cross_layer self.now.sides self.now.samples.now self.now.threshold }
    {
        let mut total = 0;
        for v in 0..self.sides.nv {
            total += self.cross_row(v);
        }
        total
    }

    // Layer by layer, as the marks.
    fn crossed(&self) -> usize
        ensures { result ≡ crossed_count self.now.sides self.now.samples.now self.now.threshold }
    {
        let mut total = 0;
        for w in 0..self.sides.nw {
            total += self.from_layer(w).cross_layer();
        }
        total
    }
}

// The first layer of a box.
pub fn mark_layer(n: Sides, samples: &[f64], masks: &mut [u16], h: f64)
    requires { Room n samples.now masks.old }
    ensures { masks.new ≡ mark_layer n samples.now h masks.old }
{
    let field = Field {
        sides: n,
        samples,
        threshold: h,
    };
    field.mark_layer(masks);
}

fn clear(masks: &mut [u16], k: usize)
    requires { k ≤ length masks.old }
    ensures { masks.new ≡ zeroed k masks.old }
{
    masks[..k].fill(0);
}

// The masks of the box, whatever was in the lent list before. What lies past the sites stays.
pub fn mark_box(n: Sides, samples: &[f64], masks: &mut [u16], h: f64)
    requires { Room n samples.now masks.old }
    ensures { masks.new ≡ masks_of n samples.now h ++ drop (sites n) masks.old }
{
    let field = Field {
        sides: n,
        samples,
        threshold: h,
    };
    let k = lattice::site_count(n);
    clear(masks, k);
    field.mark_layers(masks);
}

// E, the number of crossed edges of the box.
pub fn count_crossed(n: Sides, samples: &[f64], h: f64) -> usize
    requires { Sampled n samples.now }
    ensures { result ≡ crossed_count n samples.now h }
{
    let field = Field {
        sides: n,
        samples,
        threshold: h,
    };
    field.crossed()
}
