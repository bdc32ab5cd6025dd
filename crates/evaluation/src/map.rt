// The axes of a map, one after the other, for a block of queries.
ghost use Rattle.std.specs.Prelude.{◌≡◌, ℕ, ◌+◌, ◌*◌, ◌≤◌, ◌<◌, length, get_or, List, Float};
ghost use Rattle.std.specs.Float.{nan};
ghost use Rattle.evaluation.specs.Axis.{AxisOf};
ghost use Rattle.evaluation.specs.ByAxis.{ByAxis};
ghost use Rattle.evaluation.specs.Granted.{Ready};
ghost use Rattle.evaluation.specs.Stages.{no_spot, Coordinates, LookedTo};

use crate::axis::Axis;
use crate::figures::Figures;
use crate::stages::{Spot, put_places};

// An accepted map, on either grid.
pub trait Map {
    type Along: Axis;

    ghost view: { Self → ByAxis };

    fn count(&self) -> usize
        ensures { result ≡ (view self.now).count };

    fn strides(&self) -> [usize; 4]
        ensures { Ready (view self.now).count (view self.now).lens result };

    fn axis(&self, a: usize) -> Self::Along
        requires { a < (view self.now).count }
        ensures { AxisOf (view self.now) a (Self.Along.view result) };
}

// The queries of a block: m of the n of a batch, from query `from` on, by their coordinates, which stand axis after axis.
#[derive(Clone, Copy)]
pub struct Span<'a> {
    pub xs: &'a [f64],
    pub n: usize,
    pub from: usize,
    pub m: usize,
    ghost within: { from + m ≤ n },
}

impl<'a> Span<'a> {
    // The first `good` coordinates on axis a.
    fn along(self, a: usize, good: usize) -> &'a [f64]
        requires { a * self.n + self.from + good ≤ length self.xs.now }
        ensures { Coordinates self.entry.xs.now self.entry.n self.entry.from a good result.now }
    {
        let at = a * self.n + self.from;
        &self.xs[at..at + good]
    }
}

// The first coefficients of the queries before any axis is looked at.
fn zero_firsts(spots: &mut [Spot])
    ensures { (k : ℕ) → k < length spots.old → (get_or spots.new k no_spot).first ≡ 0 }
{
    for spot in spots.iter_mut() {
        spot.first = 0;
    }
}

// The places and the rows, axis after axis, up to the first query that some axis has no place for: how many come before it. An
// axis looks at the queries that the axes before it have a place for.
pub fn look<F: Figures, M: Map>(
    map: &M,
    s: Span,
    places: &mut [<M::Along as Axis>::Place],
    spots: &mut [Spot],
) -> usize
    requires room { ((M.view map.now).count * s.n ≤ length s.xs.now) × (s.m ≤ length places.old) × (s.m ≤ length spots.old) }
    ensures { LookedTo (F.Rows (M.view map.now)) (M.view map.now) s.entry.xs.now s.entry.n s.entry.from s.entry.m (M.view map.now).count result spots.new }
{
    let strides = map.strides();
    let count = map.count();
    zero_firsts(&mut spots[..s.m]);
    let mut good = s.m;
    // counted: the axis, its stride and its coordinates are each asked for by its number
    for a in 0..count {
        let axis = map.axis(a);
        good = put_places(axis, strides[a], s.along(a, good), places, spots);
        F::look(axis, count, a, s.along(a, good), places, spots);
    }
    good
}
