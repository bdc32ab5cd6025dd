// The value at a single query of the map that a grid makes, for a caller that has the grid and no record: the ghost numbers of an
// axis are worked out only where the query lies at an end of it, and only those of that end.
ghost use denote.Builtin.{usize};
ghost use Rattle.std.specs.Mem.{type_size};
ghost use Rattle.std.specs.Prelude.{◌≡◌, ◌+◌, ◌*◌, ◌<◌, ◌^◌, true, ◌≤◌, length};
ghost use Rattle.std.specs.Float.{binary64};
ghost use Rattle.knots.specs.Knots.{rises, count_below};
ghost use Rattle.rectilinear_basis.specs.Basis.{basis_span_weights};
ghost use Rattle.rectilinear_weights.specs.Ghosts.{low_ghost_coeffs, high_ghost_coeffs};
ghost use Rattle.rectilinear_weights.specs.Weights.{low_boundary_weights, high_boundary_weights};
ghost use Rattle.evaluation.specs.Granted.{Ready};
ghost use Rattle.rectilinear_axis.specs.Axis.{place_weights, rectilinear_axis};
ghost use Rattle.rectilinear_blocks.specs.Eval.{map_checks, rectilinear_axes};
ghost use Rattle.rectilinear_blocks.specs.Sound.{Gridded};
ghost use Rattle.rectilinear_map.specs.Laws.{numbered};
ghost use Rattle.rectilinear_map.specs.Map.{of_grid};

use crate::build::looked_at;
use evaluation::{Axis, Map, strides_of};
use knots::{Joined, count_below, loc_of};
use map_calls::Lent;
use multibspline::{AtPlace, by_place};
use rectilinear_basis::basis_span_weights;
use rectilinear_weights::{
    high_boundary_weights, high_ghost_coeffs, interp_weight_derivatives, low_boundary_weights,
    low_ghost_coeffs,
};
use shape::{Axes, Refusal, Shape};

// A query on an axis of knots, at a span of it: the ghost numbers of an end are worked out where the query lies at that end. The
// ends are asked for by name: a second caller of `interp_weights`, or of `inner_weights`, slows the batches by some percent.
#[derive(Clone, Copy)]
struct OwnWeights<'a> {
    knots: &'a [f64],
    span: usize,
    x: f64,
    ghost four: { 4 ≤ length knots.now },
    ghost inside: { span + 1 < length knots.now },
}

impl<'a> AtPlace for OwnWeights<'a> {
    ghost inner = { λ q. basis_span_weights binary64 q.knots.now q.span q.x };

    ghost low = { λ q straight. low_boundary_weights binary64 q.knots.now (low_ghost_coeffs binary64 q.knots.now) straight q.x };

    ghost high = { λ q straight. high_boundary_weights binary64 q.knots.now (high_ghost_coeffs binary64 q.knots.now) straight q.x };

    fn inner(self) -> [f64; 4] {
        basis_span_weights(self.knots, self.span, self.x)
    }

    fn low(self, straight: bool) -> [f64; 4] {
        low_boundary_weights(self.knots, self.x, straight, low_ghost_coeffs(self.knots))
    }

    fn high(self, straight: bool) -> [f64; 4] {
        high_boundary_weights(self.knots, self.x, straight, high_ghost_coeffs(self.knots))
    }
}

// The weights at x, with c knots below it.
fn own_weights(knots: &[f64], linear: bool, c: usize, x: f64) -> [f64; 4]
    requires { (4 ≤ length knots.now) × (c ≡ count_below knots.now x) }
    ensures { result ≡ place_weights binary64 knots.now (low_ghost_coeffs binary64 knots.now) (high_ghost_coeffs binary64 knots.now) linear x }
{
    let loc = loc_of(knots.len(), c);
    let span = loc.span;
    by_place(OwnWeights { knots, span, x }, loc.sat, linear)
}

// An axis by its knots alone.
#[derive(Clone, Copy)]
pub struct Knots<'a> {
    knots: &'a [f64],
    linear: bool,
    ghost four: { 4 ≤ length knots.now },
    ghost rising: { rises knots.now ≡ true },
}

impl<'a> Axis for Knots<'a> {
    type Place = usize;

    ghost view = { λ k. rectilinear_axis binary64 k.knots.now (low_ghost_coeffs binary64 k.knots.now) (high_ghost_coeffs binary64 k.knots.now) k.linear };

    ghost Kept = { λ k x c. c ≡ count_below k.knots.now x };

    fn blank() -> usize
        ensures { 32 * type_size usize < 2 ^ 63 }
    {
        0
    }

    fn place(self, x: f64) -> Option<(usize, usize)> {
        let c = count_below(self.knots, x);
        Some((loc_of(self.knots.len(), c).origin, c))
    }

    fn weights(self, c: usize, x: f64) -> [f64; 4] {
        own_weights(self.knots, self.linear, c, x)
    }

    fn slopes(self, c: usize, x: f64) -> [f64; 4] {
        let loc = loc_of(self.knots.len(), c);
        interp_weight_derivatives(
            self.knots,
            loc.span,
            x,
            loc.sat,
            self.linear,
            low_ghost_coeffs(self.knots),
            high_ghost_coeffs(self.knots),
        )
    }
}

// A map by its joined grid alone.
#[derive(Clone, Copy)]
pub struct OfGrid<'a> {
    count: usize,
    dims: [usize; 4],
    strides: [usize; 4],
    knots: &'a [f64],
    linear: bool,
    ghost ready: { Ready count dims strides },
    ghost gridded: { Gridded count dims knots.now },
}

impl<'a> Map for OfGrid<'a> {
    type Along = Knots<'a>;

    ghost view = { λ g. rectilinear_axes binary64 (of_grid binary64 g.count g.dims g.knots.now g.linear) g.knots.now };

    fn count(&self) -> usize {
        self.count
    }

    fn strides(&self) -> [usize; 4] {
        self.strides
    }

    fn axis(&self, a: usize) -> Knots<'a> {
        let axes = Axes {
            count: self.count,
            dims: self.dims,
        };
        let joined = Joined {
            axes,
            knots: self.knots,
        };
        Knots {
            knots: joined.along(a),
            linear: self.linear,
        }
    }
}

// What a caller lends who has the grid and no record.
#[derive(Clone, Copy)]
pub struct ByGrid<'a> {
    pub shape: Shape,
    pub grid: &'a [f64],
    pub linear: bool,
}

impl<'a> Lent for ByGrid<'a> {
    type Accepted = OfGrid<'a>;

    ghost view = { λ g. rectilinear_axes binary64 (of_grid binary64 g.shape.count g.shape.dims g.grid.now g.linear) g.grid.now };

    ghost checks = { λ g coefs. map_checks g.shape.count g.shape.dims g.grid.now coefs };

    fn accept(self, coeffs: usize) -> Result<OfGrid<'a>, Refusal> {
        let Shape { count, dims } = self.shape;
        let joined = looked_at(self.shape, self.grid, coeffs)?;
        Ok(OfGrid {
            count,
            dims,
            strides: strides_of(joined.axes),
            knots: self.grid,
            linear: self.linear,
        })
    }

    ghost positive = { λ g coefs. numbered g.shape.count g.shape.dims g.grid.now coefs };
}
