// The four weights of a query on a rectilinear axis, and their slopes.
ghost use Rattle.std.specs.Prelude.{◌≡◌, ◌+◌, ◌-◌, ◌<◌, ◌≤◌, ℕ, cond, length, List, Float};
ghost use Rattle.std.specs.Float.{binary64};
ghost use Rattle.multibspline.specs.Thomas.{at};
ghost use Rattle.rectilinear_basis.specs.Basis.{basis_span_weights};
ghost use Rattle.rectilinear_slopes.specs.Slopes.{basis_span_weight_derivatives};
ghost use Rattle.rectilinear_weights.specs.Records.{ghost_numbers};
ghost use Rattle.rectilinear_weights.specs.Weights.{
  fold_low,
  fold_high,
  linearized_boundary_weights,
  low_boundary_weights,
  high_boundary_weights,
  interp_weights,
  interp_weight_derivatives,
};

use crate::ghosts::Ghost;
use interp_math::mul_add;
use multibspline::{AtPlace, Saturation, by_place};
use rectilinear_basis::basis_span_weights;
use rectilinear_slopes::basis_span_weight_derivatives;

// The folds stand once for each end: which entry is zero and which ones are added to differs, not a number, so that one
// function for both ends would hold both formulas.

// The low ghost coefficient, folded into the stored ones.
fn fold_low(low_ghost: Ghost, raw: [f64; 4]) -> [f64; 4]
    ensures { result ≡ fold_low binary64 (ghost_numbers low_ghost) raw }
{
    [
        mul_add(raw[0], low_ghost.p0, raw[1]),
        mul_add(raw[0], low_ghost.p1, raw[2]),
        mul_add(raw[0], low_ghost.p2, raw[3]),
        0.0,
    ]
}

// The high ghost coefficient, folded into the stored ones.
fn fold_high(high_ghost: Ghost, raw: [f64; 4]) -> [f64; 4]
    ensures { result ≡ fold_high binary64 (ghost_numbers high_ghost) raw }
{
    [
        0.0,
        mul_add(raw[3], high_ghost.p0, raw[0]),
        mul_add(raw[3], high_ghost.p1, raw[1]),
        mul_add(raw[3], high_ghost.p2, raw[2]),
    ]
}

// The straight line from an end: the weights there and, times the distance, their slopes.
fn linearized_boundary_weights(grid: &[f64], span: usize, endpoint: f64, x: f64) -> [f64; 4]
    requires { (4 ≤ length grid.now) × (span + 1 < length grid.now) }
    ensures { result ≡ linearized_boundary_weights binary64 grid.now span endpoint x }
{
    let weights = basis_span_weights(grid, span, endpoint);
    let derivs = basis_span_weight_derivatives(grid, span, endpoint);
    let dx = x - endpoint;
    [
        mul_add(dx, derivs[0], weights[0]),
        mul_add(dx, derivs[1], weights[1]),
        mul_add(dx, derivs[2], weights[2]),
        mul_add(dx, derivs[3], weights[3]),
    ]
}

// What is asked of a query, its weights or their slopes: those of a span at x, and those of the straight line from an end of it.
trait Asked: Copy {
    ghost on_span: { List Float → ℕ → Float → List Float };

    ghost line: { List Float → ℕ → Float → Float → List Float };

    fn on_span(self, grid: &[f64], span: usize, x: f64) -> [f64; 4]
        requires { (4 ≤ length grid.now) × (span + 1 < length grid.now) }
        ensures { result ≡ on_span grid.now span x };

    fn line(self, grid: &[f64], span: usize, endpoint: f64, x: f64) -> [f64; 4]
        requires { (4 ≤ length grid.now) × (span + 1 < length grid.now) }
        ensures { result ≡ line grid.now span endpoint x };
}

#[derive(Clone, Copy)]
struct Weights;

#[derive(Clone, Copy)]
struct Slopes;

impl Asked for Weights {
    ghost on_span = { basis_span_weights binary64 };

    ghost line = { linearized_boundary_weights binary64 };

    fn on_span(self, grid: &[f64], span: usize, x: f64) -> [f64; 4] {
        basis_span_weights(grid, span, x)
    }

    fn line(self, grid: &[f64], span: usize, endpoint: f64, x: f64) -> [f64; 4] {
        linearized_boundary_weights(grid, span, endpoint, x)
    }
}

// A straight line has the slope at the end.
impl Asked for Slopes {
    ghost on_span = { basis_span_weight_derivatives binary64 };

    ghost line = { λ ks span endpoint x. basis_span_weight_derivatives binary64 ks span endpoint };

    fn on_span(self, grid: &[f64], span: usize, x: f64) -> [f64; 4] {
        basis_span_weight_derivatives(grid, span, x)
    }

    fn line(self, grid: &[f64], span: usize, endpoint: f64, _x: f64) -> [f64; 4] {
        basis_span_weight_derivatives(grid, span, endpoint)
    }
}

// The low end: interpn's low_boundary_weights and low_boundary_weight_derivatives. The high end has other knots, another span and a
// fold of its own.
fn low_end<A: Asked>(asked: A, grid: &[f64], x: f64, straight: bool, low_ghost: Ghost) -> [f64; 4]
    requires { 4 ≤ length grid.now }
    ensures { result ≡ fold_low binary64 (ghost_numbers low_ghost)
        (cond straight (A.line grid.now 0 (at grid.now 0) x) (A.on_span grid.now 0 x)) }
{
    if straight {
        return fold_low(low_ghost, asked.line(grid, 0, grid[0], x));
    }
    fold_low(low_ghost, asked.on_span(grid, 0, x))
}

// The high end likewise.
fn high_end<A: Asked>(asked: A, grid: &[f64], x: f64, straight: bool, high_ghost: Ghost) -> [f64; 4]
    requires { 4 ≤ length grid.now }
    ensures { let n = length grid.now in result ≡ fold_high binary64 (ghost_numbers high_ghost)
        (cond straight (A.line grid.now (n - 2) (at grid.now (n - 1)) x) (A.on_span grid.now (n - 2) x)) }
{
    let n = grid.len();
    if straight {
        return fold_high(high_ghost, asked.line(grid, n - 2, grid[n - 1], x));
    }
    fold_high(high_ghost, asked.on_span(grid, n - 2, x))
}

pub fn low_boundary_weights(
    grid: &[f64],
    x: f64,
    linearize_extrapolation: bool,
    low_ghost: Ghost,
) -> [f64; 4]
    requires { 4 ≤ length grid.now }
    ensures { result ≡ low_boundary_weights binary64 grid.now (ghost_numbers low_ghost) linearize_extrapolation x }
{
    low_end(Weights, grid, x, linearize_extrapolation, low_ghost)
}

pub fn high_boundary_weights(
    grid: &[f64],
    x: f64,
    linearize_extrapolation: bool,
    high_ghost: Ghost,
) -> [f64; 4]
    requires { 4 ≤ length grid.now }
    ensures { result ≡ high_boundary_weights binary64 grid.now (ghost_numbers high_ghost) linearize_extrapolation x }
{
    high_end(Weights, grid, x, linearize_extrapolation, high_ghost)
}

// A query, and what is asked of it.
#[derive(Drop)]
struct Query<'a, A> {
    asked: A,
    grid: &'a [f64],
    span: usize,
    x: f64,
    low_ghost: Ghost,
    high_ghost: Ghost,
    ghost inside: { (4 ≤ length grid.now) × (span + 1 < length grid.now) },
}

impl<'a, A: Asked> AtPlace for Query<'a, A> {
    ghost inner = { λ q. A.on_span q.grid.now q.span q.x };

    ghost low = { λ q straight. fold_low binary64 (ghost_numbers q.low_ghost)
        (cond straight (A.line q.grid.now 0 (at q.grid.now 0) q.x) (A.on_span q.grid.now 0 q.x)) };

    ghost high = { λ q straight. let n = length q.grid.now in fold_high binary64 (ghost_numbers q.high_ghost)
        (cond straight (A.line q.grid.now (n - 2) (at q.grid.now (n - 1)) q.x) (A.on_span q.grid.now (n - 2) q.x)) };

    fn inner(self) -> [f64; 4] {
        self.asked.on_span(self.grid, self.span, self.x)
    }

    fn low(self, straight: bool) -> [f64; 4] {
        low_end(self.asked, self.grid, self.x, straight, self.low_ghost)
    }

    fn high(self, straight: bool) -> [f64; 4] {
        high_end(self.asked, self.grid, self.x, straight, self.high_ghost)
    }
}

// The weights at a place. This and the slopes are interpn's two functions, with its parameters; what they share is `Query` and
// `by_place`.
pub fn interp_weights(
    grid: &[f64],
    span: usize,
    x: f64,
    sat: Saturation,
    linearize_extrapolation: bool,
    low_ghost: Ghost,
    high_ghost: Ghost,
) -> [f64; 4]
    requires { (4 ≤ length grid.now) × (span + 1 < length grid.now) }
    ensures { result ≡ interp_weights binary64 grid.now (ghost_numbers low_ghost) (ghost_numbers high_ghost) linearize_extrapolation span x sat }
{
    let query = Query {
        asked: Weights,
        grid,
        span,
        x,
        low_ghost,
        high_ghost,
    };
    by_place(query, sat, linearize_extrapolation)
}

// The slopes at a place.
pub fn interp_weight_derivatives(
    grid: &[f64],
    span: usize,
    x: f64,
    sat: Saturation,
    linearize_extrapolation: bool,
    low_ghost: Ghost,
    high_ghost: Ghost,
) -> [f64; 4]
    requires { (4 ≤ length grid.now) × (span + 1 < length grid.now) }
    ensures { result ≡ interp_weight_derivatives binary64 grid.now (ghost_numbers low_ghost) (ghost_numbers high_ghost) linearize_extrapolation span x sat }
{
    let query = Query {
        asked: Slopes,
        grid,
        span,
        x,
        low_ghost,
        high_ghost,
    };
    by_place(query, sat, linearize_extrapolation)
}
