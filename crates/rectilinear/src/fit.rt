// The whole fit on a rectilinear grid: its checks, and then axis after axis. Knots, samples, coefficients and scratch are lent one
// by one, as interpn's caller lends them.
ghost use Rattle.std.specs.Float.{binary64};
ghost use Rattle.shape.specs.Axes.{AxesOnce};
ghost use Rattle.shape.specs.Checks.{first_refusal};
ghost use Rattle.shape.specs.Refusal.{answer_number};
ghost use Rattle.rectilinear.specs.Fit.{rectilinear_fit_checks, RectilinearFitted};

use crate::grid::RectilinearGrid;
use fits::fit;
use knots::{Joined, knots_of_all};
use shape::{Axes, Refusal, Shape};

// The axes, once the checks of a fit have passed, from the joined grid and the lengths of its buffers. No twin of the regular
// grid's: its tests of the grid and of the knots stand between the others, as the order of the refusals asks (regular/src/fit.rt).
fn check_fit(
    shape: Shape,
    grid: &[f64],
    vals: usize,
    coeffs: usize,
    scratch: usize,
) -> Result<Axes, Refusal>
    ensures { AxesOnce (first_refusal (rectilinear_fit_checks shape.count shape.dims grid.now vals coeffs scratch)) shape.count shape.dims result }
{
    let axes = shape.axes()?;
    let knots = grid.len();
    if knots != knots_of_all(axes) {
        return Err(Refusal::DimensionMismatch);
    }
    if coeffs != axes.points() {
        return Err(Refusal::DimensionMismatch);
    }
    let joined = Joined { axes, knots: grid };
    if !joined.rises() {
        return Err(Refusal::NotIncreasing);
    }
    if vals != axes.points() {
        return Err(Refusal::DimensionMismatch);
    }
    if scratch < axes.scratch_len() {
        return Err(Refusal::ScratchTooSmall);
    }
    Ok(axes)
}

// The coefficients of the map that has the given values at its grid points. They are written to `coeffs`; `vals` and `grid`
// stay as they are. `grid` has the knots of each axis, axis after axis. `coeffs` and `vals` have one cell a point, the last
// axis fastest, and `scratch` at least twice the longest axis, whatever it holds. Answers the first of these refusals, with
// `coeffs` and `scratch` untouched: 1, the axis count is not 1 to 4; 2, an axis has fewer than 4 points; 3, more than
// 16,777,216 points; 2, the length of `grid`; 2, the length of `coeffs`; 5, a knot is not above the one before it on its axis;
// 2, the length of `vals`; 4, the length of `scratch`.
pub fn coefficients(
    shape: Shape,
    grid: &[f64],
    vals: &[f64],
    coeffs: &mut [f64],
    scratch: &mut [f64],
) -> Result<(), Refusal>
    ensures { RectilinearFitted binary64 shape.count shape.dims grid.now vals.now coeffs.old scratch.old (answer_number result) coeffs.new scratch.new }
{
    // What both grids do from here on is `fits::fit`.
    let axes = check_fit(shape, grid, vals.len(), coeffs.len(), scratch.len())?;
    let joined = Joined { axes, knots: grid };
    fit(RectilinearGrid { joined }, vals, coeffs, scratch);
    Ok(())
}
