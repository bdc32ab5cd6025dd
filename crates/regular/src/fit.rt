// The whole fit on a regular grid: its checks, and then axis after axis. Samples, coefficients and scratch are lent one by one, as
// interpn's caller lends them.
ghost use Rattle.std.specs.Float.{binary64};
ghost use Rattle.shape.specs.Axes.{AxesOnce};
ghost use Rattle.shape.specs.Checks.{regular_fit_checks, first_refusal};
ghost use Rattle.shape.specs.Refusal.{answer_number};
ghost use Rattle.regular.specs.Fit.{RegularFitted};

use crate::grid::RegularGrid;
use fits::fit;
use shape::{Axes, Refusal, Shape};

// The axes, once the checks of a fit have passed, from the lengths of its buffers. `rectilinear` has its own: its tests of the grid
// and of the knots stand between these, as the order of the refusals asks, and a trait of those two tests, with an instance for
// each grid, is longer than the three that both have.
fn check_fit(shape: Shape, vals: usize, coeffs: usize, scratch: usize) -> Result<Axes, Refusal>
    ensures { AxesOnce (first_refusal (regular_fit_checks shape.count shape.dims vals coeffs scratch)) shape.count shape.dims result }
{
    let axes = shape.axes()?;
    if coeffs != axes.points() {
        return Err(Refusal::DimensionMismatch);
    }
    if vals != axes.points() {
        return Err(Refusal::DimensionMismatch);
    }
    if scratch < axes.scratch_len() {
        return Err(Refusal::ScratchTooSmall);
    }
    Ok(axes)
}

// The coefficients of the map that has the given values at its grid points. They are written to `coeffs`; `vals` stays as
// it is. `coeffs` and `vals` have one cell a point, the last axis fastest, and `scratch` at least twice the longest axis,
// whatever it holds. Answers the first of these refusals, with `coeffs` and `scratch` untouched: 1, the axis count is not
// 1 to 4; 2, an axis has fewer than 4 points; 3, more than 16,777,216 points; 2, the length of `coeffs`; 2, the length of
// `vals`; 4, the length of `scratch`.
pub fn coefficients(
    shape: Shape,
    vals: &[f64],
    coeffs: &mut [f64],
    scratch: &mut [f64],
) -> Result<(), Refusal>
    ensures { RegularFitted binary64 shape.count shape.dims vals.now coeffs.old scratch.old (answer_number result) coeffs.new scratch.new }
{
    // What both grids do from here on is `fits::fit`.
    let axes = check_fit(shape, vals.len(), coeffs.len(), scratch.len())?;
    fit(RegularGrid { axes }, vals, coeffs, scratch);
    Ok(())
}
