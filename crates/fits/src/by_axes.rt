// The whole fit: the lines of each axis solved in turn, axis 0 first.
ghost use Rattle.std.specs.Prelude.{◌≡◌, ◌<◌, length};
ghost use Rattle.std.specs.Float.{binary64, nan};
ghost use Rattle.shape.specs.Shape.{points};
ghost use Rattle.shape.specs.Cells.{write_line};
ghost use Rattle.shape.specs.Fit.{line_scratch, solve_axis, axis_scratch};
ghost use Rattle.shape.specs.Line.{LineFits};
ghost use Rattle.multibspline.specs.Records.{samples};
ghost use Rattle.fits.specs.Fit.{solve, upper, fitted, left_in_scratch, FitRoom};

use crate::grid::Grid;
use lanes::{AxisLines, solve_lines};
use lines::solve_checked;
use multibspline::copy;
use shape::Line;

// A line of an axis, by its numbers.
pub fn solve_found<G: Grid>(
    grid: G,
    axis: usize,
    found: Line,
    coeffs: &mut [f64],
    scratch: &mut [f64],
)
    requires is_axis { (axis < length (G.dims grid)) × (found.n ≡ points (G.dims grid) axis) }
    requires line_fits { LineFits found (length coeffs.old) (length scratch.old) }
    ensures coeffs_after { coeffs.new ≡ write_line found.base found.stride
        (solve binary64 (G.rows grid) axis (samples found coeffs.old)) found.n coeffs.old }
    ensures scratch_after { scratch.new ≡ line_scratch found.longest
        (upper binary64 (G.rows grid) axis (samples found coeffs.old))
        (solve binary64 (G.rows grid) axis (samples found coeffs.old)) found.n scratch.old }
{
    solve_checked(grid.axis(axis), found, coeffs, scratch);
}

// All the lines of one axis.
fn solve_axis<G: Grid>(grid: G, axis: usize, coeffs: &mut [f64], scratch: &mut [f64])
    requires is_axis { axis < length (G.dims grid) }
    requires room { FitRoom (G.dims grid) (length coeffs.old) (length scratch.old) }
    ensures coeffs_after { coeffs.new ≡ solve_axis nan (solve binary64 (G.rows grid)) (G.dims grid) axis coeffs.old }
    ensures scratch_after { scratch.new ≡ axis_scratch nan (upper binary64 (G.rows grid)) (solve binary64 (G.rows grid)) (G.dims grid) axis coeffs.old scratch.old }
{
    let axes = grid.axes();
    let lines = AxisLines {
        system: grid.axis(axis),
        stride: axes.stride(axis),
        count: axes.lines(axis),
        longest: axes.longest(),
    };
    solve_lines(lines, coeffs, scratch);
}

// All the axes, from the samples in `coeffs`.
fn solve_axes<G: Grid>(grid: G, coeffs: &mut [f64], scratch: &mut [f64])
    requires { FitRoom (G.dims grid) (length coeffs.old) (length scratch.old) }
    ensures coeffs_after { coeffs.new ≡ fitted binary64 (G.rows grid) (G.dims grid) coeffs.old }
    ensures scratch_after { scratch.new ≡ left_in_scratch binary64 (G.rows grid) (G.dims grid) coeffs.old scratch.old }
{
    // counted: an axis is known by its number
    for axis in 0..grid.axes().count {
        solve_axis(grid, axis, coeffs, scratch);
    }
}

// The coefficients of the map that has the given values at its grid points, from buffers whose lengths are checked.
pub fn fit<G: Grid>(grid: G, vals: &[f64], coeffs: &mut [f64], scratch: &mut [f64])
    requires samples { length vals.now ≡ length coeffs.old }
    requires room { FitRoom (G.dims grid) (length coeffs.old) (length scratch.old) }
    ensures coeffs_after { coeffs.new ≡ fitted binary64 (G.rows grid) (G.dims grid) vals.now }
    ensures scratch_after { scratch.new ≡ left_in_scratch binary64 (G.rows grid) (G.dims grid) vals.now scratch.old }
{
    copy(vals, coeffs);
    solve_axes(grid, coeffs, scratch);
}
