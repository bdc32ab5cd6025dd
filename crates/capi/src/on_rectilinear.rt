// Maps on a rectilinear grid: `grid` has the knots of each axis, axis after axis.
ghost use Rattle.std.specs.Prelude.{◌≡◌, length};
ghost use Rattle.std.specs.Float.{binary64};
ghost use Rattle.evaluation.specs.Axes.{query};
ghost use Rattle.evaluation.specs.Spline.{one_answer};
ghost use Rattle.evaluation.specs.Batch.{gradient_step, ValueBatch, GradientBatch};
ghost use Rattle.rectilinear.specs.Fit.{RectilinearFitted};
ghost use Rattle.rectilinear_blocks.specs.Eval.{map_answer};
ghost use Rattle.capi_parts.specs.Inputs.{lens_of, is_on};
ghost use Rattle.capi_parts.specs.Outputs.{Wrote};
ghost use Rattle.capi_parts.specs.Splines.{with_slopes};
ghost use Rattle.capi_parts.specs.Rectilinear.{rectilinear_spline};

use capi_parts::{check, gradient, number, shape_of, value_at};
use map_calls::{interp, interp_grad};
use rectilinear_map::{ByGrid, WithGhosts};

#[unsafe(no_mangle)]
pub extern "C" fn corvezan_rectilinear_fit(
    dims: &[usize],
    grid: &[f64],
    vals: &[f64],
    coeffs: &mut [f64],
    scratch: &mut [f64],
) -> u32
    ensures { RectilinearFitted binary64 (length dims.now) (lens_of dims.now) grid.now vals.now coeffs.old scratch.old result coeffs.new scratch.new }
{
    let shape = shape_of(dims);
    number(rectilinear::coefficients(shape, grid, vals, coeffs, scratch))
}

#[unsafe(no_mangle)]
pub extern "C" fn corvezan_rectilinear_check(dims: &[usize], grid: &[f64], coeffs_len: usize) -> u32
    ensures { result ≡ map_answer (length dims.now) (lens_of dims.now) grid.now coeffs_len }
{
    let map = ByGrid {
        shape: shape_of(dims),
        grid,
        linear: false,
    };
    number(check(map, coeffs_len))
}

#[unsafe(no_mangle)]
pub extern "C" fn corvezan_rectilinear_value(
    dims: &[usize],
    grid: &[f64],
    linear: u32,
    coeffs: &[f64],
    x: &[f64],
    value: &mut f64,
) -> u32
    ensures { Wrote
        (one_answer (rectilinear_spline binary64 dims.now grid.now (is_on linear) coeffs.now) x.now)
        ((rectilinear_spline binary64 dims.now grid.now (is_on linear) coeffs.now).value (query (length dims.now) x.now 1 0))
        value.old result value.new }
{
    let map = ByGrid {
        shape: shape_of(dims),
        grid,
        linear: linear != 0,
    };
    number(value_at(map, coeffs, x, value))
}

#[unsafe(no_mangle)]
pub extern "C" fn corvezan_rectilinear_gradient(
    dims: &[usize],
    grid: &[f64],
    linear: u32,
    coeffs: &[f64],
    x: &[f64],
    slopes: &mut [f64],
) -> u32
    ensures { Wrote
        (one_answer (with_slopes (length slopes.old) (rectilinear_spline binary64 dims.now grid.now (is_on linear) coeffs.now)) x.now)
        (gradient_step (rectilinear_spline binary64 dims.now grid.now (is_on linear) coeffs.now) x.now 1 0 slopes.old)
        slopes.old result slopes.new }
{
    let map = WithGhosts {
        shape: shape_of(dims),
        grid,
        linear: linear != 0,
    };
    number(gradient(map, coeffs, x, slopes))
}

#[unsafe(no_mangle)]
pub extern "C" fn corvezan_rectilinear_values(
    dims: &[usize],
    grid: &[f64],
    linear: u32,
    coeffs: &[f64],
    x: &[f64],
    values: &mut [f64],
) -> u32
    ensures { ValueBatch (rectilinear_spline binary64 dims.now grid.now (is_on linear) coeffs.now) x.now values.old result values.new }
{
    let map = WithGhosts {
        shape: shape_of(dims),
        grid,
        linear: linear != 0,
    };
    number(interp(map, coeffs, x, values))
}

#[unsafe(no_mangle)]
pub extern "C" fn corvezan_rectilinear_gradients(
    dims: &[usize],
    grid: &[f64],
    linear: u32,
    coeffs: &[f64],
    x: &[f64],
    slopes: &mut [f64],
) -> u32
    ensures { GradientBatch (rectilinear_spline binary64 dims.now grid.now (is_on linear) coeffs.now) x.now slopes.old result slopes.new }
{
    let map = WithGhosts {
        shape: shape_of(dims),
        grid,
        linear: linear != 0,
    };
    number(interp_grad(map, coeffs, x, slopes))
}
