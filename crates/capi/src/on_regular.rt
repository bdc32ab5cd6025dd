// Maps on a regular grid: `grid` has the start of each axis, then the step of each axis.
ghost use Rattle.std.specs.Prelude.{◌≡◌, length};
ghost use Rattle.std.specs.Float.{binary64};
ghost use Rattle.shape.specs.Checks.{first_refusal};
ghost use Rattle.evaluation.specs.Axes.{query};
ghost use Rattle.evaluation.specs.Spline.{one_answer};
ghost use Rattle.evaluation.specs.Batch.{gradient_step, ValueBatch, GradientBatch};
ghost use Rattle.regular.specs.Fit.{RegularFitted};
ghost use Rattle.capi_parts.specs.Inputs.{lens_of, is_on};
ghost use Rattle.capi_parts.specs.Outputs.{Wrote};
ghost use Rattle.capi_parts.specs.Splines.{with_slopes};
ghost use Rattle.capi_parts.specs.Regular.{regular_checks, regular_spline, FromValues};

use capi_parts::{RegularFromC, check, from_values, gradient, number, shape_of, value_at};
use map_calls::{interp, interp_grad};

#[unsafe(no_mangle)]
pub extern "C" fn corvezan_regular_fit(
    dims: &[usize],
    vals: &[f64],
    coeffs: &mut [f64],
    scratch: &mut [f64],
) -> u32
    ensures { RegularFitted binary64 (length dims.now) (lens_of dims.now) vals.now coeffs.old scratch.old result coeffs.new scratch.new }
{
    let shape = shape_of(dims);
    number(regular::coefficients(shape, vals, coeffs, scratch))
}

#[unsafe(no_mangle)]
pub extern "C" fn corvezan_regular_check(dims: &[usize], grid: &[f64], coeffs_len: usize) -> u32
    ensures { result ≡ first_refusal (regular_checks dims.now grid.now coeffs_len) }
{
    let map = RegularFromC {
        dims,
        grid,
        linear: false,
    };
    number(check(map, coeffs_len))
}

#[unsafe(no_mangle)]
pub extern "C" fn corvezan_regular_from_values(
    dims: &[usize],
    grid: &[f64],
    vals: &[f64],
    coeffs: &mut [f64],
    scratch: &mut [f64],
) -> u32
    ensures { FromValues binary64 dims.now grid.now vals.now coeffs.old scratch.old result coeffs.new scratch.new }
{
    number(from_values(dims, grid, vals, coeffs, scratch))
}

#[unsafe(no_mangle)]
pub extern "C" fn corvezan_regular_value(
    dims: &[usize],
    grid: &[f64],
    linear: u32,
    coeffs: &[f64],
    x: &[f64],
    value: &mut f64,
) -> u32
    ensures { Wrote
        (one_answer (regular_spline binary64 dims.now grid.now (is_on linear) coeffs.now) x.now)
        ((regular_spline binary64 dims.now grid.now (is_on linear) coeffs.now).value (query (length dims.now) x.now 1 0))
        value.old result value.new }
{
    let map = RegularFromC {
        dims,
        grid,
        linear: linear != 0,
    };
    number(value_at(map, coeffs, x, value))
}

#[unsafe(no_mangle)]
pub extern "C" fn corvezan_regular_gradient(
    dims: &[usize],
    grid: &[f64],
    linear: u32,
    coeffs: &[f64],
    x: &[f64],
    slopes: &mut [f64],
) -> u32
    ensures { Wrote
        (one_answer (with_slopes (length slopes.old) (regular_spline binary64 dims.now grid.now (is_on linear) coeffs.now)) x.now)
        (gradient_step (regular_spline binary64 dims.now grid.now (is_on linear) coeffs.now) x.now 1 0 slopes.old)
        slopes.old result slopes.new }
{
    let map = RegularFromC {
        dims,
        grid,
        linear: linear != 0,
    };
    number(gradient(map, coeffs, x, slopes))
}

#[unsafe(no_mangle)]
pub extern "C" fn corvezan_regular_values(
    dims: &[usize],
    grid: &[f64],
    linear: u32,
    coeffs: &[f64],
    x: &[f64],
    values: &mut [f64],
) -> u32
    ensures { ValueBatch (regular_spline binary64 dims.now grid.now (is_on linear) coeffs.now) x.now values.old result values.new }
{
    let map = RegularFromC {
        dims,
        grid,
        linear: linear != 0,
    };
    number(interp(map, coeffs, x, values))
}

#[unsafe(no_mangle)]
pub extern "C" fn corvezan_regular_gradients(
    dims: &[usize],
    grid: &[f64],
    linear: u32,
    coeffs: &[f64],
    x: &[f64],
    slopes: &mut [f64],
) -> u32
    ensures { GradientBatch (regular_spline binary64 dims.now grid.now (is_on linear) coeffs.now) x.now slopes.old result slopes.new }
{
    let map = RegularFromC {
        dims,
        grid,
        linear: linear != 0,
    };
    number(interp_grad(map, coeffs, x, slopes))
}
