// Stepwise fitting on a rectilinear grid: `grid` has the knots of each axis, axis after axis.
ghost use Rattle.std.specs.Prelude.{length};
ghost use Rattle.std.specs.Float.{binary64};
ghost use Rattle.book.specs.LineCall.{call_of, state_of};
ghost use Rattle.stepwise.specs.Rectilinear.{RectilinearBegun, RectilinearLineCalled, RectilinearRan};
ghost use Rattle.capi_parts.specs.Inputs.{lens_of};

use capi_parts::{number, shape_of};

#[unsafe(no_mangle)]
pub extern "C" fn corvezan_rectilinear_begin(
    dims: &[usize],
    grid: &[f64],
    vals: &[f64],
    coeffs: &mut [f64],
    ledger: &mut [u8],
    scratch_len: usize,
) -> u32
    ensures { RectilinearBegun (length dims.now) (lens_of dims.now) grid.now vals.now
        (state_of coeffs.old ledger.old) scratch_len result
        (state_of coeffs.new ledger.new) }
{
    let shape = shape_of(dims);
    number(stepwise::begin_rectilinear_by_len(shape, grid, vals, coeffs, ledger, scratch_len))
}

#[unsafe(no_mangle)]
pub extern "C" fn corvezan_rectilinear_line(
    dims: &[usize],
    grid: &[f64],
    axis: usize,
    line: usize,
    coeffs: &mut [f64],
    ledger: &mut [u8],
    scratch: &mut [f64],
) -> u32
    ensures { RectilinearLineCalled binary64 (length dims.now) (lens_of dims.now) grid.now
        (call_of axis line scratch.old) (state_of coeffs.old ledger.old) result
        (state_of coeffs.new ledger.new) scratch.new }
{
    let shape = shape_of(dims);
    number(stepwise::solve_rectilinear_line(shape, grid, axis, line, coeffs, ledger, scratch))
}

#[unsafe(no_mangle)]
pub extern "C" fn corvezan_rectilinear_list(
    dims: &[usize],
    grid: &[f64],
    vals: &[f64],
    task_axes: &[usize],
    task_lines: &[usize],
    coeffs: &mut [f64],
    ledger: &mut [u8],
    scratch: &mut [f64],
    answers: &mut [u8],
) -> u32
    ensures { RectilinearRan binary64 (length dims.now) (lens_of dims.now) grid.now
        vals.now task_axes.now task_lines.now
        (state_of coeffs.old ledger.old) scratch.old answers.old result
        (state_of coeffs.new ledger.new) scratch.new answers.new }
{
    let shape = shape_of(dims);
    number(stepwise::fit_rectilinear_by_list(
        shape, grid, vals, task_axes, task_lines, coeffs, ledger, scratch, answers,
    ))
}
