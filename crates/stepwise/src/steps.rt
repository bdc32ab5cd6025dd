// Begin and the line call, on any grid.
ghost use Rattle.std.specs.Prelude.{◌≡◌, length, take};
ghost use Rattle.std.specs.Float.{binary64, nan};
ghost use Rattle.shape.specs.Checks.{first_refusal};
ghost use Rattle.shape.specs.Axes.{AxesOnce};
ghost use Rattle.shape.specs.Refusal.{answer_number};
ghost use Rattle.fits.specs.Fit.{solve, upper};
ghost use Rattle.ledger.specs.Ready.{ready_checks, call_ready_checks};
ghost use Rattle.book.specs.LineCall.{begin_answer, call_of, state_of};
ghost use Rattle.stepwise.specs.Calls.{Begun, LineCalled};

use crate::spacing::Spacing;
use fits::solve_found;
use ledger::{bump_line, check_held, check_lent, check_scratch, find_due, start};
use shape::{Axes, Refusal, Shape};

// What begin and the line call check first: the shape, the grid, the lengths of the coefficients and the ledger, and the knots. This
// and the checks of begin are compiled into the calls: the axes that a check has accepted are then not laid out once more on the stack.
#[inline(always)]
fn check_ready<S: Spacing>(
    shape: Shape,
    spacing: S,
    coeffs: usize,
    ledger: usize,
) -> Result<Axes, Refusal>
    ensures { AxesOnce (first_refusal (ready_checks shape.count shape.dims
        (S.grid_checks spacing (take shape.count shape.dims)) (S.knots_checks spacing (take shape.count shape.dims)) coeffs ledger)) shape.count shape.dims result }
{
    let axes = shape.axes()?;
    spacing.check_grid(axes)?;
    check_held(axes, coeffs, ledger)?;
    spacing.check_knots(axes)?;
    Ok(axes)
}

// The checks of begin, from the lengths of its buffers.
#[inline(always)]
pub fn check_begin<S: Spacing>(
    shape: Shape,
    spacing: S,
    vals: usize,
    coeffs: usize,
    ledger: usize,
    scratch: usize,
) -> Result<Axes, Refusal>
    ensures { AxesOnce (begin_answer shape.count shape.dims
        (S.grid_checks spacing (take shape.count shape.dims)) (S.knots_checks spacing (take shape.count shape.dims)) vals coeffs ledger scratch) shape.count shape.dims result }
{
    let axes = check_ready(shape, spacing, coeffs, ledger)?;
    check_lent(axes, vals, scratch)?;
    Ok(axes)
}

// Begins a stepwise fit, with scratch by its length: begin writes nothing to it.
pub fn begin<S: Spacing>(
    shape: Shape,
    spacing: S,
    vals: &[f64],
    coeffs: &mut [f64],
    ledger: &mut [u8],
    scratch: usize,
) -> Result<(), Refusal>
    ensures { Begun shape.count shape.dims (S.grid_checks spacing (take shape.count shape.dims)) (S.knots_checks spacing (take shape.count shape.dims))
        vals.now (state_of coeffs.old ledger.old) scratch (answer_number result) (state_of coeffs.new ledger.new) }
{
    check_begin(
        shape,
        spacing,
        vals.len(),
        coeffs.len(),
        ledger.len(),
        scratch,
    )?;
    start(vals, coeffs, ledger);
    Ok(())
}

// All that a line call checks but the line itself, from the lengths of its buffers.
fn check_call<S: Spacing>(
    shape: Shape,
    spacing: S,
    coeffs: usize,
    ledger: usize,
    scratch: usize,
) -> Result<Axes, Refusal>
    ensures { AxesOnce (first_refusal (call_ready_checks shape.count shape.dims
        (S.grid_checks spacing (take shape.count shape.dims)) (S.knots_checks spacing (take shape.count shape.dims)) coeffs ledger scratch)) shape.count shape.dims result }
{
    let axes = check_ready(shape, spacing, coeffs, ledger)?;
    check_scratch(axes, scratch)?;
    Ok(axes)
}

// A line call whose other checks have passed: what is left to check is the line.
pub fn call_ready<S: Spacing>(
    axes: Axes,
    spacing: S,
    axis: usize,
    line: usize,
    coeffs: &mut [f64],
    ledger: &mut [u8],
    scratch: &mut [f64],
) -> Result<(), Refusal>
    requires { first_refusal (call_ready_checks axes.count axes.dims
        (S.grid_checks spacing (take axes.count axes.dims)) (S.knots_checks spacing (take axes.count axes.dims))
        (length coeffs.old) (length ledger.old) (length scratch.old)) ≡ 0 }
    ensures { LineCalled axes.count axes.dims (S.grid_checks spacing (take axes.count axes.dims)) (S.knots_checks spacing (take axes.count axes.dims))
        nan (upper binary64 (S.rows spacing (take axes.count axes.dims))) (solve binary64 (S.rows spacing (take axes.count axes.dims)))
        (call_of axis line scratch.old) (state_of coeffs.old ledger.old) (answer_number result)
        (state_of coeffs.new ledger.new) scratch.new }
{
    let found = find_due(axes, axis, line, ledger)?;
    let grid = spacing.grid(axes);
    solve_found(grid, axis, found, coeffs, scratch);
    bump_line(axis, found, ledger);
    Ok(())
}

// Solves one line that is due.
pub fn solve_line<S: Spacing>(
    shape: Shape,
    spacing: S,
    axis: usize,
    line: usize,
    coeffs: &mut [f64],
    ledger: &mut [u8],
    scratch: &mut [f64],
) -> Result<(), Refusal>
    ensures { LineCalled shape.count shape.dims (S.grid_checks spacing (take shape.count shape.dims)) (S.knots_checks spacing (take shape.count shape.dims))
        nan (upper binary64 (S.rows spacing (take shape.count shape.dims))) (solve binary64 (S.rows spacing (take shape.count shape.dims)))
        (call_of axis line scratch.old) (state_of coeffs.old ledger.old) (answer_number result)
        (state_of coeffs.new ledger.new) scratch.new }
{
    let axes = check_call(shape, spacing, coeffs.len(), ledger.len(), scratch.len())?;
    call_ready(axes, spacing, axis, line, coeffs, ledger, scratch)
}
