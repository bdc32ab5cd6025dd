// Stepwise fitting on a rectilinear grid: begin, the line call, the task list. `grid` has the knots of each axis, axis after
// axis.
ghost use Rattle.std.specs.Prelude.{length};
ghost use Rattle.std.specs.Float.{binary64};
ghost use Rattle.shape.specs.Refusal.{answer_number};
ghost use Rattle.knots.specs.Checks.{grid_check, knots_check};
ghost use Rattle.rectilinear.specs.Fit.{axis_system};
ghost use Rattle.book.specs.LineCall.{call_of, state_of};
ghost use Rattle.stepwise.specs.Rectilinear.{RectilinearBegun, RectilinearLineCalled, RectilinearRan};
ghost use Rattle.stepwise.specs.Laws.{grid-positive, knots-positive, looks};

use crate::list::fit_by_list;
use crate::spacing::Spacing;
use crate::steps::{begin, solve_line};
use knots::{Joined, knots_of_all};
use rectilinear::RectilinearGrid;
use shape::{Axes, Refusal, Shape};

// The points stand at knots, which are lent.
#[derive(Clone, Copy)]
struct AtKnots<'a> {
    grid: &'a [f64],
}

impl<'a> Spacing for AtKnots<'a> {
    type Accepted = RectilinearGrid<'a>;

    ghost grid_checks = { λ spacing dims. grid_check dims spacing.grid.now };

    ghost knots_checks = { λ spacing dims. knots_check dims spacing.grid.now };

    ghost rows = { λ spacing. axis_system binary64 spacing.grid.now };

    // 2 for the length of the joined grid.
    fn check_grid(self, axes: Axes) -> Result<(), Refusal> {
        if self.grid.len() != knots_of_all(axes) {
            return Err(Refusal::DimensionMismatch);
        }
        Ok(())
    }

    // 5 where a knot is not above the one before it on its axis.
    fn check_knots(self, axes: Axes) -> Result<(), Refusal> {
        let joined = Joined {
            axes,
            knots: self.grid,
        };
        if !joined.rises() {
            return Err(Refusal::NotIncreasing);
        }
        Ok(())
    }

    fn grid(self, axes: Axes) -> RectilinearGrid<'a> {
        let joined = Joined {
            axes,
            knots: self.grid,
        };
        RectilinearGrid { joined }
    }

    ghost grid_positive = { λ spacing dims. grid-positive dims spacing.grid.now };

    ghost knots_positive = { λ spacing dims. knots-positive dims spacing.grid.now };

    ghost looks = { λ spacing dims. looks dims spacing.grid.now binary64 };
}

// Begins a stepwise fit, with scratch by its length: begin writes nothing to it.
pub fn begin_rectilinear_by_len(
    shape: Shape,
    grid: &[f64],
    vals: &[f64],
    coeffs: &mut [f64],
    ledger: &mut [u8],
    scratch: usize,
) -> Result<(), Refusal>
    ensures { RectilinearBegun shape.count shape.dims grid.now vals.now (state_of coeffs.old ledger.old) scratch (answer_number result) (state_of coeffs.new ledger.new) }
{
    begin(shape, AtKnots { grid }, vals, coeffs, ledger, scratch)
}

// Begins a stepwise fit: the samples are copied to `coeffs`, and the ledger is zeroed. `vals`, `coeffs` and `ledger` have one
// cell a point, the last axis fastest; `scratch`, at least twice the longest axis, is checked and not written. Answers the
// first of these refusals, with nothing written: 1, the axis count is not 1 to 4; 2, an axis has fewer than 4 points; 3, more
// than 16,777,216 points; 2, the length of `grid`; 2, the length of `coeffs`; 2, the length of `ledger`; 5, a knot is not above
// the one before it on its axis; 2, the length of `vals`; 4, the length of `scratch`.
pub fn begin_rectilinear(
    shape: Shape,
    grid: &[f64],
    vals: &[f64],
    coeffs: &mut [f64],
    ledger: &mut [u8],
    scratch: &[f64],
) -> Result<(), Refusal>
    ensures { RectilinearBegun shape.count shape.dims grid.now vals.now
        (state_of coeffs.old ledger.old) (length scratch.now) (answer_number result)
        (state_of coeffs.new ledger.new) }
{
    begin_rectilinear_by_len(shape, grid, vals, coeffs, ledger, scratch.len())
}

// Solves one line that is due: its cells of `coeffs` become its coefficients, and 1 is added to its ledger bytes. No other
// coefficient or byte changes; `scratch` is left with the line's numbers. A line of axis a is due when each of its bytes is a.
// Answers the first of these refusals, with nothing written: 1, the axis count is not 1 to 4; 2, an axis has fewer than 4
// points; 3, more than 16,777,216 points; 2, the length of `grid`; 2, the length of `coeffs`; 2, the length of `ledger`; 5, a
// knot is not above the one before it on its axis; 4, `scratch` is shorter than twice the longest axis; 7, there is no such axis
// or line; 8, the line is solved already: some byte on it is above a; 9, the line is not due: none is above a, some are below.
pub fn solve_rectilinear_line(
    shape: Shape,
    grid: &[f64],
    axis: usize,
    line: usize,
    coeffs: &mut [f64],
    ledger: &mut [u8],
    scratch: &mut [f64],
) -> Result<(), Refusal>
    ensures { RectilinearLineCalled binary64 shape.count shape.dims grid.now
        (call_of axis line scratch.old) (state_of coeffs.old ledger.old) (answer_number result)
        (state_of coeffs.new ledger.new) scratch.new }
{
    solve_line(shape, AtKnots { grid }, axis, line, coeffs, ledger, scratch)
}

// Begins a fit and makes a list of line calls, one after the other: call i solves line `lines[i]` of axis `axes[i]`, and its
// answer goes into `answers[i]`, 0 where the line was solved. The list may have any order and any length, and a refused call
// changes nothing; the fit is finished when every ledger byte is the axis count. Answers the first of these refusals, with
// nothing written: those of `begin_rectilinear`; then 2, the length of `lines` is not that of `axes`; 2, nor is that of `answers`.
pub fn fit_rectilinear_by_list(
    shape: Shape,
    grid: &[f64],
    vals: &[f64],
    axes: &[usize],
    lines: &[usize],
    coeffs: &mut [f64],
    ledger: &mut [u8],
    scratch: &mut [f64],
    answers: &mut [u8],
) -> Result<(), Refusal>
    ensures { RectilinearRan binary64 shape.count shape.dims grid.now vals.now axes.now
        lines.now (state_of coeffs.old ledger.old) scratch.old answers.old
        (answer_number result) (state_of coeffs.new ledger.new) scratch.new answers.new }
{
    fit_by_list(
        shape,
        AtKnots { grid },
        vals,
        axes,
        lines,
        coeffs,
        ledger,
        scratch,
        answers,
    )
}
