// Stepwise fitting on a regular grid: begin, the line call, the task list.
ghost use Rattle.std.specs.Prelude.{[], length};
ghost use Rattle.std.specs.Float.{binary64};
ghost use Rattle.shape.specs.Shape.{points};
ghost use Rattle.shape.specs.Refusal.{answer_number};
ghost use Rattle.regular_lines.specs.Rows.{system};
ghost use Rattle.regular_lines.proofs.Rows.{looks-coefficient};
ghost use Rattle.book.specs.LineCall.{call_of, state_of};
ghost use Rattle.stepwise.specs.Regular.{RegularBegun, RegularLineCalled, RegularRan};

use crate::list::fit_by_list;
use crate::spacing::Spacing;
use crate::steps::{begin, solve_line};
use regular::RegularGrid;
use shape::{Axes, Refusal, Shape};

// The points of an axis are evenly spaced: its length says all of it, and there is nothing more to check.
#[derive(Clone, Copy)]
struct Even;

impl Spacing for Even {
    type Accepted = RegularGrid;

    ghost grid_checks = { λ spacing dims. [] };

    ghost knots_checks = { λ spacing dims. [] };

    ghost rows = { λ spacing dims a. system binary64 (points dims a) };

    fn check_grid(self, axes: Axes) -> Result<(), Refusal> {
        Ok(())
    }

    fn check_knots(self, axes: Axes) -> Result<(), Refusal> {
        Ok(())
    }

    fn grid(self, axes: Axes) -> RegularGrid {
        RegularGrid { axes }
    }

    ghost grid_positive = { λ spacing dims. tt };

    ghost knots_positive = { λ spacing dims. tt };

    ghost looks = { λ spacing dims a inside passed long. looks-coefficient binary64 (points dims a) long };
}

// Begins a stepwise fit, with scratch by its length: begin writes nothing to it.
pub fn begin_regular_by_len(
    shape: Shape,
    vals: &[f64],
    coeffs: &mut [f64],
    ledger: &mut [u8],
    scratch: usize,
) -> Result<(), Refusal>
    ensures { RegularBegun shape.count shape.dims vals.now (state_of coeffs.old ledger.old) scratch (answer_number result) (state_of coeffs.new ledger.new) }
{
    begin(shape, Even, vals, coeffs, ledger, scratch)
}

// Begins a stepwise fit: the samples are copied to `coeffs`, and the ledger is zeroed. `vals`, `coeffs` and `ledger` have one
// cell a point, the last axis fastest; `scratch`, at least twice the longest axis, is checked and not written. Answers the
// first of these refusals, with nothing written: 1, the axis count is not 1 to 4; 2, an axis has fewer than 4 points; 3, more
// than 16,777,216 points; 2, the length of `coeffs`; 2, the length of `ledger`; 2, the length of `vals`; 4, the length of
// `scratch`.
pub fn begin_regular(
    shape: Shape,
    vals: &[f64],
    coeffs: &mut [f64],
    ledger: &mut [u8],
    scratch: &[f64],
) -> Result<(), Refusal>
    ensures { RegularBegun shape.count shape.dims vals.now (state_of coeffs.old ledger.old)
        (length scratch.now) (answer_number result) (state_of coeffs.new ledger.new) }
{
    begin_regular_by_len(shape, vals, coeffs, ledger, scratch.len())
}

// Solves one line that is due: its cells of `coeffs` become its coefficients, and 1 is added to its ledger bytes. No other
// coefficient or byte changes; `scratch` is left with the line's numbers. A line of axis a is due when each of its bytes is a.
// Answers the first of these refusals, with nothing written: 1, the axis count is not 1 to 4; 2, an axis has fewer than 4
// points; 3, more than 16,777,216 points; 2, the length of `coeffs`; 2, the length of `ledger`; 4, `scratch` is shorter than
// twice the longest axis; 7, there is no such axis or line; 8, the line is solved already: some byte on it is above a; 9, the
// line is not due: none is above a, some are below.
pub fn solve_regular_line(
    shape: Shape,
    axis: usize,
    line: usize,
    coeffs: &mut [f64],
    ledger: &mut [u8],
    scratch: &mut [f64],
) -> Result<(), Refusal>
    ensures { RegularLineCalled binary64 shape.count shape.dims (call_of axis line scratch.old)
        (state_of coeffs.old ledger.old) (answer_number result)
        (state_of coeffs.new ledger.new) scratch.new }
{
    solve_line(shape, Even, axis, line, coeffs, ledger, scratch)
}

// Begins a fit and makes a list of line calls, one after the other: call i solves line `lines[i]` of axis `axes[i]`, and its
// answer goes into `answers[i]`, 0 where the line was solved. The list may have any order and any length, and a refused call
// changes nothing; the fit is finished when every ledger byte is the axis count. Answers the first of these refusals, with
// nothing written: those of `begin_regular`; then 2, the length of `lines` is not that of `axes`; 2, nor is that of `answers`.
pub fn fit_regular_by_list(
    shape: Shape,
    vals: &[f64],
    axes: &[usize],
    lines: &[usize],
    coeffs: &mut [f64],
    ledger: &mut [u8],
    scratch: &mut [f64],
    answers: &mut [u8],
) -> Result<(), Refusal>
    ensures { RegularRan binary64 shape.count shape.dims vals.now axes.now lines.now
        (state_of coeffs.old ledger.old) scratch.old answers.old (answer_number result)
        (state_of coeffs.new ledger.new) scratch.new answers.new }
{
    fit_by_list(
        shape, Even, vals, axes, lines, coeffs, ledger, scratch, answers,
    )
}
