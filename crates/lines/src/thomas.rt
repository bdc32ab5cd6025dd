// One line, samples to coefficients: the rows of its system, solved one after the other. In scratch the upper numbers stand
// from 0 on and the right sides from the longest axis's length on.
ghost use Rattle.std.specs.Prelude.{◌≡◌, ℕ, ◌+◌, ◌-◌, ◌<◌, length};
ghost use Rattle.std.specs.Float.{binary64};
ghost use Rattle.shape.specs.Cells.{write_line};
ghost use Rattle.shape.specs.Fit.{line_scratch};
ghost use Rattle.multibspline.specs.Thomas.{reduce, inner_reduced};
ghost use Rattle.multibspline.specs.Scratch.{with_reduced};
ghost use Rattle.multibspline.specs.Records.{reduced_of, samples, LineRoom};
ghost use Rattle.lines.specs.Rows.{first_row, inner_row, last_row, upper_number, right_side, coefficient};
ghost use Rattle.lines.specs.Records.{LineOf};

use crate::system::System;
use crate::turn::Turn;
use multibspline::{Reduced, back_substitute, eliminate, entry, keep_row};
use shape::Line;

// Row 0, reduced.
fn first_row<S: System>(system: S, along: Line, coeffs: &[f64]) -> Reduced
    requires { LineOf (S.rows system) along (length coeffs.now) }
    ensures { reduced_of result ≡ first_row (S.rows system) (samples along coeffs.now) }
{
    let row = system.first_row();
    let y0 = entry(along, 0, coeffs);
    let y1 = entry(along, 1, coeffs);
    Reduced {
        upper: row.upper,
        right: row.right.of(y0, y1),
    }
}

// Row i, between the first and the last.
fn inner_row<S: System>(
    system: S,
    along: Line,
    i: usize,
    before: Reduced,
    coeffs: &[f64],
    scratch: &mut [f64],
) -> Reduced
    requires of { (i + 1 < along.n) × LineOf (S.rows system) along (length coeffs.now) }
    requires room { LineRoom along (length scratch.old) }
    ensures result_value { reduced_of result ≡ reduce binary64 (inner_row (S.rows system) (samples along coeffs.now) i) (reduced_of «before») }
    ensures scratch_after { scratch.new ≡ with_reduced along.longest i (reduced_of result) scratch.old }
{
    let left = system.inner_row(i);
    let y = entry(along, i, coeffs);
    let right = system.inner_right(y);
    eliminate(i, along.longest, left, right, before, scratch)
}

// The rows from the first to the last but one. Answers the last but one.
fn inner_rows<S: System>(
    system: S,
    along: Line,
    first: Reduced,
    coeffs: &[f64],
    scratch: &mut [f64],
) -> Reduced
    requires of { LineOf (S.rows system) along (length coeffs.now) }
    requires room { LineRoom along (length scratch.old) }
    ensures result_value { reduced_of result ≡ inner_reduced binary64 (reduced_of «first») (inner_row (S.rows system) (samples along coeffs.now)) (along.n - 2) }
    ensures scratch_after { scratch.new ≡ line_scratch along.longest
        (λ k. (inner_reduced binary64 (reduced_of «first») (inner_row (S.rows system) (samples along coeffs.now)) k).upper)
        (λ k. (inner_reduced binary64 (reduced_of «first») (inner_row (S.rows system) (samples along coeffs.now)) k).right)
        (along.n - 1) scratch.old }
{
    keep_row(0, along.longest, first, scratch);
    let last = along.n - 1;
    let mut row = first;
    // The number says a row of the system and a cell at a stride.
    for i in 1..last {
        row = inner_row(system, along, i, row, coeffs, scratch);
    }
    row
}

// The last row.
fn last_row<S: System>(system: S, along: Line, before: Reduced, coeffs: &[f64], scratch: &mut [f64])
    requires of { LineOf (S.rows system) along (length coeffs.now) }
    requires room { LineRoom along (length scratch.old) }
    ensures { scratch.new ≡ with_reduced along.longest (along.n - 1) (reduce binary64 (last_row (S.rows system) (samples along coeffs.now)) (reduced_of «before»)) scratch.old }
{
    let row = system.last_row();
    let n = along.n;
    let y = entry(along, n - 1, coeffs);
    let beside = entry(along, n - 2, coeffs);
    let right = row.right.of(y, beside);
    eliminate(n - 1, along.longest, row.left, right, before, scratch);
}

// Forward elimination: the rows from the first to the last.
fn forward<S: System>(system: S, along: Line, coeffs: &[f64], scratch: &mut [f64])
    requires of { LineOf (S.rows system) along (length coeffs.now) }
    requires room { LineRoom along (length scratch.old) }
    ensures { scratch.new ≡ line_scratch along.longest
        (upper_number binary64 (S.rows system) (samples along coeffs.now))
        (right_side binary64 (S.rows system) (samples along coeffs.now)) along.n scratch.old }
{
    let first = first_row(system, along, coeffs);
    let before = inner_rows(system, along, first, coeffs, scratch);
    last_row(system, along, before, coeffs, scratch);
}

// The samples of a line that is known to fit are replaced by its coefficients.
pub fn solve_checked<S: System>(system: S, along: Line, coeffs: &mut [f64], scratch: &mut [f64])
    requires of { LineOf (S.rows system) along (length coeffs.old) }
    requires room { LineRoom along (length scratch.old) }
    ensures coeffs_after { coeffs.new ≡ write_line along.base along.stride
        (coefficient binary64 (S.rows system) (samples along coeffs.old)) along.n coeffs.old }
    ensures scratch_after { scratch.new ≡ line_scratch along.longest
        (upper_number binary64 (S.rows system) (samples along coeffs.old))
        (coefficient binary64 (S.rows system) (samples along coeffs.old)) along.n scratch.old }
{
    forward(system, along, coeffs, scratch);
    back_substitute(along, coeffs, scratch);
}
