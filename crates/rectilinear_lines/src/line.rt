// One line of a rectilinear grid: samples to coefficients, by the Thomas algorithm. The line is as many cells of `coeffs` as
// there are knots in `grid`, from `base`, `stride` apart.
ghost use Rattle.std.specs.Float.{binary64};
ghost use Rattle.shape.specs.Refusal.{answer_number};
ghost use Rattle.rectilinear_weights.specs.Records.{ghost_numbers};
ghost use Rattle.rectilinear_lines.specs.Line.{LineSolved};

use crate::axis::Axis;
use lines::solve_checked;
use multibspline::check_line;
use rectilinear_weights::Ghost;
use shape::{Line, Refusal};

// Replaces the samples of one line by its coefficients. `grid` has the knots of the line's axis, and the ghost numbers are
// those of its two ends. Refuses with 2 a line of fewer than 4 points, a line that does not lie within `coeffs`, and scratch
// without room for an upper number a knot before `longest` and a right side a knot from there on.
pub fn solve_line(
    grid: &[f64],
    low_ghost: Ghost,
    high_ghost: Ghost,
    base: usize,
    stride: usize,
    longest: usize,
    coeffs: &mut [f64],
    scratch: &mut [f64],
) -> Result<(), Refusal>
    ensures { LineSolved binary64 grid.now (ghost_numbers low_ghost) (ghost_numbers high_ghost) base stride longest
        coeffs.old scratch.old (answer_number result) coeffs.new scratch.new }
{
    let n = grid.len();
    let along = Line {
        n,
        stride,
        base,
        longest,
    };
    check_line(along, coeffs.len(), scratch.len())?;
    let axis = Axis {
        grid,
        low_ghost,
        high_ghost,
    };
    solve_checked(axis, along, coeffs, scratch);
    Ok(())
}
