// One line of a regular grid: samples to coefficients, by the Thomas algorithm. The line is n cells of `coeffs`, from `base`,
// `stride` apart. A rectilinear line has a call of its own, as in interpn: it is handed knots, and its promise is by its grid's
// rows. What both do is `check_line` and `solve_checked`.
ghost use Rattle.std.specs.Float.{binary64};
ghost use Rattle.shape.specs.Refusal.{answer_number};
ghost use Rattle.regular_lines.specs.Line.{LineSolved};

use crate::axis::Axis;
use lines::solve_checked;
use multibspline::check_line;
use shape::{Line, Refusal};

// Replaces the samples of one line by its coefficients. Refuses with 2 a line of fewer than 4 points, a line that does not
// lie within `coeffs`, and scratch without room for n upper numbers before `longest` and n right sides from there on.
pub fn solve_line(
    base: usize,
    stride: usize,
    n: usize,
    longest: usize,
    coeffs: &mut [f64],
    scratch: &mut [f64],
) -> Result<(), Refusal>
    ensures { LineSolved binary64 base stride n longest coeffs.old scratch.old (answer_number result) coeffs.new scratch.new }
{
    let along = Line {
        n,
        stride,
        base,
        longest,
    };
    check_line(along, coeffs.len(), scratch.len())?;
    solve_checked(Axis { n }, along, coeffs, scratch);
    Ok(())
}
