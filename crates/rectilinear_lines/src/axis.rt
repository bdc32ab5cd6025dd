// The system of an axis of a rectilinear grid: its knots, which are lent, and the ghost numbers of its two ends.
ghost use Rattle.std.specs.Prelude.{◌≡◌, ◌+◌, ◌≤◌, ◌<◌, length};
ghost use Rattle.std.specs.Float.{binary64};
ghost use Rattle.rectilinear_weights.specs.Records.{ghost_numbers};
ghost use Rattle.rectilinear_lines.specs.Rows.{at_knot, system};

use crate::ends::{high_end, low_end};
use lines::{FirstRow, LastRow, Less, Step, System};
use multibspline::Left;
use rectilinear_basis::basis_span_weights;
use rectilinear_weights::Ghost;

#[derive(Clone, Copy)]
pub struct Axis<'a> {
    pub grid: &'a [f64],
    pub low_ghost: Ghost,
    pub high_ghost: Ghost,
    ghost four: { 4 ≤ length grid.now },
}

// The weights of a span at a knot.
fn at_knot(grid: &[f64], span: usize, k: usize) -> [f64; 4]
    requires { (4 ≤ length grid.now) × (span + 1 < length grid.now) × (k < length grid.now) }
    ensures { result ≡ at_knot binary64 grid.now span k }
{
    basis_span_weights(grid, span, grid[k])
}

impl<'a> System for Axis<'a> {
    type First = Step;

    type Last = Less;

    ghost rows = { λ axis. system binary64 axis.grid.now (ghost_numbers axis.low_ghost) (ghost_numbers axis.high_ghost) };

    ghost four_points = { λ axis. axis.four };

    fn points(self) -> usize {
        self.grid.len()
    }

    // Nothing stands before it, so that it is divided by its diagonal.
    fn first_row(self) -> FirstRow<Step> {
        let w = at_knot(self.grid, 0, 0);
        let v = at_knot(self.grid, 1, 1);
        let end = low_end(w, v, self.low_ghost);
        FirstRow {
            upper: end.left.upper / end.left.diag,
            right: Step {
                factor: end.factor,
                divisor: end.left.diag,
            },
        }
    }

    fn inner_row(self, i: usize) -> Left {
        let w = at_knot(self.grid, i, i);
        Left {
            lower: w[0],
            diag: w[1],
            upper: w[2],
        }
    }

    fn inner_right(self, y: f64) -> f64 {
        y
    }

    fn last_row(self) -> LastRow<Less> {
        let n = self.grid.len();
        let w = at_knot(self.grid, n - 2, n - 1);
        let v = at_knot(self.grid, n - 2, n - 2);
        let end = high_end(w, v, self.high_ghost);
        LastRow {
            left: end.left,
            right: Less { factor: end.factor },
        }
    }
}
