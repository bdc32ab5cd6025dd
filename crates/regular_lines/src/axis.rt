// The system of an axis of a regular grid: the rows are the same whatever its points are.
ghost use Rattle.std.specs.Prelude.{◌≤◌};
ghost use Rattle.std.specs.Float.{binary64};
ghost use Rattle.regular_lines.specs.Rows.{system};

use lines::{Differ, FirstRow, LastRow, System};
use multibspline::Left;

#[derive(Clone, Copy)]
pub struct Axis {
    pub n: usize,
    ghost four: { 4 ≤ n },
}

impl System for Axis {
    type First = Differ;

    type Last = Differ;

    ghost rows = { λ axis. system binary64 axis.n };

    ghost four_points = { λ axis. axis.four };

    fn points(self) -> usize {
        self.n
    }

    // Reduced as it stands, since its diagonal is 1.
    fn first_row(self) -> FirstRow<Differ> {
        FirstRow {
            upper: -1.0,
            right: Differ,
        }
    }

    fn inner_row(self, _i: usize) -> Left {
        Left {
            lower: 1.0,
            diag: 4.0,
            upper: 1.0,
        }
    }

    fn inner_right(self, y: f64) -> f64 {
        6.0 * y
    }

    fn last_row(self) -> LastRow<Differ> {
        LastRow {
            left: Left {
                lower: -1.0,
                diag: 1.0,
                upper: 0.0,
            },
            right: Differ,
        }
    }
}
