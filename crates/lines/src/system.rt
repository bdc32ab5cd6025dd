// The tridiagonal system of the lines of one axis, row by row. A grid gives the rows; what is done with them is here the same for
// both.
ghost use Rattle.std.specs.Prelude.{◌≡◌, ◌+◌, ◌≤◌, ◌<◌};
ghost use Rattle.lines.specs.Rows.{Rows};
ghost use Rattle.multibspline.specs.Records.{left_of};

use crate::turn::Turn;
use multibspline::Left;

// The first row, reduced: its upper number, and what makes its right side of the first sample and the second.
#[derive(Clone, Copy)]
pub struct FirstRow<T> {
    pub upper: f64,
    pub right: T,
}

// The last row: its left side, and what makes its right side of the last sample and the one before.
#[derive(Clone, Copy)]
pub struct LastRow<T> {
    pub left: Left,
    pub right: T,
}

pub trait System: Copy {
    type First: Turn;

    type Last: Turn;

    ghost rows: { Self → Rows };

    fn points(self) -> usize
        ensures { result ≡ (rows self).points };

    fn first_row(self) -> FirstRow<Self::First>
        ensures upper { result.upper ≡ (rows self).first_upper }
        ensures right { Self.First.op result.right ≡ (rows self).first_right };

    // Row i, between the first and the last.
    fn inner_row(self, i: usize) -> Left
        requires { i + 1 < (rows self).points }
        ensures { left_of result ≡ (rows self).inner i };

    // The right side of such a row, from its sample.
    fn inner_right(self, y: f64) -> f64
        ensures { result ≡ (rows self).inner_right y };

    fn last_row(self) -> LastRow<Self::Last>
        ensures left { left_of result.left ≡ (rows self).last }
        ensures right { Self.Last.op result.right ≡ (rows self).last_right };

    ghost four_points: { (s : Self) → 4 ≤ (rows s).points };
}
