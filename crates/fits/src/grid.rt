// The grid of a map: its axes, and the tridiagonal system of the lines of each.
ghost use Rattle.std.specs.Prelude.{◌≡◌, ℕ, List, ◌<◌, length, take};
ghost use Rattle.shape.specs.Shape.{points};
ghost use Rattle.lines.specs.Rows.{Rows};

use lines::System;
use shape::Axes;

pub trait Grid: Copy {
    type Axis: System;

    // The lengths of the axes, and the rows of the system of each axis.
    ghost dims: { Self → List ℕ };

    ghost rows: { Self → ℕ → Rows };

    fn axes(self) -> Axes
        ensures dims { take result.count result.dims ≡ dims self }
        ensures four { length result.dims ≡ 4 };

    // The system of an axis.
    fn axis(self, a: usize) -> Self::Axis
        requires { a < length (dims self) }
        ensures { Self.Axis.rows result ≡ rows self a };

    ghost as_many_points: { (grid : Self) (a : ℕ) → a < length (dims grid) → (rows grid a).points ≡ points (dims grid) a };
}
