// How the points of a grid are spaced: what stands beside the lengths of its axes, what begin and the line call check of it, and
// the grid that they accept.
ghost use Rattle.std.specs.Prelude.{◌≡◌, ℕ, List, ◌<◌, ◌≤◌, length, take};
ghost use Rattle.std.specs.Float.{binary64};
ghost use Rattle.shape.specs.Shape.{points};
ghost use Rattle.shape.specs.Checks.{Check, first_refusal, Positive};
ghost use Rattle.shape.specs.Fit.{Looks};
ghost use Rattle.shape.specs.Refusal.{answer_number};
ghost use Rattle.lines.specs.Rows.{Rows};
ghost use Rattle.fits.specs.Fit.{solve};

use fits::Grid;
use shape::{Axes, Refusal};

pub trait Spacing: Copy {
    type Accepted: Grid;

    // What is checked of it before the lengths of the coefficients and the ledger.
    ghost grid_checks: { Self → List ℕ → List Check };

    // And what is checked after them.
    ghost knots_checks: { Self → List ℕ → List Check };

    // The rows of the system of each axis.
    ghost rows: { Self → List ℕ → ℕ → Rows };

    fn check_grid(self, axes: Axes) -> Result<(), Refusal>
        ensures { answer_number result ≡ first_refusal (grid_checks self (take axes.count axes.dims)) };

    fn check_knots(self, axes: Axes) -> Result<(), Refusal>
        requires { first_refusal (grid_checks self (take axes.count axes.dims)) ≡ 0 }
        ensures { answer_number result ≡ first_refusal (knots_checks self (take axes.count axes.dims)) };

    // The grid, once its own checks have passed.
    fn grid(self, axes: Axes) -> Self::Accepted
        requires { first_refusal (grid_checks self (take axes.count axes.dims)) ≡ 0 }
        ensures dims { Self.Accepted.dims result ≡ take axes.count axes.dims }
        ensures rows { Self.Accepted.rows result ≡ rows self (take axes.count axes.dims) };

    ghost grid_positive: { (spacing : Self) (dims : List ℕ) → Positive (grid_checks spacing dims) };

    ghost knots_positive: { (spacing : Self) (dims : List ℕ) → Positive (knots_checks spacing dims) };

    // Once its checks have passed, a line of an axis is solved from its own samples alone.
    ghost looks: { (spacing : Self) (dims : List ℕ) (a : ℕ) → a < length dims
        → first_refusal (grid_checks spacing dims) ≡ 0 → 4 ≤ points dims a
        → Looks (solve binary64 (rows spacing dims) a) (points dims a) };
}
