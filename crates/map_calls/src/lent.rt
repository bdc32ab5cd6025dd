// A map as a caller lends it: not looked at yet, its coefficients beside it.
ghost use Rattle.std.specs.Prelude.{◌≡◌, ◌≤◌, ℕ, List, length, take};
ghost use Rattle.std.specs.Float.{binary64};
ghost use Rattle.multibspline.specs.Numbers.{f0};
ghost use Rattle.shape.specs.Checks.{Check, Positive};
ghost use Rattle.shape.specs.Refusal.{answer_number, answer_or};
ghost use Rattle.evaluation.specs.Axes.{query};
ghost use Rattle.evaluation.specs.ByAxis.{ByAxis, spline_of};
ghost use Rattle.evaluation.specs.Entries.{Answered};
ghost use Rattle.map_calls.specs.Accepted.{AcceptedAs, Filled};

use block_sums::single_value;
use evaluation::Map;
use shape::Refusal;

pub trait Lent: Copy {
    type Accepted: Map + Copy;

    ghost view: { Self → ByAxis };

    // What is checked of it, and of so many coefficients.
    ghost checks: { Self → ℕ → List Check };

    // The map, looked at once, with its strides worked out; or the first of its checks that fails.
    fn accept(self, coeffs: usize) -> Result<Self::Accepted, Refusal>
        ensures { AcceptedAs Self.Accepted.view (checks self coeffs) (view self) coeffs result };

    // The value at a query, once the map is accepted: as a block of one, where nothing faster is known.
    fn value_at(map: &Self::Accepted, coeffs: &[f64], x: &[f64]) -> Result<f64, Refusal>
        requires { Filled (Self.Accepted.view map.now) (length coeffs.now) × ((Self.Accepted.view map.now).count ≤ length x.now) }
        ensures { (checks : List Check) → Answered (spline_of binary64 (Self.Accepted.view map.now) checks coeffs.now) (query (Self.Accepted.view map.now).count x.now 1 0) (answer_number result) (answer_or f0 result) }
    {
        single_value(map, coeffs, x)
    }

    ghost positive: { (map : Self) (coefs : ℕ) → Positive (checks map coefs) };
}
