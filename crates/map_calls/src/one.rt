// The value and the gradient at a single query: two calls, as in interpn. A value has a faster way on some maps.
ghost use Rattle.std.specs.Prelude.{length};
ghost use Rattle.std.specs.Float.{binary64};
ghost use Rattle.multibspline.specs.Numbers.{f0};
ghost use Rattle.shape.specs.Refusal.{answer_number, answer_or};
ghost use Rattle.evaluation.specs.Axes.{zeros};
ghost use Rattle.evaluation.specs.ByAxis.{spline_of};
ghost use Rattle.evaluation.specs.Spline.{OneValue, OneGradient};

use crate::lent::Lent;
use block_sums::single_gradient;
use evaluation::Map;
use shape::Refusal;

// The value, or the first refusal: those of the map, 2 for the number of coordinates, 6 where a coordinate has no place.
pub fn interp_one<L: Lent>(lent: L, coeffs: &[f64], x: &[f64]) -> Result<f64, Refusal>
    ensures { OneValue (spline_of binary64 (L.view lent) (L.checks lent (length coeffs.now)) coeffs.now) x.now (answer_number result) (answer_or f0 result) }
{
    let map = lent.accept(coeffs.len())?;
    if x.len() != map.count() {
        return Err(Refusal::DimensionMismatch);
    }
    L::value_at(&map, coeffs, x)
}

// The gradient, with the refusals of `interp_one`.
pub fn interp_one_grad<L: Lent>(lent: L, coeffs: &[f64], x: &[f64]) -> Result<[f64; 4], Refusal>
    ensures { OneGradient (spline_of binary64 (L.view lent) (L.checks lent (length coeffs.now)) coeffs.now) x.now (answer_number result) (answer_or zeros result) }
{
    let map = lent.accept(coeffs.len())?;
    if x.len() != map.count() {
        return Err(Refusal::DimensionMismatch);
    }
    single_gradient(&map, coeffs, x)
}
