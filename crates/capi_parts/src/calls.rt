// The calls that take a map, on either grid, as C makes them: what they hand out is written only where they are accepted.
ghost use Rattle.std.specs.Prelude.{◌≡◌, length};
ghost use Rattle.std.specs.Float.{binary64};
ghost use Rattle.shape.specs.Checks.{first_refusal};
ghost use Rattle.shape.specs.Refusal.{answer_number};
ghost use Rattle.evaluation.specs.Axes.{query};
ghost use Rattle.evaluation.specs.Batch.{gradient_step};
ghost use Rattle.evaluation.specs.ByAxis.{spline_of};
ghost use Rattle.evaluation.specs.Spline.{one_answer};
ghost use Rattle.capi_parts.specs.Outputs.{Wrote};
ghost use Rattle.capi_parts.specs.Splines.{with_slopes};

use crate::outputs::put;
use block_sums::single_gradient;
use evaluation::{Map, put_parts};
use map_calls::{Lent, interp_one};
use shape::Refusal;

// Whether the map is accepted with so many coefficients.
pub fn check<L: Lent>(lent: L, coeffs: usize) -> Result<(), Refusal>
    ensures { answer_number result ≡ first_refusal (L.checks lent coeffs) }
{
    lent.accept(coeffs)?;
    Ok(())
}

// The value at a query.
pub fn value_at<L: Lent>(lent: L, coeffs: &[f64], x: &[f64], value: &mut f64) -> Result<(), Refusal>
    ensures { Wrote
        (one_answer (spline_of binary64 (L.view lent) (L.checks lent (length coeffs.now)) coeffs.now) x.now)
        ((spline_of binary64 (L.view lent) (L.checks lent (length coeffs.now)) coeffs.now).value (query (L.view lent).count x.now 1 0))
        value.old (answer_number result) value.new }
{
    put(interp_one(lent, coeffs, x), value)
}

// The gradient there. The length of its buffer is looked at before the query.
pub fn gradient<L: Lent>(
    lent: L,
    coeffs: &[f64],
    x: &[f64],
    slopes: &mut [f64],
) -> Result<(), Refusal>
    ensures { Wrote
        (one_answer (with_slopes (length slopes.old) (spline_of binary64 (L.view lent) (L.checks lent (length coeffs.now)) coeffs.now)) x.now)
        (gradient_step (spline_of binary64 (L.view lent) (L.checks lent (length coeffs.now)) coeffs.now) x.now 1 0 slopes.old)
        slopes.old (answer_number result) slopes.new }
{
    let map = lent.accept(coeffs.len())?;
    let axes = map.count();
    if slopes.len() != axes {
        return Err(Refusal::DimensionMismatch);
    }
    if x.len() != axes {
        return Err(Refusal::DimensionMismatch);
    }
    let parts = single_gradient(&map, coeffs, x)?;
    put_parts(parts, axes, 1, 0, slopes);
    Ok(())
}
