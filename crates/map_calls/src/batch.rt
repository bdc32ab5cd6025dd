// Batches of queries, axis after axis. A batch that is refused with 6 at an entry has written the entries before it and none from
// it on. Values and gradients are two calls, as in interpn: how many numbers an output has is not the same, and is checked here.
ghost use Rattle.std.specs.Prelude.{length};
ghost use Rattle.std.specs.Float.{binary64};
ghost use Rattle.shape.specs.Refusal.{answer_number};
ghost use Rattle.evaluation.specs.ByAxis.{spline_of};
ghost use Rattle.evaluation.specs.Batch.{ValueBatch, GradientBatch};

use crate::lent::Lent;
use block_sums::{Gradients, Values, batch};
use evaluation::Map;
use shape::Refusal;

// Values, one output a query.
pub fn interp<L: Lent>(lent: L, coeffs: &[f64], xs: &[f64], out: &mut [f64]) -> Result<(), Refusal>
    ensures { ValueBatch (spline_of binary64 (L.view lent) (L.checks lent (length coeffs.now)) coeffs.now) xs.now out.old (answer_number result) out.new }
{
    let map = lent.accept(coeffs.len())?;
    let n = out.len();
    if xs.len() != map.count() * n {
        return Err(Refusal::DimensionMismatch);
    }
    batch::<Values, L::Accepted>(&map, coeffs, xs, n, out)
}

// Gradients: of n entries, part k of entry i at k n + i.
pub fn interp_grad<L: Lent>(
    lent: L,
    coeffs: &[f64],
    xs: &[f64],
    out: &mut [f64],
) -> Result<(), Refusal>
    ensures { GradientBatch (spline_of binary64 (L.view lent) (L.checks lent (length coeffs.now)) coeffs.now) xs.now out.old (answer_number result) out.new }
{
    let map = lent.accept(coeffs.len())?;
    let count = map.count();
    if out.len() % count != 0 {
        return Err(Refusal::DimensionMismatch);
    }
    if xs.len() != out.len() {
        return Err(Refusal::DimensionMismatch);
    }
    batch::<Gradients, L::Accepted>(&map, coeffs, xs, out.len() / count, out)
}
