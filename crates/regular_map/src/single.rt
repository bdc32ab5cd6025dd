// The value at a single query on a regular map, axis after axis: its place and its weights, and then the sum.
ghost use Rattle.std.specs.Prelude.{◌≡◌, ◌≤◌, ◌<◌, length, take};
ghost use Rattle.multibspline.specs.Numbers.{f0};
ghost use Rattle.std.specs.Float.{binary64};
ghost use Rattle.shape.specs.Shape.{size};
ghost use Rattle.shape.specs.Refusal.{answer_number, answer_or};
ghost use Rattle.evaluation.specs.Axes.{query};
ghost use Rattle.evaluation.specs.Entries.{Answered};
ghost use Rattle.regular_blocks.specs.Checks.{regular};
ghost use Rattle.regular_blocks.specs.Eval.{regular_axes};
ghost use Rattle.regular_blocks.specs.Records.{map_of};
ghost use Rattle.regular_map.specs.OneQuery.{LookedOn};

use block_sums::value;
use evaluation::{Axis, Map};
use regular_blocks::Grid;
use shape::Refusal;

// The first of the coefficients along an axis that count, and their weights; or that x has no place there.
#[inline(always)]
fn look(grid: &Grid, a: usize, x: f64) -> Result<(usize, [f64; 4]), Refusal>
    requires { a < grid.now.count }
    ensures { LookedOn (regular_axes binary64 (map_of grid.now)) a x result }
{
    let axis = grid.axis(a);
    match axis.place(x) {
        Some((origin, seat)) => Ok((origin, axis.weights(seat, x))),
        None => Err(Refusal::Unrepresentable),
    }
}

// The value at a query, or that it has no representable cell. Each axis has its own lines, and a number that is a constant there:
// the axis's numbers and the weights so far stay in registers, where a loop over the axes would keep them in arrays. A row of an
// axis that there is not repeats the last one; it is not looked at.
pub fn value_at(grid: &Grid, coeffs: &[f64], x: &[f64]) -> Result<f64, Refusal>
    requires { (length coeffs.now ≡ size (take grid.now.count grid.now.dims)) × (grid.now.count ≤ length x.now) }
    ensures { Answered (regular binary64 (map_of grid.now) coeffs.now) (query grid.now.count x.now 1 0) (answer_number result) (answer_or f0 result) }
{
    let strides = grid.strides;
    let (o0, w0) = look(grid, 0, x[0])?;
    if grid.count == 1 {
        return Ok(value(1, &strides, coeffs, &[w0, w0, w0, w0], o0));
    }
    let first = o0 * strides[0];
    let (o1, w1) = look(grid, 1, x[1])?;
    if grid.count == 2 {
        return Ok(value(2, &strides, coeffs, &[w0, w1, w1, w1], first + o1));
    }
    let first = first + o1 * strides[1];
    let (o2, w2) = look(grid, 2, x[2])?;
    if grid.count == 3 {
        return Ok(value(3, &strides, coeffs, &[w0, w1, w2, w2], first + o2));
    }
    let first = first + o2 * strides[2];
    let (o3, w3) = look(grid, 3, x[3])?;
    Ok(value(4, &strides, coeffs, &[w0, w1, w2, w3], first + o3))
}
