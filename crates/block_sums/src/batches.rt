// The queries of a batch, block after block of 20, in the buffers of a block. A batch that is refused at an entry has written the
// entries before it and none from it on.
ghost use Rattle.std.specs.Prelude.{◌≡◌, List, ◌*◌, ◌≤◌, length, take};
ghost use Rattle.std.specs.Float.{binary64};
ghost use Rattle.shape.specs.Checks.{Check};
ghost use Rattle.shape.specs.Refusal.{answer_number};
ghost use Rattle.shape.specs.Shape.{size};
ghost use Rattle.evaluation.specs.Batch.{bad_at};
ghost use Rattle.evaluation.specs.ByAxis.{spline_of};
ghost use Rattle.evaluation.specs.Entries.{Entries};

use crate::blocks::block;
use evaluation::{Axis, Figures, Map, Span, Spot, block_size};
use shape::Refusal;

// What is asked at n queries, up to the first that is refused.
pub fn batch<F: Figures, M: Map>(
    map: &M,
    coeffs: &[f64],
    xs: &[f64],
    n: usize,
    out: &mut [f64],
) -> Result<(), Refusal>
    requires sized { length coeffs.now ≡ size (take (M.view map.now).count (M.view map.now).lens) }
    requires room { ((M.view map.now).count * n ≤ length xs.now) × (F.numbers (M.view map.now).count n ≤ length out.old) }
    ensures { (checks : List Check) → Entries (bad_at (spline_of binary64 (M.view map.now) checks coeffs.now) xs.now n) (F.step (spline_of binary64 (M.view map.now) checks coeffs.now) xs.now n) n out.old (answer_number result) out.new }
{
    let mut places = [<M::Along as Axis>::blank(); 20];
    let mut spots = [Spot::blank(); 20];
    let mut from: usize = 0;
    // not `(0..n).step_by(20)`: a block is as long as `block_size` says, and what is written so far ends at `from`, never past n
    while from < n {
        let m = block_size(from, n);
        let s = Span { xs, n, from, m };
        if block::<F, M>(map, coeffs, s, &mut places, &mut spots, out) < m {
            return Err(Refusal::Unrepresentable);
        }
        from += m;
    }
    Ok(())
}
