// The checks of `solve_line`, on either grid.
ghost use Rattle.std.specs.Prelude.{◌≡◌, ◌-◌, ◌≤◌, ltb};
ghost use Rattle.shape.specs.Cells.{on_line};
ghost use Rattle.shape.specs.Refusal.{answer_number};
ghost use Rattle.multibspline.specs.Line.{line_answer};

use shape::{Line, Refusal};

// Whether the last of n entries, from `base`, `stride` apart, lies within `len`; tested by division, so that nothing overflows.
fn ends_within(base: usize, stride: usize, n: usize, len: usize) -> bool
    requires { 4 ≤ n }
    ensures { result ≡ ltb (on_line base stride (n - 1)) len }
{
    if len <= base {
        return false;
    }
    stride <= (len - 1 - base) / (n - 1)
}

// Whether a line can be solved, from the lengths of its buffers. Refuses with 2 a line of fewer than 4 points, a line that
// does not lie within the coefficients, and scratch without room for n upper numbers before `longest` and n right sides from
// there on.
pub fn check_line(along: Line, coeffs: usize, scratch: usize) -> Result<(), Refusal>
    ensures { answer_number result ≡ line_answer along.base along.stride along.n along.longest coeffs scratch }
{
    let Line {
        n,
        stride,
        base,
        longest,
    } = along;
    if n < 4 {
        return Err(Refusal::DimensionMismatch);
    }
    if longest < n {
        return Err(Refusal::DimensionMismatch);
    }
    if scratch < longest {
        return Err(Refusal::DimensionMismatch);
    }
    if scratch - longest < n {
        return Err(Refusal::DimensionMismatch);
    }
    if !ends_within(base, stride, n, coeffs) {
        return Err(Refusal::DimensionMismatch);
    }
    Ok(())
}
