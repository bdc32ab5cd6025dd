// What begin, the line call and the task list check on either grid, in the order of the supplied document: the shape first, then
// the joined grid, what stands here up to the ledger, the knots, and what stands here after them. The shape has passed its check.
ghost use Rattle.std.specs.Prelude.{◌≡◌, ◌++◌, length, take, replicate};
ghost use Rattle.shape.specs.Shape.{size};
ghost use Rattle.shape.specs.Checks.{first_refusal, length_check, scratch_check};
ghost use Rattle.shape.specs.Refusal.{answer_number};

use multibspline::copy;
use shape::{Axes, Refusal};

// 2 for the length of the coefficients, then for that of the ledger.
pub fn check_held(axes: Axes, coeffs: usize, ledger: usize) -> Result<(), Refusal>
    ensures { answer_number result ≡ first_refusal (length_check (size (take axes.count axes.dims)) coeffs ++ length_check (size (take axes.count axes.dims)) ledger) }
{
    let points = axes.points();
    if coeffs != points {
        return Err(Refusal::DimensionMismatch);
    }
    if ledger != points {
        return Err(Refusal::DimensionMismatch);
    }
    Ok(())
}

// 4 for the length of scratch.
pub fn check_scratch(axes: Axes, scratch: usize) -> Result<(), Refusal>
    ensures { answer_number result ≡ first_refusal (scratch_check (take axes.count axes.dims) scratch) }
{
    if scratch < axes.scratch_len() {
        return Err(Refusal::ScratchTooSmall);
    }
    Ok(())
}

// 2 for the length of the samples, then 4 for that of scratch.
pub fn check_lent(axes: Axes, vals: usize, scratch: usize) -> Result<(), Refusal>
    ensures { answer_number result ≡ first_refusal (length_check (size (take axes.count axes.dims)) vals ++ scratch_check (take axes.count axes.dims) scratch) }
{
    if vals != axes.points() {
        return Err(Refusal::DimensionMismatch);
    }
    check_scratch(axes, scratch)
}

// 2 where the lists of axes, lines and answers disagree in length.
pub fn check_lists(axes: usize, lines: usize, answers: usize) -> Result<(), Refusal>
    ensures { answer_number result ≡ first_refusal (length_check axes lines ++ length_check axes answers) }
{
    if lines != axes {
        return Err(Refusal::DimensionMismatch);
    }
    if answers != axes {
        return Err(Refusal::DimensionMismatch);
    }
    Ok(())
}

// The samples are copied, and the ledger is all zeros.
pub fn start(vals: &[f64], coeffs: &mut [f64], ledger: &mut [u8])
    requires { length vals.now ≡ length coeffs.old }
    ensures { (coeffs.new ≡ vals.now) × (ledger.new ≡ replicate (length ledger.old) 0) }
{
    copy(vals, coeffs);
    ledger.fill(0);
}
