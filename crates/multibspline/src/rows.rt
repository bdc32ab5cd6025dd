// Rows of a line's system, and elimination. In scratch the upper numbers stand from 0 on and the right sides from m on, the
// length of the longest axis: it is one buffer from C, and what is left in it is promised by the number of its cells.
ghost use Rattle.std.specs.Prelude.{◌≡◌, ◌+◌, ◌<◌, length};
ghost use Rattle.std.specs.Float.{binary64};
ghost use Rattle.multibspline.specs.Thomas.{reduce, with_right};
ghost use Rattle.multibspline.specs.Scratch.{with_reduced};
ghost use Rattle.multibspline.specs.Records.{left_of, reduced_of};

// The left side of a row: the numbers of the coefficient before, its own, and the one after. It is the same for all lines of an
// axis, since no sample is in it.
#[derive(Clone, Copy)]
pub struct Left {
    pub lower: f64,
    pub diag: f64,
    pub upper: f64,
}

// A row from which the row before it has been eliminated: its upper number and its right side. A loop over the rows carries
// the one before, so that no row waits for what another has just stored.
#[derive(Clone, Copy)]
pub struct Reduced {
    pub upper: f64,
    pub right: f64,
}

// Row i is kept in scratch.
pub fn keep_row(i: usize, m: usize, row: Reduced, scratch: &mut [f64])
    requires { (i < m) × (m + i < length scratch.old) }
    ensures { scratch.new ≡ with_reduced m i (reduced_of «row») scratch.old }
{
    scratch[i] = row.upper;
    scratch[m + i] = row.right;
}

// Row i, with the row before it eliminated.
pub fn eliminate(
    i: usize,
    m: usize,
    left: Left,
    right: f64,
    before: Reduced,
    scratch: &mut [f64],
) -> Reduced
    requires { (i < m) × (m + i < length scratch.old) }
    ensures result_value { reduced_of result ≡ reduce binary64 (with_right (left_of left) right) (reduced_of «before») }
    ensures scratch_after { scratch.new ≡ with_reduced m i (reduced_of result) scratch.old }
{
    let denom = left.diag - left.lower * before.upper;
    let row = Reduced {
        upper: left.upper / denom,
        right: (right - left.lower * before.right) / denom,
    };
    keep_row(i, m, row, scratch);
    row
}
