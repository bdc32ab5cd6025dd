// The upper numbers of an axis. They do not depend on the samples, so that they are worked out once for all lines: the first row's,
// the inner rows', one after the other, and the last row's.
ghost use Rattle.std.specs.Prelude.{◌≡◌, ◌-◌, ◌≤◌, length};
ghost use Rattle.std.specs.Float.{binary64};
ghost use Rattle.shape.specs.Cells.{put, from};
ghost use Rattle.lines.specs.Rows.{upper_number};
ghost use Rattle.multibspline.specs.Records.{left_of};
ghost use Rattle.lanes.specs.Lanes.{zero_samples};
ghost use Rattle.lanes.specs.Groups.{upper_from};

use lines::System;
use multibspline::Left;

// Of a row, from that of the row before.
fn upper_from(left: Left, above: f64) -> f64
    ensures { result ≡ upper_from binary64 (left_of left) above }
{
    left.upper / (left.diag - left.lower * above)
}

// Of the rows from the first to the last but one.
fn inner_uppers<S: System>(system: S, upper: &mut [f64])
    requires { (S.rows system).points ≤ length upper.old }
    ensures { upper.new ≡ put (from 0) (upper_number binary64 (S.rows system) zero_samples) ((S.rows system).points - 1) upper.old }
{
    let last = system.points() - 1;
    upper[0] = system.first_row().upper;
    // The number says a row of the system; the number of the row before stands beside.
    for i in 1..last {
        upper[i] = upper_from(system.inner_row(i), upper[i - 1]);
    }
}

pub fn upper_numbers<S: System>(system: S, upper: &mut [f64])
    requires { (S.rows system).points ≤ length upper.old }
    ensures { upper.new ≡ put (from 0) (upper_number binary64 (S.rows system) zero_samples) (S.rows system).points upper.old }
{
    inner_uppers(system, upper);
    let last = system.points() - 1;
    upper[last] = upper_from(system.last_row().left, upper[last - 1]);
}
