// All the lines of one axis.
ghost use Rattle.std.specs.Prelude.{◌≡◌, ◌-◌, ◌*◌, ◌/◌, ◌≤◌, ◌<◌, length};
ghost use Rattle.std.specs.Float.{binary64, nan};
ghost use Rattle.shape.specs.Fit.{solve_line, solve_lines, line_leaves};
ghost use Rattle.shape.specs.Usable.{LinesWithin};
ghost use Rattle.lines.specs.Rows.{coefficient, upper_number};
ghost use Rattle.lanes.specs.Lanes.{Uppers};

use crate::by_groups::{solve_ends, solve_slabs};
use crate::keep::keep_line;
use crate::upper::upper_numbers;
use lines::{System, solve_checked};
use shape::{Line, first_cell_of};

// The lines of an axis: `count` of them, whose points are `stride` apart. `longest` is the length of the longest axis.
#[derive(Clone, Copy)]
pub struct AxisLines<S> {
    pub system: S,
    pub stride: usize,
    pub count: usize,
    pub longest: usize,
}

// Line l.
fn solve_nth<S: System>(axis: AxisLines<S>, l: usize, coeffs: &mut [f64], scratch: &mut [f64])
    requires { (l < axis.count) × LinesWithin (S.rows axis.system).points axis.stride axis.count axis.longest (length coeffs.old) (length scratch.old) }
    ensures coeffs_after { coeffs.new ≡ solve_line nan (coefficient binary64 (S.rows axis.system)) (S.rows axis.system).points axis.stride l coeffs.old }
    ensures scratch_after { scratch.new ≡ line_leaves nan
        (upper_number binary64 (S.rows axis.system)) (coefficient binary64 (S.rows axis.system))
        (S.rows axis.system).points axis.stride axis.longest l coeffs.old scratch.old }
{
    let n = axis.system.points();
    let base = first_cell_of(n, axis.stride, l);
    let along = Line {
        n,
        stride: axis.stride,
        base,
        longest: axis.longest,
    };
    solve_checked(axis.system, along, coeffs, scratch);
}

// All the lines, in place, with the upper numbers at hand.
fn solve_in_place<S: System>(axis: AxisLines<S>, upper: &[f64], coeffs: &mut [f64])
    requires whole { (0 < axis.stride) × (axis.count / axis.stride * axis.stride ≡ axis.count) × (axis.count * (S.rows axis.system).points ≤ length coeffs.old) }
    requires uppers { Uppers (upper_number binary64 (S.rows axis.system)) (S.rows axis.system).points upper.now }
    ensures { coeffs.new ≡ solve_lines nan (coefficient binary64 (S.rows axis.system)) (S.rows axis.system).points axis.stride axis.count coeffs.old }
{
    let s = axis.stride;
    if s == 1 {
        solve_ends(axis.system, axis.count, upper, coeffs);
    } else {
        solve_slabs(axis.system, s, axis.count / s, upper, coeffs);
    }
}

// All the lines together. What stays in scratch is what the last line, solved alone, would leave.
fn solve_many<S: System>(axis: AxisLines<S>, coeffs: &mut [f64], scratch: &mut [f64])
    requires within { (0 < axis.count) × LinesWithin (S.rows axis.system).points axis.stride axis.count axis.longest (length coeffs.old) (length scratch.old) }
    requires whole { axis.count / axis.stride * axis.stride ≡ axis.count }
    ensures coeffs_after { coeffs.new ≡ solve_lines nan (coefficient binary64 (S.rows axis.system)) (S.rows axis.system).points axis.stride axis.count coeffs.old }
    ensures scratch_after { scratch.new ≡ line_leaves nan
        (upper_number binary64 (S.rows axis.system)) (coefficient binary64 (S.rows axis.system))
        (S.rows axis.system).points axis.stride axis.longest (axis.count - 1) coeffs.old scratch.old }
{
    upper_numbers(axis.system, scratch);
    solve_in_place(axis, scratch, coeffs);
    let n = axis.system.points();
    let base = first_cell_of(n, axis.stride, axis.count - 1);
    let along = Line {
        n,
        stride: axis.stride,
        base,
        longest: axis.longest,
    };
    keep_line(along, coeffs, scratch);
}

// All the lines. A line alone has no other beside it: its upper numbers and right sides are worked out together.
pub fn solve_lines<S: System>(axis: AxisLines<S>, coeffs: &mut [f64], scratch: &mut [f64])
    requires within { (0 < axis.count) × LinesWithin (S.rows axis.system).points axis.stride axis.count axis.longest (length coeffs.old) (length scratch.old) }
    requires whole { axis.count / axis.stride * axis.stride ≡ axis.count }
    ensures coeffs_after { coeffs.new ≡ solve_lines nan (coefficient binary64 (S.rows axis.system)) (S.rows axis.system).points axis.stride axis.count coeffs.old }
    ensures scratch_after { scratch.new ≡ line_leaves nan
        (upper_number binary64 (S.rows axis.system)) (coefficient binary64 (S.rows axis.system))
        (S.rows axis.system).points axis.stride axis.longest (axis.count - 1) coeffs.old scratch.old }
{
    if axis.count == 1 {
        solve_nth(axis, 0, coeffs, scratch);
    } else {
        solve_many(axis, coeffs, scratch);
    }
}
