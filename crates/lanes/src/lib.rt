// Lines side by side, solved row by row in place, for any grid. A row of one line needs the row before it, so that a line alone
// waits for each division; the lines beside it do not need one another. Each cell goes through the same operations in the same
// order as in a line alone, so that no bit can change. These are inner functions of the library; a caller uses `regular` or
// `rectilinear`.
//
// That the lines of a group or of an axis lie within the coefficients, and that the upper factors are long enough, are facts of
// the numbers and of the length of a buffer that is lent beside them: a struct of the numbers cannot have them.
#![tactic(auto)]

mod axis;
mod by_groups;
mod group;
mod keep;
mod solve;
mod upper;

pub use axis::{AxisLines, solve_lines};
