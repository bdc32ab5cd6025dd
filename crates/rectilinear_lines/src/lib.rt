// The system of an axis of a rectilinear grid, and one line of it, samples to coefficients. A caller uses `rectilinear`. The
// functions of interpn below take the knots themselves, and ask that there are four or more; of an `Axis` it is a field.
#![tactic(auto)]

mod axis;
mod ends;
mod line;

pub use axis::Axis;
pub use line::solve_line;
