// The system of an axis of a regular grid, and one line of it, samples to coefficients. A caller uses `regular`.
#![tactic(auto)]

mod axis;
mod line;

pub use axis::Axis;
pub use line::solve_line;
