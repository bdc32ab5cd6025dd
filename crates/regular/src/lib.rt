// Cubic B-spline maps on a regular grid, double precision. After interpn's multibspline::regular.
#![tactic(auto)]

mod fit;
mod grid;

pub use fit::coefficients;
pub use grid::RegularGrid;
pub use regular_lines::solve_line;
