// Cubic B-spline maps on a rectilinear grid, double precision. After interpn's multibspline::rectilinear.
#![tactic(auto)]

mod fit;
mod grid;

pub use fit::coefficients;
pub use grid::RectilinearGrid;
pub use rectilinear_lines::solve_line;
