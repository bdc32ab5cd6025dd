// Cubic B-spline maps on a rectilinear grid, double precision: the record, building, values, gradients and batches. After
// interpn's multibspline::rectilinear.
//
// The shape, grid, flag and coefficients, and the buffers of a fit, are parameters in interpn's functions, in its order.
#![tactic(auto)]

mod build;
mod ends;
mod lent;
mod of_grid;
mod place;
mod record;

pub use build::{blank, check_map};
pub use ends::no_ghosts;
pub use lent::WithGhosts;
pub use of_grid::ByGrid;
pub use record::MultiBsplineRectilinear;
pub use rectilinear_weights::Ghost;
