// The fit of a map on any grid, axis after axis: `Grid` has the system of each axis. These are inner functions of the library; a
// caller uses `regular` or `rectilinear`.
//
// The values, coefficients and scratch are lent one by one, as C lends them, and go on one by one: a record of them would be made
// here and taken apart in the next function. `FitRoom` says their lengths in a word.
#![tactic(auto)]

mod by_axes;
mod grid;

pub use by_axes::{fit, solve_found};
pub use grid::Grid;
