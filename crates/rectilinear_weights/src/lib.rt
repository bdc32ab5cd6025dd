// One rectilinear axis: the four weights of a query at each place, their slopes, and the ghost coefficients. After interpn's
// multibspline::rectilinear.
//
// `grid`, `span` and `x` stay apart, with the bounds of each: these are interpn's functions with interpn's parameters.
#![tactic(auto)]

mod ghosts;
mod weights;

pub use ghosts::{Ghost, high_ghost_coeffs, low_ghost_coeffs};
pub use weights::{
    high_boundary_weights, interp_weight_derivatives, interp_weights, low_boundary_weights,
};
