// One regular axis: the place of a query, its four weights and their slopes. After interpn's multibspline::regular.
//
// `t`, `sat` and the flag stay apart: these are interpn's functions with interpn's parameters.
#![tactic(auto)]

mod place;
mod weights;

pub use place::{Loc, get_loc, past_origin};
pub use weights::{cubic_bspline_weights, interp_weight_derivatives, interp_weights};
