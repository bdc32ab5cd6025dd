// The knots of a rectilinear map: the part of the joined grid that an axis has, whether knots rise, how many are below a
// query, and the query's place. These are inner functions of the library. After interpn's multibspline::rectilinear.
//
// That knots rise and are four or more stays a clause of the searches: they take a slice, as they did, and a struct with the two
// facts would be made anew in each. `count` and `len` there say how far a search has come.
#![tactic(auto)]

mod by_parts;
mod joined;
mod order;
mod place;

pub use by_parts::{all_rise, axis_knots, grid_len};
pub use joined::{Joined, knots_of_all};
pub use order::{count_below, rising};
pub use place::{Loc, get_loc, loc_of};
