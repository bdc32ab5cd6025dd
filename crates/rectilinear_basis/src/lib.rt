// The basis of a rectilinear axis: its knots, past the ends too, and the four weights on a span by A2.2. After interpn's
// multibspline::rectilinear.
//
// `grid`, `span` and `x` stay apart, with the bounds of each: these are interpn's functions with interpn's parameters.
#![tactic(auto)]

mod basis;

pub use basis::{basis_span_weights, inner_weights, span_knots, weights_between};
