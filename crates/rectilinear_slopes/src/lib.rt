// The four weights on a span of a rectilinear axis: their slopes and their third derivatives. After interpn's
// multibspline::rectilinear.
//
// `grid`, `span` and `x` stay apart, with the bounds of each: these are interpn's functions with interpn's parameters.
#![tactic(auto)]

mod slopes;

pub use slopes::{basis_span_weight_derivatives, span_weight_third_derivatives};
