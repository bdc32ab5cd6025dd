// A rectilinear map, axis by axis, as the calls that evaluate it take it. After interpn's multibspline::rectilinear.
#![tactic(auto)]

mod grid;

pub use grid::Grid;
