// A regular map, axis by axis, as the calls that evaluate it take it.
#![tactic(auto)]

mod grid;

pub use grid::Grid;
