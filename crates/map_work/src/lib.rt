// The work of the map program, on slices.
#![tactic(auto)]

mod first_lines;
mod queries;

pub use first_lines::work_on;
