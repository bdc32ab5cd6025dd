// The map of the map program: built from its first three lines, on either grid, and asked query by query.
//
// What a map and a query must have is said of both by each method of the trait, and the buffers of a fit come from the caller one
// by one.
#![tactic(auto)]

mod asked;
mod build;
mod replies;

pub use build::{Map, make};
pub use replies::{FittedMap, Reply};
