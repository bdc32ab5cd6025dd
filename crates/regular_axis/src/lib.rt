// One regular axis of a map. That it has four points or more is a field of `Points`; what `regular_weights` asks of n is asked
// there of a number, as in interpn.
#![tactic(auto)]

mod points;

pub use points::{Points, Seat};
