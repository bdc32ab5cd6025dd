// One rectilinear axis of a map. That its knots are four or more and rise are fields of `Knots`; the functions of interpn below it
// take the knots themselves, and ask the same of them.
#![tactic(auto)]

mod axis;

pub use axis::Knots;
