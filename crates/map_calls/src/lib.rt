// The calls that evaluate a map, on either grid: values and gradients, of a single query and of a batch.
#![tactic(auto)]

mod batch;
mod lent;
mod one;

pub use batch::{interp, interp_grad};
pub use lent::Lent;
pub use one::{interp_one, interp_one_grad};
