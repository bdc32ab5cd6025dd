// Values and gradients of a map, on either grid, at a block of queries: the sums over the coefficients that count, by the weights
// and slopes of the queries.
//
// `strides` and `coeffs` stay parameters beside the rows: `Sums` of interp_math takes them one by one, so that a struct of them
// would be made here and taken apart a call later. `Summable` says what is asked of all. That there are as many coefficients as
// the map has points is a fact of the map and of what is lent beside it. `from` and `count` number queries and axes, and are no
// length of a slice.
#![tactic(auto)]

mod batches;
mod blocks;
mod gradients;
mod single;
mod values;

pub use batches::batch;
pub use blocks::block;
pub use gradients::Gradients;
pub use single::{single_gradient, single_value};
pub use values::{Values, value};
