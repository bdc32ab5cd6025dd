// What evaluating a map is on either grid: the rows of weights of a block of queries, strides, entries in use, the answers.
//
// That there are as many coefficients as a map has points is a fact of a map of any type and of what the caller lends beside it; a
// struct of the two would be made by each caller of one function. `n`, `count`, `a` and `stride` number queries, axes and cells: a
// coordinate stands axis after axis, so that none is the length of a slice.
#![tactic(auto)]

mod axis;
mod block;
mod figures;
mod in_use;
mod map;
mod places;
mod stages;
mod strides;

pub use axis::Axis;
pub use block::block_size;
pub use figures::Figures;
pub use in_use::used_of;
pub use map::{Map, Span, look};
pub use places::{put_parts, query};
pub use stages::{SlopeTable, Spot, WeightTable, put_rows};
pub use strides::{points_by_stride, strides_of};
