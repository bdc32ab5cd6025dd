// What the programs that replay the oracle's lists share: the words of a record, and bytes and cells of buffers against them.
// A word is told by the record and its number, as in the definitions. A struct of the words from one on would not be plainer: the
// head has words at fixed numbers, tasks' answers are four apart and a gradient's parts n apart, so that each call would number
// words anew. The bound on a first word keeps its sum with a place in range; the replayers keep theirs in a ghost field.
#![tactic(auto)]

mod arrays;
mod bytes;
mod cells;
mod fillings;
mod words;

pub use arrays::{array_of, copy_of};
pub use bytes::bytes_agree;
pub use cells::{Test, cell_agrees, cells_agree, float_at, read_cells, same_cells};
pub use fillings::{Filling, fill, filled, is_filled};
pub use words::{are_words, every_fourth, is_number, number_at, size_at};
