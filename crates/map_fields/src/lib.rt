// Reading the map program's input: lines of fields parted by commas.
#![tactic(auto)]

mod head;
mod parts;
mod rows;

pub use head::{FirstLine, read_head};
pub use parts::Lines;
pub use rows::{read_floats, read_row};
