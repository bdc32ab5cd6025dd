// The Thomas algorithm on a line of a map, for any grid: `System` has the rows. These are inner functions of the library; a
// caller uses `regular` or `rectilinear`.
//
// What is asked of the line, `coeffs` and `scratch` stays a clause of each function: it is a fact of the line and of two buffers
// that are lent beside it, and a record of them would be taken apart again to lend each on. `LineRoom` and `LineOf` say it in a
// word.
#![tactic(auto)]

mod system;
mod thomas;
mod turn;

pub use system::{FirstRow, LastRow, System};
pub use thomas::solve_checked;
pub use turn::{Differ, Less, Step, Turn};
