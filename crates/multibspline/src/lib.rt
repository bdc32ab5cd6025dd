// What both grids share: the rows of the Thomas algorithm on one line of a map, and where a query lies on an axis. These are
// inner functions of the library; a caller uses `regular` or `rectilinear`.
//
// That a line lies within a buffer is a fact of both, and the buffers change from call to call: a record of the two would be made
// for each. `LineInside` and `LineRoom` say it in a word.
#![tactic(auto)]

mod back;
mod checks;
mod entries;
mod rows;
mod saturation;

pub use back::back_substitute;
pub use checks::check_line;
pub use entries::{copy, entry, place};
pub use rows::{Left, Reduced, eliminate, keep_row};
pub use saturation::{AtPlace, Saturation, by_place};
