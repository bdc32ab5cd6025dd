// Stepwise fitting: begin, one line at a time in any order, or a list of lines, with a ledger that says what is solved. The
// caller lends the ledger, one byte a cell: how many of the lines through it, axis 0 first, are solved.
//
// The calls of a grid have its name, as C has them; each is one line over steps.rt and list.rt, which serve both grids.
//
// Coefficients, ledger and scratch stay three slices: C lends each by itself, begin is handed no scratch, and the fit knows no
// ledger. A struct of them would be made in eight calls and taken apart in four, for the six in between.
//
// The rows of lent buffers are the C interface's, and stay: each call takes what C hands it.
#![tactic(auto)]

mod list;
mod rectilinear_steps;
mod regular_steps;
mod spacing;
mod steps;

pub use rectilinear_steps::{
    begin_rectilinear, begin_rectilinear_by_len, fit_rectilinear_by_list, solve_rectilinear_line,
};
pub use regular_steps::{
    begin_regular, begin_regular_by_len, fit_regular_by_list, solve_regular_line,
};
