// The library for C: the functions of include/corvezan.h, each over the proved function that it names there. A slice is a
// pointer and a length in C, and a reference to one number a pointer; the header says what a caller owes.
//
// A function stands for each grid, as each name is one that C calls, with the parameters and the promises of that grid. What is
// behind two of them is one: `capi_parts` and `map_calls` for the calls that take a map, `stepwise` for begin, line and list, whose
// functions hand on in one line. Rows of parameters that travel together are the C interface's, and stay. So does the number
// `linear`: a C `bool` that holds another byte than 0 or 1 is undefined.
#![tactic(auto)]

mod on_rectilinear;
mod on_regular;
mod rectilinear_steps;
mod regular_steps;
mod sizes;
