// The lines that the map program prints, on a page of fixed size.
//
// The room that a line needs is a clause of each function, as each line has a size of its own.
#![tactic(auto)]

mod lines;
mod page;

pub use page::Page;
