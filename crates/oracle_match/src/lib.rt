// What a replayed call answered and left, against its record: a fit, a batch, a single query, a list of line calls.
//
// A place `first` below a bound stands beside a text, since the definitions of what a record says speak of both; a slice from it
// on would have the same bound, and the definitions one more.
#![tactic(auto)]

mod batches;
mod fits;
mod lists;
mod queries;

pub use batches::{BatchPlace, batch_agrees};
pub use fits::fit_agrees;
pub use lists::{is_kept, list_agrees};
pub use queries::{QueryPlace, query_agrees};
