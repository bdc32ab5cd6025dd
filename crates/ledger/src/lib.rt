// What stepwise fitting on either grid shares: the ledger, one byte a cell, and the checks of begin, the line call and the task
// list. These are inner functions of the library; a caller uses `stepwise`.
//
// The rows of lent buffers are the C interface's, and stay.
#![tactic(auto)]

mod bytes;
mod shared;

pub use bytes::{bump_line, find_due};
pub use shared::{check_held, check_lent, check_lists, check_scratch, start};
