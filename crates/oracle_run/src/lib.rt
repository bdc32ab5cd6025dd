// What the programs that replay the oracle's lists share beside `oracle_list`: a list is read record by record, each record is
// replayed, and what came of the records is counted and printed.
#![tactic(auto)]

mod list;
mod record;
mod tally;

pub use list::{replay_list, replay_next};
pub use record::{Grid, Unreadable, check_words, length_at, read_record, shape_of};
pub use tally::{Replayed, Stop};
