// Replays the list of queries on maps in queries.txt: runs each batch and each query, compares what they answer and leave with
// what the list says, and prints how many there were and how many records differ. The list comes from the folder oracle/, whose
// README describes it.
#![tactic(auto)]

mod batch;
mod map;
mod ones;
mod record;

use std::io;

fn main(rt: HostRuntime) -> io::Result<()> {
    let mut text: [u8; 65536] = oracle_list::array_of(0);
    let names = ["maps", "queries", "refused"];
    oracle_run::replay_list(&rt, "queries.txt", names, |list| {
        oracle_run::replay_next(list, &mut text, record::replay)
    })
}
