// Replays the list of stepwise fits in tasks.txt: runs each begin and each task list, compares what they answer and leave with
// what the list says, and prints how many there were and how many records differ. The list comes from the folder oracle/, whose
// README describes it.
#![tactic(auto)]

mod call;
mod record;
mod run;
mod steps;

use std::io;

fn main(rt: HostRuntime) -> io::Result<()> {
    let mut text: [u8; 65536] = oracle_list::array_of(0);
    let names = ["lists", "calls", "refused"];
    oracle_run::replay_list(&rt, "tasks.txt", names, |list| {
        oracle_run::replay_next(list, &mut text, record::replay)
    })
}
