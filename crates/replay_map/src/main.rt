// Replays the list of inputs of the map program in cases.txt: runs the program's work on each, compares what it prints with
// what the list says, byte for byte, and prints how many cases there were and how many differ. The list comes from the folder
// oracle/, whose README describes it.
#![tactic(auto)]

mod case;
mod compare;

use std::io;

fn main(rt: HostRuntime) -> io::Result<()> {
    let mut text: [u8; 138507] = oracle_list::array_of(0);
    let names = ["ends in T", "ends in M", "ends in X"];
    oracle_run::replay_list(&rt, "cases.txt", names, |list| {
        case::replay_next(&rt, list, &mut text)
    })
}
