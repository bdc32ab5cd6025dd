// Replays the list of fits in fits.txt: runs each call, compares what it answers and leaves with what the list says, and
// prints how many there were and how many differ. The list comes from the folder oracle/, whose README describes it.
#![tactic(auto)]

mod call;
mod record;

use std::io;

fn main(rt: HostRuntime) -> io::Result<()> {
    let mut text: [u8; 65536] = oracle_list::array_of(0);
    let names = ["fits", "refused", "published"];
    oracle_run::replay_list(&rt, "fits.txt", names, |list| {
        oracle_run::replay_next(list, &mut text, record::replay)
    })
}
