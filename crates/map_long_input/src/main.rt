// The map program, on an input of one byte more than it takes: a map with 1,921 queries, answered in 73,013 bytes if the last
// byte were not noticed.
#![tactic(auto)]

use std::io;

fn main(rt: HostRuntime) -> io::Result<()> {
    map_run::run(&rt)
}
