// A run over a list: its records one after the other, and what is printed of them.
ghost use Rattle.std.specs.Prelude.{ℕ, List, IfOk, IfSome, Ok};
ghost use Rattle.std.specs.Fn.{FnReturnsAt};

use crate::record::{Unreadable, read_record};
use crate::tally::{Replayed, Stop, Tally};
use std::fs::File;
use std::rt::Files;
use std::{fs, io};

// A list with more records than this is not read to its end, and so counts as unreadable. No iterator ends where a file does, and
// a loop with no such bound is not known to end.
const MOST_RECORDS: u64 = 1000000;

// Reads the next record of a list and replays it: what `replay` answers of some record, or None where the list has no more.
pub fn replay_next<F: Fn(&[u8]) -> Result<Replayed, Unreadable>>(
    list: &mut File,
    text: &mut [u8],
    replay: F,
) -> Result<Option<Replayed>, Stop>
    requires { F.IsAlwaysCallable replay }
    ensures { IfOk result (λ o. IfSome o (λ r. (text : List ℕ) × FnReturnsAt F.Fn replay text (Ok r))) }
{
    match read_record(list, text)? {
        Some(record) => Ok(Some(replay(record)?)),
        None => Ok(None),
    }
}

// Counts the records one after the other, up to the end of the list or the first that cannot be read.
fn replay_all<F: FnMut(&mut File) -> Result<Option<Replayed>, Stop>>(
    list: &mut File,
    tally: &mut Tally,
    mut next: F,
) -> Result<(), Stop>
    requires { F.IsAlwaysCallable next }
{
    for _ in 0..MOST_RECORDS {
        match next(list)? {
            Some(replayed) => tally.add(replayed),
            None => return Ok(()),
        }
    }
    Err(Stop::Unreadable)
}

// Opens a list; where that fails its name on standard error, a word on standard output, and the error.
fn open(rt: &(impl Files<File = File> + Print + Eprint), path: &str) -> io::Result<File> {
    match fs::open(rt, path) {
        Ok(list) => Ok(list),
        Err(error) => {
            eprintln!(rt; "{path}: it cannot be opened")?;
            println!(rt; "unreadable,0")?;
            Err(error)
        }
    }
}

// Replays the list of this name, each record by `next`, and prints the counts by their names; or, where the list cannot be read to
// its end, only the number of the record that stopped it.
pub fn replay_list<F: FnMut(&mut File) -> Result<Option<Replayed>, Stop>>(
    rt: &(impl Files<File = File> + Print + Eprint),
    path: &str,
    names: [&str; 3],
    next: F,
) -> io::Result<()>
    requires { F.IsAlwaysCallable next }
{
    let mut list = open(rt, path)?;
    let mut tally = Tally::default();
    match replay_all(&mut list, &mut tally, next) {
        Ok(()) => tally.print(rt, names),
        Err(Stop::Unreadable) => {
            let record = tally.records.saturating_add(1);
            println!(rt; "unreadable,{record}")
        }
        Err(Stop::Print(error)) => Err(error),
    }
}
