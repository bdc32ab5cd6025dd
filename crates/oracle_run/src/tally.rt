// The counts of a run, and how they are printed.
ghost use Rattle.std.specs.Prelude.{◌≡◌};

use crate::record::Unreadable;
use std::io;

// What came of a record: by how much each of the three counts of the program grows, and whether all was as the record expects.
#[derive(Clone, Copy)]
pub struct Replayed {
    pub counts: [u64; 3],
    pub is_same: bool,
}

// Why a list is not read to its end.
#[derive(Debug, Drop)]
pub enum Stop {
    // a record cannot be read
    Unreadable,
    // a line cannot be printed
    Print(io::Error),
}

impl From<Unreadable> for Stop {
    ghost use Rattle.oracle_run.specs.declared.tally.Stop.TheVariants.{Unreadable};

    ghost from_gives = { λ _ stop. stop ≡ Unreadable };

    fn from(_: Unreadable) -> Stop {
        Stop::Unreadable
    }
}

impl From<io::Error> for Stop {
    ghost use Rattle.oracle_run.specs.declared.tally.Stop.TheVariants.{Print};

    ghost from_gives = { λ error stop. stop ≡ Print error };

    fn from(error: io::Error) -> Stop {
        Stop::Print(error)
    }
}

#[derive(Clone, Copy, Default)]
pub struct Tally {
    counts: [u64; 3],
    // records of which something differs
    differ: u64,
    pub records: u64,
}

impl Tally {
    // Counts a record.
    pub fn add(&mut self, replayed: Replayed) {
        for (count, more) in self.counts.iter_mut().zip(&replayed.counts) {
            *count = count.saturating_add(*more);
        }
        self.records = self.records.saturating_add(1);
        if !replayed.is_same {
            self.differ = self.differ.saturating_add(1);
        }
    }

    // The counts by their names.
    pub fn print(&self, rt: &impl Print, names: [&str; 3]) -> io::Result<()> {
        for (name, count) in names.iter().zip(&self.counts) {
            println!(rt; "{name},{count}")?;
        }
        let differ = self.differ;
        println!(rt; "differ,{differ}")
    }
}
