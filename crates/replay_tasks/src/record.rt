// One record of the list: whether it can be read, and what it counts as. Each list has kinds, sizes and counts of its own.
ghost use Rattle.std.specs.Prelude.{◌≡◌, ◌+◌, ◌≤◌};

use crate::run;
use oracle_list::number_at;
use oracle_run::{Grid, Replayed, Unreadable, check_words, length_at};

// The kind of a record: its grid.
#[derive(Clone, Copy)]
struct Kind {
    grid: Grid,
}

impl TryFrom<u64> for Kind {
    type Error = Unreadable;

    fn try_from(number: u64) -> Result<Kind, Unreadable> {
        let grid = match number {
            10 => Grid::Regular,
            11 => Grid::Rectilinear,
            _ => return Err(Unreadable),
        };
        Ok(Kind { grid })
    }
}

// The lengths of a record's knots and samples.
#[derive(Clone, Copy)]
pub struct Sizes {
    pub knots: usize,
    pub samples: usize,
    ghost few_knots: { knots ≤ 1024 },
    ghost few_samples: { samples ≤ 1024 },
}

impl Sizes {
    fn of(text: &[u8]) -> Result<Sizes, Unreadable> {
        let knots = length_at(text, 7, 1024)?;
        let samples = length_at(text, 8, 1024)?;
        Ok(Sizes { knots, samples })
    }

    // Both.
    pub fn floats(self) -> usize
        ensures sum { result ≡ self.knots + self.samples }
        ensures few { result ≤ 2048 }
    {
        self.knots + self.samples
    }
}

// The lengths of the coefficients and of the ledger.
#[derive(Clone, Copy)]
pub struct Lengths {
    pub coeffs: usize,
    pub ledger: usize,
    ghost few_coeffs: { coeffs ≤ 1024 },
    ghost short_ledger: { ledger ≤ 1024 },
}

impl Lengths {
    pub fn of(text: &[u8]) -> Result<Lengths, Unreadable> {
        let coeffs = length_at(text, 9, 1024)?;
        let ledger = length_at(text, 10, 1024)?;
        Ok(Lengths { coeffs, ledger })
    }
}

// The list of a record whose begin is accepted: from word `first` on it has n tasks, then what they leave.
#[derive(Clone, Copy)]
pub struct Tasks {
    pub first: usize,
    pub n: usize,
    pub lengths: Lengths,
    ghost near: { first ≤ 8192 },
    ghost few: { n ≤ 512 },
}

// A record that has been read as far as its lengths.
#[derive(Clone, Copy)]
pub struct Record<'a> {
    pub text: &'a [u8],
    pub grid: Grid,
    pub sizes: Sizes,
}

// A record whose begin is refused: it has no tasks.
fn replay_refusal(record: Record<'_>) -> Result<Replayed, Unreadable> {
    if number_at(record.text, 13) != 0 {
        return Err(Unreadable);
    }
    check_words(record.text, 14 + record.sizes.floats())?;
    Ok(Replayed {
        counts: [0, 0, 1],
        is_same: run::replay(record, None),
    })
}

// A record whose begin is accepted: tasks, coefficients and ledger are no longer than the buffers.
fn replay_accepted(record: Record<'_>) -> Result<Replayed, Unreadable> {
    let text = record.text;
    let n = length_at(text, 13, 512)?;
    let lengths = Lengths::of(text)?;
    let first = 14 + record.sizes.floats();
    check_words(text, first + n * 4 + lengths.coeffs + lengths.ledger)?;
    let tasks = Tasks { first, n, lengths };
    Ok(Replayed {
        counts: [1, n as u64, 0],
        is_same: run::replay(record, Some(tasks)),
    })
}

pub fn replay(text: &[u8]) -> Result<Replayed, Unreadable> {
    let Kind { grid } = Kind::try_from(number_at(text, 0))?;
    let sizes = Sizes::of(text)?;
    if grid == Grid::Regular && sizes.knots != 0 {
        return Err(Unreadable);
    }
    let record = Record { text, grid, sizes };
    if number_at(text, 12) != 0 {
        replay_refusal(record)
    } else {
        replay_accepted(record)
    }
}
